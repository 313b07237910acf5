ghost use Rattle.std.specs.Prelude.{◌≡◌, Ok};
ghost use Rattle.merge_record.specs.RecordValue.{RecordValue};
ghost use Rattle.merge_record.specs.Reading.{record_of};
ghost use Rattle.merge_record.specs.Spelling.{IsSpellable, spelling};

/// What is spelled is read again, and no two records have one spelling.
pub fn one_spelling()
    ensures again { (r : RecordValue) → IsSpellable r → record_of (spelling r) ≡ Ok r }
    ensures apart { (r s : RecordValue) → IsSpellable r → IsSpellable s →
        spelling r ≡ spelling s → r ≡ s }
{}
