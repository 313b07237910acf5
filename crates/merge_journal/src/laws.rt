ghost use Rattle.std.specs.Prelude.{◌≡◌, ◌↔◌, ◌<◌, ◌^◌, ℕ, List, Option, Ok, true, false};
ghost use Rattle.basics.specs.Members.{Has};
ghost use Rattle.file_tree.specs.Disk.{Map};
ghost use Rattle.file_tree.specs.ObjectValue.{ObjectValue};
ghost use Rattle.merge_record.specs.RecordValue.{RecordValue};
ghost use Rattle.merge_journal.specs.Judging.{IsGroupInForm, judged, judged_open};
ghost use Rattle.merge_journal.specs.Names.{gate_path, record_path, stage_path};
ghost use Rattle.merge_journal.specs.Open.{IsRising, is_open, open_groups};
ghost use Rattle.merge_journal.specs.Recovered.{IsRecovered};
ghost use Rattle.merge_journal.specs.Group.{AreInForm, Group, IsGroup, applied, contents, covers, groups};
ghost use Rattle.merge_journal.specs.Group.{with_group};

/// The open groups of a crash image are the rising list of just the numbers whose gate is open.
pub fn open_groups_rise()
    ensures has { (c : Map) (g : ℕ) → Has (open_groups c) g ↔
        ((g < 2 ^ 32) × (is_open (c (gate_path g)) ≡ true)) }
    ensures rising { (c : Map) → IsRising (open_groups c) }
    ensures only { (c : Map) (gs : List ℕ) → IsRising gs →
        ((g : ℕ) → Has gs g ↔ ((g < 2 ^ 32) × (is_open (c (gate_path g)) ≡ true))) →
        gs ≡ open_groups c }
{}

/// The verdict on an open group: it is good with a record exactly where the group is in form with
/// that record, and it reads the record and the stages alone.
pub fn judged_in_form()
    ensures form { (c : Map) (taken : List (List ℕ)) (g : ℕ) (r : RecordValue) →
        (judged c taken g ≡ Ok r) ↔ IsGroupInForm c taken g r }
    ensures alike { (c d : Map) (taken : List (List ℕ)) (g : ℕ) →
        c (record_path g) ≡ d (record_path g) →
        ((i : ℕ) → c (stage_path g i) ≡ d (stage_path g i)) → judged c taken g ≡ judged d taken g }
{}

/// A crash image whose open groups are in form recovers to some map, and to one alone.
pub fn recovered_once()
    ensures once { (c m n : Map) → IsRecovered c m → IsRecovered c n → (q : List ℕ) → m q ≡ n q }
    ensures some { (c : Map) (records : List RecordValue) → judged_open c ≡ Ok records →
        (m : Map) × IsRecovered c m }
{}

/// What a group makes of a path doesn't depend on what stood at a path of its own, and nothing changes at the others.
pub fn group_at_its_paths()
    ensures own { (g : Group) (q : List ℕ) (x y : Option ObjectValue) → IsGroup g →
        covers g q ≡ true → with_group g q x ≡ with_group g q y }
    ensures others { (g : Group) (q : List ℕ) (x : Option ObjectValue) → covers g q ≡ false →
        with_group g q x ≡ x }
{}

/// Where each open group is in form, the map recovers, to itself with these groups applied in the order of their numbers.
pub fn recovered_in_form()
    ensures records { (c : Map) (f : ℕ → Group) → AreInForm c f →
        judged_open c ≡ Ok (contents f (open_groups c)) }
    ensures is { (c : Map) (f : ℕ → Group) → AreInForm c f →
        IsRecovered c (applied c (groups f (open_groups c))) }
{}
