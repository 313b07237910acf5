ghost use Rattle.std.specs.Prelude.{◌≡◌, List, ℕ};
ghost use Rattle.pms_names.specs.Names.{FirstFault, IsName};
ghost use Rattle.pms_names.specs.declared.fault.NameFault.{NameFault};
ghost use Rattle.pms_names.specs.declared.fault.NameFault.TheVariants.{Memory};
ghost use Rattle.pms_names.specs.declared.kind.Kind.{Kind};

/// A law: but for want of memory a text has one fault at most, and a name has none.
pub fn one_fault()
    ensures once { (kind : Kind) (bytes : List ℕ) (a b : NameFault) → FirstFault kind bytes a →
        FirstFault kind bytes b → (¬ (a ≡ Memory)) → (¬ (b ≡ Memory)) → a ≡ b }
    ensures none { (kind : Kind) (bytes : List ℕ) (a : NameFault) → IsName kind bytes →
        FirstFault kind bytes a → a ≡ Memory }
{}
