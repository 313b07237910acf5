ghost use Rattle.pms_version.specs.Begins.{version_begins};
ghost use Rattle.pms_version.specs.Keys.{key_cmp};
ghost use Rattle.pms_version.specs.Limits.{IsReadable};
ghost use Rattle.pms_version.specs.Order.{version_cmp};
ghost use Rattle.pms_version.specs.Reading.{FirstFault};
ghost use Rattle.pms_version.specs.declared.fault.VersionFault.{VersionFault};
ghost use Rattle.pms_version.specs.declared.fault.VersionFault.TheVariants.{Memory};
ghost use Rattle.std.specs.Cmp.{IsTotalOrder};
ghost use Rattle.std.specs.Ordering.{ordering_reverse};
ghost use Rattle.std.specs.Prelude.{◌≡◌, List, true, ℕ};
ghost use Rattle.std.specs.declared.cmp.Ordering.TheVariants.{Equal, Less};
ghost use Rattle.pms_grammar.specs.Grammar.{IsVersion, VersionValue, spelling};

/// A law: the order of versions is total, up to versions that are equal in it.
pub fn order_is_total()
    ensures itself { (a : VersionValue) → IsVersion a → version_cmp a a ≡ Equal }
    ensures turned { (a b : VersionValue) → IsVersion a → IsVersion b →
        version_cmp b a ≡ ordering_reverse (version_cmp a b) }
    ensures rises { (a b c : VersionValue) → IsVersion a → IsVersion b → IsVersion c →
        version_cmp a b ≡ Less → version_cmp b c ≡ Less → version_cmp a c ≡ Less }
    ensures alike { (a b c : VersionValue) → IsVersion a → IsVersion b → IsVersion c →
        version_cmp a b ≡ Equal → version_cmp a c ≡ version_cmp b c }
{}

/// A law: versions are ordered as their keys are, and the order of keys is total on all parts.
pub fn order_is_that_of_keys()
    ensures keys { (a b : VersionValue) → IsVersion a → IsVersion b →
        version_cmp a b ≡ key_cmp a b }
    ensures total { IsTotalOrder key_cmp }
{}

/// A law: a version begins itself.
pub fn each_begins_itself()
    ensures { (a : VersionValue) → IsVersion a → version_begins a a ≡ true }
{}

/// A law: but for want of memory a text has one fault at most, and that of a readable version none.
pub fn one_fault()
    ensures once { (bytes : List ℕ) (a b : VersionFault) → FirstFault bytes a → FirstFault bytes b →
        (¬ (a ≡ Memory)) → (¬ (b ≡ Memory)) → a ≡ b }
    ensures none { (bytes : List ℕ) (a : VersionFault) (p : VersionValue) → IsReadable p →
        bytes ≡ spelling p → FirstFault bytes a → a ≡ Memory }
{}
