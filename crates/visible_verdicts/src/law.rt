ghost use Rattle.std.specs.Prelude.{◌≡◌, ℕ, List, Option};
ghost use Rattle.dep_atom.specs.declared.package.PackageId.{PackageId};
ghost use Rattle.md5_cache.specs.Entries.{CacheEntryValue};
ghost use Rattle.visible_verdicts.specs.Verdicts.{IsReason, IsVisible};
ghost use Rattle.visible_verdicts.specs.declared.reason.Reason.{Reason};
ghost use Rattle.visible_verdicts.specs.declared.rules.VisibleRules.{VisibleRules};

/// A law: a candidate that is visible has no reason, and another one has one reason at most.
pub fn one_verdict()
    ensures visible { (rules : VisibleRules) (id : PackageId) (bytes : List ℕ)
        (ebuild : Option (List ℕ)) (e : CacheEntryValue) (reason : Reason) →
        IsVisible rules id bytes ebuild e → ¬ IsReason rules id bytes ebuild reason }
    ensures reason { (rules : VisibleRules) (id : PackageId) (bytes : List ℕ)
        (ebuild : Option (List ℕ)) (a b : Reason) →
        IsReason rules id bytes ebuild a → IsReason rules id bytes ebuild b → a ≡ b }
{
    pms_slot::one_slot_value();
}
