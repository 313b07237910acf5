ghost use Rattle.std.specs.Prelude.{List};
ghost use Rattle.pkg_state.specs.Package.{Package};
ghost use Rattle.plan_law.specs.Accepted.{IsAccepted};
ghost use Rattle.plan_law.specs.Plans.{Group, WaitsForEarlier};
ghost use Rattle.plan_law.specs.Sound.{IsSound};

/// A law: an accepted plan is sound, over every order of its groups.
pub fn accepted_plans_are_sound()
    ensures { (plan : List Group) (start : List Package) → WaitsForEarlier plan →
        IsAccepted plan start → IsSound plan start }
{}
