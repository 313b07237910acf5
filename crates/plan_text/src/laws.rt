ghost use Rattle.std.specs.Prelude.{◌≡◌, List};
ghost use Rattle.plan_text.specs.Plans.{GroupValue};
ghost use Rattle.plan_text.specs.Texts.{IsPlan, plan_text};

/// A law: plans in form that have one text are one plan.
pub fn one_plan()
    ensures { (p q : List GroupValue) → IsPlan p → IsPlan q → plan_text p ≡ plan_text q → p ≡ q }
{}
