ghost use Rattle.std.specs.Prelude.{List, ℕ};
ghost use Rattle.use_flags.specs.Changes.{IsChange};
ghost use Rattle.use_flags.specs.Faults.{FirstFault, HasNoFault, HasOneFault};
ghost use Rattle.use_flags.specs.Items.{IsItem};
ghost use Rattle.use_flags.specs.Words.{EachWord};

/// A law: but for want of memory a text of items, and a text of changes, has one fault at most, and
/// a text in form has none.
pub fn one_fault()
    ensures items { (text : List ℕ) → HasOneFault (FirstFault IsItem text) }
    ensures no_item { (text : List ℕ) → EachWord IsItem text → HasNoFault (FirstFault IsItem text) }
    ensures changes { (text : List ℕ) → HasOneFault (FirstFault IsChange text) }
    ensures no_change { (text : List ℕ) → EachWord IsChange text →
        HasNoFault (FirstFault IsChange text) }
{}
