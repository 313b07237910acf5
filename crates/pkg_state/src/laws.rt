ghost use Rattle.std.specs.Prelude.{◌≡◌, ◌⊎◌, List, ℕ};
ghost use Rattle.pkg_state.specs.Package.{Package};
ghost use Rattle.pkg_state.specs.Consistent.{AreConsistent};
ghost use Rattle.pkg_state.specs.Fault.{Fault, IsFirstFault};
ghost use Rattle.pkg_state.specs.State.{IsState, on_line};

/// A law: packages are consistent, or just one fault is their first.
pub fn one_fault()
    ensures once { (ps : List Package) (a b : Fault) → IsFirstFault ps a → IsFirstFault ps b →
        a ≡ b }
    ensures none { (ps : List Package) (a : Fault) → AreConsistent ps → ¬ IsFirstFault ps a }
    ensures some { (ps : List Package) → AreConsistent ps ⊎ ((a : Fault) × IsFirstFault ps a) }
{}

/// A law: a state is told by what it has on each line.
pub fn one_state()
    ensures { (ps qs : List Package) → IsState ps → IsState qs →
        ((line : List ℕ) → on_line ps line ≡ on_line qs line) → ps ≡ qs }
{}
