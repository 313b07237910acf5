ghost use Rattle.std.specs.Prelude.{◌≡◌, List, ℕ};
ghost use Rattle.dep_atom.specs.Atoms.{IsAtomValue};
ghost use Rattle.dep_atom.specs.Faults.{FirstFault};
ghost use Rattle.dep_atom.specs.Ids.{FirstIdFault, IsId, name_and_version};
ghost use Rattle.dep_atom.specs.Promises.{HasNoFault, HasOneFault};
ghost use Rattle.dep_atom.specs.Text.{value_text};
ghost use Rattle.dep_atom.specs.Values.{AtomValue};
ghost use Rattle.dep_atom.specs.declared.package.PackageId.{PackageId};

/// A law: but for want of memory what is read as a package, and what is read as an atom, has one
/// fault at most, and that of a package or an atom none.
pub fn one_fault()
    ensures packages { (category pf : List ℕ) → HasOneFault (FirstIdFault category pf) }
    ensures no_package { (id : PackageId) → IsId id → HasNoFault
        (FirstIdFault id.name.category (name_and_version id)) }
    ensures atoms { (text : List ℕ) → HasOneFault (FirstFault text) }
    ensures no_atom { (atom : AtomValue) → IsAtomValue atom →
        HasNoFault (FirstFault (value_text atom)) }
{}
