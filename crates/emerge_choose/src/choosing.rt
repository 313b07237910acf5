ghost use Rattle.std.specs.Prelude.{◌≡◌, ◌≢◌, Bool, IfErr, IfOk, List, Some, ℕ};
ghost use Rattle.dep_atom.specs.Values.{atom_value};
ghost use Rattle.choice_tree.specs.Views.{universe_of};
ghost use Rattle.pkg_state.specs.Consistent.{AreApart};
ghost use Rattle.pkg_state.specs.Package.{Package};
ghost use Rattle.merge_groups.specs.Single.{AreLinesApart};
ghost use Rattle.choice_universe.specs.Offers.{variants_of};
ghost use Rattle.emerge_choose.specs.Answers.{IsChosenPlan, Tells};
ghost use Rattle.emerge_choose.specs.Wishes.{Over, first_unserved, wish_value};
ghost use Rattle.emerge_choose.specs.declared.fault.NotChosen.TheVariants.{Memory};

use crate::chosen::Chosen;
use crate::fault::NotChosen;
use crate::planning::planned;
use crate::reason::NotTaken;
use crate::reasons::reasons_of;
use crate::searching::resolved;
use crate::serving::first_unserved;
use crate::wish::Wish;
use choice_tree::Universe;
use choice_universe::{Candidate, make_universe};
use dep_atom::Atom;
use pkg_state::Pkg;
use std::alloc::{AllocError, Global};

/// The refusal of an atom that matches nothing.
fn no_candidate(
    alloc: Global,
    universe: &Universe,
    atom: &Atom,
    offered: &[Pkg],
    hidden: &[NotTaken],
) -> Result<NotChosen, AllocError>
    requires { first_unserved (universe_of universe.now) ≡ Some (atom_value atom.now) }
    ensures { IfOk result (λ e. (installed : List Package) (update : Bool) (limit : ℕ) →
        Tells installed offered.now hidden.now update limit (universe_of universe.now) e) }
{
    let reasons = reasons_of(alloc, &atom.name, offered, hidden)?;
    let atom = atom.try_clone()?;
    Ok(NotChosen::NoCandidate { atom, reasons })
}

/// The plan of a universe.
fn plan_over(
    alloc: Global,
    installed: &[Pkg],
    offered: &[Pkg],
    hidden: &[NotTaken],
    universe: &Universe,
    limit: usize,
) -> Result<Chosen, NotChosen>
    requires { AreLinesApart (universe_of universe.now) }
    ensures chosen { IfOk result (IsChosenPlan installed.now offered.now universe.now.update limit
        (universe_of universe.now)) }
    ensures fault { IfErr result (Tells installed.now offered.now hidden.now
        universe.now.update limit (universe_of universe.now)) }
{
    if let Some(atom) = first_unserved(alloc, universe) {
        return Err(no_candidate(alloc, universe, atom, offered, hidden)?);
    }
    let choice = resolved(alloc, universe, limit)?;
    planned(alloc, installed, offered, universe, &choice)
}

/// The plan of what is wanted over what is installed. Each variant of a candidate is one of an
/// offered package: that of its name, version and slots, whose enabled flags are the implicit ones.
/// Hidden candidates can't be chosen, and are told where nothing serves an atom of their name.
pub fn choose_plan(
    alloc: Global,
    installed: &[Pkg],
    offered: &[Pkg],
    hidden: &[NotTaken],
    candidates: Vec<Candidate>,
    wish: Wish,
) -> Result<Chosen, NotChosen>
    requires { AreApart installed.now }
    ensures chosen { IfOk result (λ chosen.
        Over installed.now (variants_of candidates.items) (wish_value wish)
        (λ u. IsChosenPlan installed.now offered.now wish.update wish.limit u chosen)) }
    ensures fault { IfErr result (λ e. e ≢ Memory →
        Over installed.now (variants_of candidates.items) (wish_value wish)
        (λ u. Tells installed.now offered.now hidden.now wish.update wish.limit u e)) }
{
    let universe = make_universe(alloc, installed, candidates, wish.wanted, wish.update)?;
    plan_over(alloc, installed, offered, hidden, &universe, wish.limit)
}
