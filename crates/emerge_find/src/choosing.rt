ghost use Rattle.std.specs.Prelude.{◌≡◌, ◌≢◌, IfErr, IfOk, map};
ghost use Rattle.law_commit.specs.Lit.{packages_of};
ghost use Rattle.pms_names.specs.Flags.{IsRising};
ghost use Rattle.pkg_state.specs.Consistent.{AreApart, AreConsistent};
ghost use Rattle.plan_text.specs.Plans.{plan_value};
ghost use Rattle.plan_text.specs.Texts.{IsPlan};
ghost use Rattle.emerge_choose.specs.Answers.{IsChosenPlan, Tells};
ghost use Rattle.plan_model.specs.Accepting.{IsGood};
ghost use Rattle.emerge_choose.specs.Wishes.{Over, wish_value};
ghost use Rattle.emerge_choose.specs.declared.fault.NotChosen.TheVariants.{Memory};
ghost use Rattle.choice_universe.specs.Offers.{variants_of};
ghost use Rattle.emerge_find.specs.Choices.{IsChosenOf, IsUnchosen, bare_of, choices_of, not_taken};
ghost use Rattle.emerge_find.specs.Choices.{tried_of};
ghost use Rattle.emerge_find.specs.Filing.{IsUnfiled};
ghost use Rattle.emerge_find.specs.Shapes.{IsInShape};
ghost use Rattle.dep_atom.specs.Values.{atom_value};
ghost use Rattle.emerge_find.specs.Unmerges.{BarsUnmerge, IsUnmerged};
ghost use Rattle.emerge_find.specs.Sources.{Ends, IsFormed, IsMade, IsMadeOf, IsUnmade};

use crate::ends::{NoPlan, end_of};
use crate::filing::judged;
use crate::found::Found;
use crate::offered::{Parted, all_lit, not_taken, parts_of};
use crate::source::Source;
use crate::unfiled::Unfiled;
use crate::unmade::Unmade;
use crate::unmerge::{NotUnmerged, unmerged};
use dep_atom::Atom;
use emerge_choose::{Chosen, NotChosen, NotTaken, Wish, choose_plan};
use pkg_state::Pkg;
use plan_text::Plan;
use pms_names::Flags;
use run_opening::Opening;
use std::alloc::Global;
use vdb_record::Installed;
use visible_offers::Candidate;
use visible_set::{Hidden, Offers};

/// The plan over what is installed and offered, with what is given back of both.
pub(crate) fn plan_over(
    alloc: Global,
    opening: Opening,
    offers: Offers,
    source: Source,
) -> Result<Found, NoPlan>
    requires consistent { AreConsistent (packages_of offers.implicit opening.packages.items) }
    requires form { IsFormed source }
    ensures found { IfOk result (IsMade (choices_of offers.implicit opening.packages.items
        offers.candidates.items offers.hidden.items) source) }
    ensures packages { IfOk result (λ f. f.packages ≡ opening.packages) }
    ensures book { IfOk result (λ f. f.book ≡ opening.book) }
    ensures shape { IfOk result (λ f. IsInShape f.chosen) }
    ensures refused { IfErr result (Ends (choices_of offers.implicit opening.packages.items
        offers.candidates.items offers.hidden.items) source) }
{
    let Opening { packages, book } = opening;
    let Offers {
        implicit,
        candidates,
        hidden,
    } = offers;
    rises(&implicit);
    match made_over(alloc, &packages, &implicit, candidates, hidden, source) {
        Ok(chosen) => Ok(Found {
            packages,
            book,
            implicit,
            chosen,
        }),
        Err(fault) => Err(end_of(fault, packages)),
    }
}

/// Says that the flags are in byte order.
fn rises(flags: &Flags)
    ensures { IsRising flags.now }
{
    flags.list();
}

/// What is made of the source, over these packages with the implicit flags on.
fn made_over(
    alloc: Global,
    packages: &[Installed],
    implicit: &Flags,
    candidates: Vec<Candidate>,
    hidden: Vec<Hidden>,
    source: Source,
) -> Result<Chosen, Unmade>
    requires consistent { AreConsistent (packages_of implicit.now packages.now) }
    requires form { IsFormed source }
    ensures made { IfOk result (IsMadeOf (choices_of implicit.now packages.now candidates.items
        hidden.items) source) }
    ensures shape { IfOk result IsInShape }
    ensures fault { IfErr result (IsUnmade (choices_of implicit.now packages.now candidates.items
        hidden.items) source) }
{
    match source {
        Source::Wished(wish) => {
            match chosen_over(alloc, packages, implicit, candidates, hidden, wish) {
                Ok(chosen) => Ok(chosen),
                Err(fault) => Err(Unmade::Wished(fault)),
            }
        }
        Source::Filed { path, text } => {
            match judged_over(alloc, packages, implicit, candidates, hidden, text) {
                Ok(chosen) => Ok(chosen),
                Err(fault) => Err(Unmade::Filed { path, fault }),
            }
        }
        Source::Unmerged(atoms) => {
            match unmerged_over(alloc, packages, implicit, candidates, &atoms) {
                Ok(chosen) => Ok(chosen),
                Err(fault) => Err(Unmade::Unmerged(fault)),
            }
        }
    }
}

/// What is chosen of the candidates, over these packages with the implicit flags on.
fn chosen_over(
    alloc: Global,
    packages: &[Installed],
    implicit: &Flags,
    candidates: Vec<Candidate>,
    hidden: Vec<Hidden>,
    wish: Wish,
) -> Result<Chosen, NotChosen>
    requires { AreConsistent (packages_of implicit.now packages.now) }
    ensures chosen { IfOk result (IsChosenOf (choices_of implicit.now packages.now
        candidates.items hidden.items) (wish_value wish)) }
    ensures fault { IfErr result (λ e. e ≢ Memory → IsUnchosen (choices_of implicit.now packages.now
        candidates.items hidden.items) (wish_value wish) e) }
{
    let installed = all_lit(alloc, packages, implicit)?;
    let hidden = not_taken(alloc, hidden)?;
    chosen_among(alloc, &installed, candidates, &hidden, wish)
}

/// What becomes of the text, over these packages with the implicit flags on.
fn judged_over(
    alloc: Global,
    packages: &[Installed],
    implicit: &Flags,
    candidates: Vec<Candidate>,
    hidden: Vec<Hidden>,
    text: Plan,
) -> Result<Chosen, Unfiled>
    requires { IsPlan (plan_value text) }
    ensures text { IfOk result (λ chosen. chosen.text ≡ text) }
    ensures good { IfOk result (λ chosen. IsGood (packages_of implicit.now packages.now)
        (map bare_of candidates.items) (plan_value text) chosen.plan) }
    ensures fault { IfErr result (IsUnfiled (packages_of implicit.now packages.now)
        (map bare_of candidates.items) (map not_taken hidden.items) (plan_value text)) }
{
    let installed = all_lit(alloc, packages, implicit)?;
    let hidden = not_taken(alloc, hidden)?;
    let Parted { offered, .. } = parts_of(alloc, candidates)?;
    let plan = judged(alloc, &installed, &offered, &hidden, &text)?;
    Ok(Chosen { text, plan })
}

/// The same, over these packages as they are.
fn chosen_among(
    alloc: Global,
    installed: &[Pkg],
    candidates: Vec<Candidate>,
    hidden: &[NotTaken],
    wish: Wish,
) -> Result<Chosen, NotChosen>
    requires { AreApart installed.now }
    ensures chosen { IfOk result (λ chosen. Over installed.now
        (variants_of (map tried_of candidates.items)) (wish_value wish)
        (λ u. IsChosenPlan installed.now (map bare_of candidates.items) wish.update
        wish.limit u chosen)) }
    ensures fault { IfErr result (λ e. e ≢ Memory → Over installed.now
        (variants_of (map tried_of candidates.items)) (wish_value wish)
        (λ u. Tells installed.now (map bare_of candidates.items) hidden.now wish.update
        wish.limit u e)) }
{
    let Parted { offered, tried } = parts_of(alloc, candidates)?;
    choose_plan(alloc, installed, &offered, hidden, tried, wish)
}

/// What the atoms match goes of these packages, with the implicit flags on.
fn unmerged_over(
    alloc: Global,
    packages: &[Installed],
    implicit: &Flags,
    candidates: Vec<Candidate>,
    atoms: &[Atom],
) -> Result<Chosen, NotUnmerged>
    requires { AreConsistent (packages_of implicit.now packages.now) }
    ensures chosen { IfOk result (IsUnmerged (packages_of implicit.now packages.now)
        (map bare_of candidates.items) (map atom_value atoms.now)) }
    ensures fault { IfErr result (BarsUnmerge (packages_of implicit.now packages.now)
        (map bare_of candidates.items) (map atom_value atoms.now)) }
{
    let installed = all_lit(alloc, packages, implicit)?;
    let Parted { offered, .. } = parts_of(alloc, candidates)?;
    unmerged(alloc, &installed, &offered, atoms)
}
