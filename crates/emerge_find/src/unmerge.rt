ghost use Rattle.std.specs.Prelude.{◌≡◌, [], IfErr, IfOk, List, map};
ghost use Rattle.std.specs.List.{list_any};
ghost use Rattle.std.specs.Option.{option_map};
ghost use Rattle.dep_atom.specs.Values.{atom_value};
ghost use Rattle.pkg_state.specs.Consistent.{AreApart};
ghost use Rattle.pkg_state.specs.Package.{Package};
ghost use Rattle.plan_text.specs.Plans.{plan_value};
ghost use Rattle.emerge_choose.specs.Wishes.{is_match};
ghost use Rattle.emerge_find.specs.Unmerges.{BarsUnmerge, IsOfNoAddition, IsToldOf, IsUnmergeOf};
ghost use Rattle.emerge_find.specs.Unmerges.{IsUnmerged, first_unmatched, is_matched, matched};

use dep_atom::Atom;
use emerge_choose::{Chosen, NotTaken};
use merge_groups::unmerge_plan;
use pkg_state::Pkg;
use plan_model::{NotAccepted, accept};
use plan_rules::PlanRefused;
use plan_text::Plan;
use pms_names::Flags;
use std::alloc::{AllocError, Global};

/// Why nothing goes.
#[derive(Debug, Drop)]
pub(crate) enum NotUnmerged {
    /// The first atom that matches nothing that is installed; no candidate is told with it.
    NoCandidate { atom: Atom, reasons: Vec<NotTaken> },
    /// The plan breaks a rule of the check.
    Refused(PlanRefused),
    /// Memory ran out.
    Memory,
}

impl From<AllocError> for NotUnmerged {
    ghost use Rattle.std.specs.Prelude.{◌≡◌};
    ghost use Rattle.emerge_find.specs.declared.unmerge.NotUnmerged.TheVariants.{Memory};

    ghost from_gives = { λ _ e. e ≡ Memory };

    fn from(_: AllocError) -> NotUnmerged {
        NotUnmerged::Memory
    }
}

fn matches_any(atom: &Atom, packages: &[Pkg], nobody: &Flags) -> bool
    requires { nobody.now ≡ [] }
    ensures { result ≡ list_any (is_match (atom_value atom.now)) packages.now }
{
    for package in packages {
        if atom.matches(&package.facts, nobody) {
            return true;
        }
    }
    false
}

fn is_matched(pkg: &Pkg, atoms: &[Atom], nobody: &Flags) -> bool
    requires { nobody.now ≡ [] }
    ensures { result ≡ is_matched (map atom_value atoms.now) pkg.now }
{
    for atom in atoms {
        if atom.matches(&pkg.facts, nobody) {
            return true;
        }
    }
    false
}

fn first_unmatched<'a>(atoms: &'a [Atom], packages: &[Pkg], nobody: &Flags) -> Option<&'a Atom>
    requires { nobody.now ≡ [] }
    ensures { option_map (λ a. atom_value a.now) result ≡
        first_unmatched (map atom_value atoms.now) packages.now }
{
    for atom in atoms {
        if !matches_any(atom, packages, nobody) {
            return Some(atom);
        }
    }
    None
}

fn matched<'a>(
    alloc: Global,
    atoms: &[Atom],
    packages: &'a [Pkg],
    nobody: &Flags,
) -> Result<Vec<&'a Pkg>, AllocError>
    requires { nobody.now ≡ [] }
    ensures { IfOk result (λ v. map (λ p. p.now) v.items ≡
        matched (map atom_value atoms.now) packages.now) }
{
    let mut some = Vec::new(alloc);
    for package in packages {
        if is_matched(package, atoms, nobody) {
            some.push(package)?;
        }
    }
    Ok(some)
}

/// The plan in which just what the atoms match goes, as a text.
fn text_of(alloc: Global, installed: &[Pkg], atoms: &[Atom]) -> Result<Plan, NotUnmerged>
    requires { AreApart installed.now }
    ensures text { IfOk result (λ text.
        IsUnmergeOf installed.now (map atom_value atoms.now) (plan_value text)) }
    ensures fault { IfErr result (λ e. (offered : List Package) →
        BarsUnmerge installed.now offered (map atom_value atoms.now) e) }
{
    let nobody = Flags::new(alloc);
    if let Some(atom) = first_unmatched(atoms, installed, &nobody) {
        return Err(NotUnmerged::NoCandidate {
            atom: atom.try_clone()?,
            reasons: Vec::new(alloc),
        });
    }
    let going = matched(alloc, atoms, installed, &nobody)?;
    Ok(unmerge_plan(alloc, &going)?)
}

/// What it is called that the plan isn't accepted. It has no addition that could be refused.
fn of_unaccepted(fault: NotAccepted) -> NotUnmerged
    requires { IsOfNoAddition fault }
    ensures { IsToldOf fault result }
{
    match fault {
        NotAccepted::Unlinked(_) => unreachable!(),
        NotAccepted::Refused(refused) => NotUnmerged::Refused(refused),
        NotAccepted::Memory => NotUnmerged::Memory,
    }
}

/// The accepted plan in which just what the atoms match of the installed packages goes.
pub(crate) fn unmerged(
    alloc: Global,
    installed: &[Pkg],
    offered: &[Pkg],
    atoms: &[Atom],
) -> Result<Chosen, NotUnmerged>
    requires { AreApart installed.now }
    ensures chosen { IfOk result
        (IsUnmerged installed.now offered.now (map atom_value atoms.now)) }
    ensures fault { IfErr result
        (BarsUnmerge installed.now offered.now (map atom_value atoms.now)) }
{
    let text = text_of(alloc, installed, atoms)?;
    match accept(alloc, installed, offered, &text) {
        Ok(plan) => Ok(Chosen { text, plan }),
        Err(fault) => Err(of_unaccepted(fault)),
    }
}
