ghost use Rattle.std.specs.Prelude.{◌≡◌, IfErr, IfOk, List};
ghost use Rattle.dep_atom.specs.Values.{atom_value};
ghost use Rattle.pkg_state.specs.Package.{Package};
ghost use Rattle.plan_text.specs.Plans.{GroupValue, plan_value};
ghost use Rattle.plan_text.specs.Texts.{IsPlan};
ghost use Rattle.plan_model.specs.Accepting.{Breaks, IsGood};
ghost use Rattle.emerge_find.specs.Filing.{IsOfLink, IsUnfiled, IsUnoffered};
ghost use Rattle.emerge_find.specs.Lacking.{exact_atom};

use crate::unfiled::Unfiled;
use dep_atom::{Atom, Block, Op, PackageId, SlotPart};
use emerge_choose::{NotTaken, reasons_of};
use pkg_state::Pkg;
use plan_lives as lives;
use plan_model::{LinkFault, NotAccepted, accept};
use plan_text::Plan;
use std::alloc::{AllocError, Global};

/// The atom that matches just this version of the package.
fn exact_atom(alloc: Global, id: PackageId) -> Atom
    ensures { atom_value result ≡ exact_atom id }
{
    let PackageId { name, version } = id;
    Atom {
        block: Block::No,
        op: Op::Equal,
        name,
        version: Some(version),
        star: false,
        slot: SlotPart::Free,
        uses: Vec::new(alloc),
    }
}

/// What is told of a package that isn't offered: the atom of just this version, and the candidates
/// of its name.
fn unoffered(
    alloc: Global,
    id: PackageId,
    offered: &[Pkg],
    hidden: &[NotTaken],
) -> Result<Unfiled, AllocError>
    ensures { IfOk result (IsUnoffered offered.now hidden.now id) }
{
    let reasons = reasons_of(alloc, &id.name, offered, hidden)?;
    let atom = exact_atom(alloc, id);
    Ok(Unfiled::NoCandidate { atom, reasons })
}

/// What the fault of an addition is called.
fn of_link(
    alloc: Global,
    fault: LinkFault,
    offered: &[Pkg],
    hidden: &[NotTaken],
) -> Result<Unfiled, AllocError>
    ensures { IfOk result (IsOfLink offered.now hidden.now fault) }
{
    match fault {
        LinkFault::NoCandidate { package, .. } => unoffered(alloc, package, offered, hidden),
        LinkFault::BadFlag { .. } => Ok(Unfiled::BadFlag),
        LinkFault::Memory => Ok(Unfiled::Memory),
    }
}

/// What it is called that the plan of a file isn't accepted.
fn of_unaccepted(
    alloc: Global,
    fault: NotAccepted,
    offered: &[Pkg],
    hidden: &[NotTaken],
) -> Result<Unfiled, AllocError>
    ensures { IfOk result (λ e. (installed : List Package) (groups : List GroupValue) →
        Breaks installed offered.now groups fault →
        IsUnfiled installed offered.now hidden.now groups e) }
{
    match fault {
        NotAccepted::Unlinked(fault) => of_link(alloc, fault, offered, hidden),
        NotAccepted::Refused(refused) => Ok(Unfiled::Refused(refused)),
        NotAccepted::Memory => Ok(Unfiled::Memory),
    }
}

/// The plan that the text stands for, checked over the packages that are installed.
pub(crate) fn judged(
    alloc: Global,
    installed: &[Pkg],
    offered: &[Pkg],
    hidden: &[NotTaken],
    text: &Plan,
) -> Result<lives::Plan, Unfiled>
    requires { IsPlan (plan_value text.now) }
    ensures good { IfOk result (IsGood installed.now offered.now (plan_value text.now)) }
    ensures fault { IfErr result
        (IsUnfiled installed.now offered.now hidden.now (plan_value text.now)) }
{
    match accept(alloc, installed, offered, text) {
        Ok(plan) => Ok(plan),
        Err(fault) => Err(of_unaccepted(alloc, fault, offered, hidden)?),
    }
}
