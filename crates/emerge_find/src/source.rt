ghost use Rattle.std.specs.Prelude.{◌≡◌, IfErr, IfOk, IsErrAnd, IsTrue, Some, map};
ghost use Rattle.std.specs.Option.{option_map};
ghost use Rattle.vdb_law.specs.Fields.{text_of};
ghost use Rattle.file_tree.specs.Disk.{CountsFault};
ghost use Rattle.plan_text.specs.Plans.{plan_value};
ghost use Rattle.plan_text.specs.Texts.{IsPlan, plan_text};
ghost use Rattle.emerge_find.specs.Ends.{IsDeviceFailure, unread};
ghost use Rattle.emerge_find.specs.Files.{IsRefusal};
ghost use Rattle.dep_atom.specs.Values.{atom_value};
ghost use Rattle.emerge_find.specs.Worlds.{AreWanted, MissesWanted};
ghost use Rattle.emerge_find.specs.Sources.{HasNoSource, IsFormed, IsSource};
ghost use Rattle.emerge_find.specs.declared.asked.Aim.TheVariants.{File};

use crate::asked::Aim;
use crate::ends::NoPlan;
use crate::world::with_world;
use dep_atom::Atom;
use emerge_choose::Wish;
use file_tree::{Kind, Object, Path, Tree, TreeFault};
use plan_text::{Plan, PlanTextFault};
use std::alloc::Global;

/// What a plan is made of.
#[derive(Drop)]
pub(crate) enum Source {
    /// What is wanted.
    Wished(Wish),
    /// The plan that stands in a file.
    Filed { path: Path, text: Plan },
    /// What these match is to go.
    Unmerged(Vec<Atom>),
}

/// What is aimed at: of a file the plan that stands in it.
pub(crate) fn source_of<T: Tree>(alloc: Global, tree: &mut T, aim: Aim) -> Result<Source, NoPlan>
    ensures found { IsTrue T.tells → IfOk result (IsSource (T.story tree.old).now.holds aim) }
    ensures form { IfOk result IsFormed }
    ensures refused { IsTrue T.tells → IfErr result
        (HasNoSource (T.story tree.old).now.holds aim) }
    ensures same { IsTrue T.tells → T.story tree.new ≡ T.story tree.old }
    ensures faults { CountsFault (IsErrAnd result IsDeviceFailure) (T.faults tree.old)
        (T.faults tree.new) }
{
    match aim {
        Aim::Atoms {
            wanted,
            world,
            update,
            limit,
            ..
        } => {
            let wanted = wanted_of(alloc, tree, wanted, world)?;
            Ok(Source::Wished(Wish {
                wanted,
                update,
                limit,
            }))
        }
        Aim::File { path } => read_plan(alloc, tree, path),
        Aim::Unmerge { atoms } => Ok(Source::Unmerged(atoms)),
    }
}

/// The atoms that are wanted: these, and behind them those of the world file where it counts.
fn wanted_of<T: Tree>(
    alloc: Global,
    tree: &mut T,
    atoms: Vec<Atom>,
    world: bool,
) -> Result<Vec<Atom>, NoPlan>
    ensures found { IsTrue T.tells → IfOk result (λ v.
        AreWanted (T.story tree.old).now.holds atoms.items world (map atom_value v.items)) }
    ensures refused { IsTrue T.tells →
        IfErr result (MissesWanted (T.story tree.old).now.holds world) }
    ensures same { IsTrue T.tells → T.story tree.new ≡ T.story tree.old }
    ensures faults { CountsFault (IsErrAnd result IsDeviceFailure) (T.faults tree.old)
        (T.faults tree.new) }
{
    if world {
        return with_world(alloc, tree, atoms);
    }
    Ok(atoms)
}

/// The plan that stands in the file at the path.
fn read_plan<T: Tree>(alloc: Global, tree: &mut T, path: Path) -> Result<Source, NoPlan>
    ensures found { IsTrue T.tells → IfOk result
        (IsSource (T.story tree.old).now.holds (File path)) }
    ensures form { IfOk result IsFormed }
    ensures refused { IsTrue T.tells → IfErr result
        (HasNoSource (T.story tree.old).now.holds (File path)) }
    ensures same { IsTrue T.tells → T.story tree.new ≡ T.story tree.old }
    ensures faults { CountsFault (IsErrAnd result IsDeviceFailure) (T.faults tree.old)
        (T.faults tree.new) }
{
    let object = tree.read(&path)?;
    match plan_of(alloc, object) {
        Ok(text) => Ok(Source::Filed { path, text }),
        Err(fault) => Err(unread(path, fault)),
    }
}

/// The plan that stands in a file. A file that is missing is bad at line 0.
fn plan_of(alloc: Global, object: Option<Object>) -> Result<Plan, PlanTextFault>
    ensures form { IfOk result (λ p. IsPlan (plan_value p)) }
    ensures text { IfOk result (λ p. text_of object ≡ Some (plan_text (plan_value p))) }
    ensures fault { IfErr result (IsRefusal (text_of object)) }
{
    match bytes_of(object) {
        Some(bytes) => parsed(alloc, &bytes),
        None => Err(PlanTextFault::Line { line: 0 }),
    }
}

/// The bytes of a file. A link in its place counts as missing.
pub(crate) fn bytes_of(object: Option<Object>) -> Option<Vec<u8>>
    ensures { option_map (λ v. v.items) result ≡ text_of object }
{
    match object {
        Some(Object { kind, bytes }) => match kind {
            Kind::Plain | Kind::Exec => Some(bytes),
            Kind::Link => None,
        },
        None => None,
    }
}

/// The bytes as the text of a plan.
fn parsed(alloc: Global, bytes: &[u8]) -> Result<Plan, PlanTextFault>
    ensures form { IfOk result (λ p. IsPlan (plan_value p)) }
    ensures text { IfOk result (λ p. bytes.now ≡ plan_text (plan_value p)) }
    ensures fault { IfErr result (IsRefusal (Some bytes.now)) }
{
    match config_text::text_of(bytes) {
        Ok(text) => Plan::parse(alloc, text),
        Err(line) => Err(PlanTextFault::Line { line }),
    }
}

/// What the fault of a plan's file is called.
fn unread(path: Path, fault: PlanTextFault) -> NoPlan
    ensures { result ≡ unread path fault }
{
    match fault {
        PlanTextFault::Number { line } => NoPlan::Text { path, line },
        PlanTextFault::NotBefore { line } => NoPlan::Text { path, line },
        PlanTextFault::Limit => NoPlan::Limit,
        PlanTextFault::Line { line } => NoPlan::Text { path, line },
        PlanTextFault::Memory => NoPlan::Tree(TreeFault::Memory),
    }
}
