ghost use Rattle.std.specs.Prelude.{◌≡◌, IfErr, IfOk, IsErrAnd, IsTrue, List, Some, map, true, ℕ};
ghost use Rattle.dep_atom.specs.Values.{atom_value};
ghost use Rattle.file_tree.specs.Disk.{CountsFault};
ghost use Rattle.vdb_law.specs.Fields.{text_of};
ghost use Rattle.world_text.specs.World.{IsFaulty};
ghost use Rattle.world_text.specs.declared.world.TheConstants.{WORLD};
ghost use Rattle.emerge_find.specs.Ends.{IsDeviceFailure};
ghost use Rattle.emerge_find.specs.Worlds.{AreWanted, HasWorld, HoldsWorld, IsNoWorld, MissesWorld};
ghost use Rattle.emerge_find.specs.Worlds.{without_world};

use crate::ends::NoPlan;
use crate::source::bytes_of;
use dep_atom::Atom;
use file_tree::{Object, Path, Tree, TreeFault};
use std::alloc::{AllocError, Global};
use world_text::{WORLD, WorldFault, read_world};

/// Why the world file says nothing.
#[derive(Debug, Drop)]
pub(crate) enum NoWorld {
    /// This line isn't in form. A file that is missing is bad at line 0, one that isn't UTF-8 at
    /// line 1.
    Line(u32),
    Memory,
}

/// What a fault of the file's text is called.
fn of_text(fault: WorldFault) -> NoWorld
    ensures { (text : List ℕ) → IsFaulty text fault → IsNoWorld (Some text) result }
{
    match fault {
        WorldFault::NotUtf8 => NoWorld::Line(1),
        WorldFault::Atom { line } => NoWorld::Line(line),
        WorldFault::Memory => NoWorld::Memory,
    }
}

/// The atoms of a world file.
fn world_of(alloc: Global, object: Option<Object>) -> Result<Vec<Atom>, NoWorld>
    ensures found { IfOk result (λ v. HasWorld (text_of object) v.items) }
    ensures fault { IfErr result (IsNoWorld (text_of object)) }
{
    let Some(bytes) = bytes_of(object) else {
        return Err(NoWorld::Line(0));
    };
    match read_world(alloc, &bytes) {
        Ok(atoms) => Ok(atoms),
        Err(fault) => Err(of_text(fault)),
    }
}

/// What it is called that the world file at the path says nothing.
fn without_world(path: Path, fault: NoWorld) -> NoPlan
    ensures { result ≡ without_world path fault }
{
    match fault {
        NoWorld::Line(line) => NoPlan::Text { path, line },
        NoWorld::Memory => NoPlan::Tree(TreeFault::Memory),
    }
}

/// The place of the world file, as a path.
#[tactic(auto, unfolding(file_tree::specs::Paths::is_path))]
fn world_path(alloc: Global) -> Result<Path, AllocError>
    ensures { IfOk result (λ path. path ≡ WORLD.now) }
{
    Path::of(alloc, WORLD)
}

/// The atoms of the tree's world file.
fn read_atoms<T: Tree>(alloc: Global, tree: &mut T) -> Result<Vec<Atom>, NoPlan>
    ensures found { IsTrue T.tells →
        IfOk result (λ v. HoldsWorld (T.story tree.old).now.holds v.items) }
    ensures refused { IsTrue T.tells → IfErr result (MissesWorld (T.story tree.old).now.holds) }
    ensures same { IsTrue T.tells → T.story tree.new ≡ T.story tree.old }
    ensures faults { CountsFault (IsErrAnd result IsDeviceFailure) (T.faults tree.old)
        (T.faults tree.new) }
{
    let path = world_path(alloc)?;
    let object = tree.read(&path)?;
    match world_of(alloc, object) {
        Ok(atoms) => Ok(atoms),
        Err(fault) => Err(without_world(path, fault)),
    }
}

/// The atoms, and behind them those of the tree's world file.
pub(crate) fn with_world<T: Tree>(
    alloc: Global,
    tree: &mut T,
    mut wanted: Vec<Atom>,
) -> Result<Vec<Atom>, NoPlan>
    ensures found { IsTrue T.tells → IfOk result (λ v.
        AreWanted (T.story tree.old).now.holds wanted.items true (map atom_value v.items)) }
    ensures refused { IsTrue T.tells → IfErr result (MissesWorld (T.story tree.old).now.holds) }
    ensures same { IsTrue T.tells → T.story tree.new ≡ T.story tree.old }
    ensures faults { CountsFault (IsErrAnd result IsDeviceFailure) (T.faults tree.old)
        (T.faults tree.new) }
{
    let mut more = read_atoms(alloc, tree)?;
    wanted.append(&mut more)?;
    Ok(wanted)
}
