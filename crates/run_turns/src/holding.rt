ghost use Rattle.std.specs.Prelude.{◌≡◌, ◌||◌, ℕ, List, IfOk, IsErrOf, IsTrue, OnOk};
ghost use Rattle.std.specs.Prelude.{string_bytes};
ghost use Rattle.std.specs.BTreeSet.{contains_text};
ghost use Rattle.std.specs.List.{list_any};
ghost use Rattle.file_tree.specs.Disk.{CountsFault};
ghost use Rattle.run_files.specs.Keys.{folder_of};
ghost use Rattle.run_turns.specs.Held.{HoldOwned, holdings_of};
ghost use Rattle.run_turns.specs.Plans.{names_folder};

use crate::held::Held;
use file_tree::{Tree, TreeFault};
use pkg_state::Pkg;
use plan_lives::{Group, Removal};
use std::alloc::{AllocError, Global};
use std::collections::BTreeSet;
use vdb_record::Installed;
use vdb_text::paths_of;

/// What the installed packages own that some group of the plan removes. The tree is only read.
pub fn held_paths<T: Tree>(
    alloc: Global,
    tree: &mut T,
    installed: &[Installed],
    plan: &[Group],
) -> Result<Held, TreeFault>
    ensures held { IsTrue T.tells → IfOk result (λ h. HoldOwned (T.story tree.old).now.holds
        installed.now plan.now (holdings_of h)) }
    ensures same { IsTrue T.tells → T.story tree.new ≡ T.story tree.old }
    ensures faults { CountsFault (IsErrOf result TreeFault.Failed) (T.faults tree.old)
        (T.faults tree.new) }
{
    let named = named_folders(alloc, plan)?;
    let mut held = Held::new(alloc);
    for package in installed {
        let folder = folder_name(alloc, &package.pkg)?;
        if named.contains(folder.as_str()) {
            let paths = paths_of(alloc, tree, package)?;
            held.hold(folder, paths)?;
        }
    }
    Ok(held)
}

/// The folders of the packages that some removal of the plan names.
fn named_folders(alloc: Global, plan: &[Group]) -> Result<BTreeSet<String>, AllocError>
    ensures { IfOk result (λ named. (q : List ℕ) →
        contains_text named q ≡ list_any (λ g. names_folder g.removals q) plan.now) }
{
    let mut named = BTreeSet::new(alloc);
    for group in plan {
        add_folders(alloc, &group.removals, &mut named)?;
    }
    Ok(named)
}

fn add_folders(
    alloc: Global,
    removals: &[Removal],
    named: &mut BTreeSet<String>,
) -> Result<(), AllocError>
    ensures { OnOk result ((q : List ℕ) → contains_text named.new q ≡
        contains_text named.old q || names_folder removals.now q) }
{
    for removal in removals {
        named.insert(removal.id.print(alloc)?)?;
    }
    Ok(())
}

/// The name of a package's own folder.
fn folder_name(alloc: Global, pkg: &Pkg) -> Result<String, AllocError>
    ensures { IfOk result (λ t. string_bytes t ≡ folder_of pkg.now) }
{
    pkg.facts.id.print(alloc)
}
