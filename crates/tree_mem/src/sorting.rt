ghost use Rattle.std.specs.Prelude.{◌≡◌, Some, None, IfErr, IfOk, OnOk};
ghost use Rattle.basics.specs.Members.{AreDistinct};
ghost use Rattle.file_tree.specs.Disk.{with_path};
ghost use Rattle.tree_mem.specs.Fault.{IsFaultAt, IsMemFault};
ghost use Rattle.tree_mem.specs.Items.{IsRising, held, paths};

use crate::fault::MemFault;
use crate::items;
use file_tree::{Object, Path};
use std::alloc::Global;

/// Puts an item at its place, if no item has its path.
fn add(items: &mut Vec<(Path, Object)>, path: Path, object: Object) -> Result<(), MemFault>
    requires rising { IsRising items.old.items }
    ensures rising { OnOk result (IsRising items.new.items) }
    ensures fresh { OnOk result (held items.old.items path ≡ None) }
    ensures held { OnOk result (held items.new.items ≡
        with_path (held items.old.items) path (Some object)) }
    ensures fault { IfErr result (IsFaultAt items.old.items path) }
{
    match items::find(items.as_slice(), path.text()) {
        Ok(_) => Err(MemFault::Twice { path }),
        Err(at) => {
            items.insert(at, (path, object))?;
            Ok(())
        }
    }
}

/// The items in byte order of their paths.
pub fn sorted(alloc: Global, objects: Vec<(Path, Object)>) -> Result<Vec<(Path, Object)>, MemFault>
    ensures rising { IfOk result (λ v. IsRising v.items) }
    ensures held { IfOk result (λ v. held v.items ≡ held objects.items) }
    ensures distinct { IfOk result (λ v. AreDistinct (paths objects.items)) }
    ensures fault { IfErr result (IsMemFault (paths objects.items)) }
{
    let mut sorted = Vec::with_capacity(alloc, objects.len())?;
    for (path, object) in objects {
        add(&mut sorted, path, object)?;
    }
    Ok(sorted)
}
