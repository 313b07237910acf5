ghost use Rattle.std.specs.Prelude.{◌≡◌, IfErr, IfOk, OnOk};
ghost use Rattle.file_tree.specs.Disk.{with_path};
ghost use Rattle.tree_mem.specs.Image.{AllTouched, IsImageFault, chosen};
ghost use Rattle.tree_mem.specs.Items.{IsRising, held};
ghost use Rattle.tree_mem.specs.Record.{is_among};

use crate::fault::ImageFault;
use crate::items;
use file_tree::{Object, Path};
use std::alloc::{AllocError, Global};
use std::collections::BTreeSet;

/// A copy of all items.
fn copied(alloc: Global, items: &[(Path, Object)]) -> Result<Vec<(Path, Object)>, AllocError>
    ensures { IfOk result (λ v. v.items ≡ items.now) }
{
    let mut copies = Vec::new(alloc);
    for (path, object) in items {
        copies.push((path.try_clone()?, object.try_clone()?))?;
    }
    Ok(copies)
}

/// Makes the path hold what is wished.
fn grant(
    items: &mut Vec<(Path, Object)>,
    path: &Path,
    wish: &Option<Object>,
) -> Result<(), AllocError>
    requires rising { IsRising items.old.items }
    ensures rising { OnOk result (IsRising items.new.items) }
    ensures held { OnOk result (held items.new.items ≡
        with_path (held items.old.items) path.now wish.now) }
{
    match wish {
        Some(object) => {
            items.reserve(1)?;
            items::store(items, path.try_clone()?, object.try_clone()?);
        }
        None => {
            items::clear(items, path);
        }
    }
    Ok(())
}

/// Grants each wish in turn.
fn grant_all(
    items: &mut Vec<(Path, Object)>,
    choice: &[(Path, Option<Object>)],
) -> Result<(), AllocError>
    requires rising { IsRising items.old.items }
    ensures rising { OnOk result (IsRising items.new.items) }
    ensures held { OnOk result (held items.new.items ≡ chosen choice.now (held items.old.items)) }
{
    for (path, wish) in choice {
        grant(items, path, wish)?;
    }
    Ok(())
}

/// Looks for a path of the choice that is not touched.
fn check(touched: &BTreeSet<Path>, choice: &[(Path, Option<Object>)]) -> Result<(), ImageFault>
    ensures ok { OnOk result (AllTouched (is_among touched.now.keys) choice.now) }
    ensures fault { IfErr result (IsImageFault (is_among touched.now.keys) choice.now) }
{
    for (path, _) in choice {
        if !touched.contains(path) {
            return Err(ImageFault::NotTouched {
                path: path.try_clone()?,
            });
        }
    }
    Ok(())
}

/// The items after a crash that grants the choice, each path of which is touched.
pub fn image(
    alloc: Global,
    items: &[(Path, Object)],
    touched: &BTreeSet<Path>,
    choice: &[(Path, Option<Object>)],
) -> Result<Vec<(Path, Object)>, ImageFault>
    requires rising { IsRising items.now }
    ensures rising { IfOk result (λ v. IsRising v.items) }
    ensures held { IfOk result (λ v. held v.items ≡ chosen choice.now (held items.now)) }
    ensures touched { OnOk result (AllTouched (is_among touched.now.keys) choice.now) }
    ensures fault { IfErr result (IsImageFault (is_among touched.now.keys) choice.now) }
{
    check(touched, choice)?;
    let mut items = copied(alloc, items)?;
    grant_all(&mut items, choice)?;
    Ok(items)
}
