ghost use Rattle.std.specs.Prelude.{◌≡◌, ◌<◌, ◌++◌, ◌∷◌, ℕ, List, [], true, IfOk, OnErr, OnOk};
ghost use Rattle.std.specs.Prelude.{bytes_eq, vec_capacity, vec_len, if◌then◌else◌};
ghost use Rattle.tree_mem.specs.Items.{IsRising, IsRising-prop};
ghost use Rattle.tree_mem.specs.Record.{is_among};

use crate::fault::ImageFault;
use crate::record::Change;
use crate::{choosing, items};
use file_tree::{Look, Object, Path};
use std::alloc::{AllocError, Global};
use std::collections::BTreeSet;
use std::mem;

/// A disk in memory: objects in byte order of their paths, the paths that were touched since the
/// last sync, and a record of what undoes each change.
#[derive(Drop)]
pub struct MemDisk {
    alloc: Global,
    objects: Vec<(Path, Object)>,
    touched: BTreeSet<Path>,
    changes: Vec<Change>,
    ghost rising: { IsRising objects.items } by { IsRising-prop objects.items },
}

/// Notes a change, where there is room for it.
fn note(changes: &mut Vec<Change>, change: Change)
    requires room { vec_len changes.old < vec_capacity changes.old }
    ensures { changes.new.items ≡ changes.old.items ++ change ∷ [] }
{
    changes.push(change).unwrap()
}

/// Makes room for one more change, and touches the path. Tells the path, and whether it was touched
/// before.
fn begin_change(
    changes: &mut Vec<Change>,
    touched: &mut BTreeSet<Path>,
    path: &Path,
) -> Result<(Path, bool), AllocError>
    ensures room { OnOk result (vec_len changes.new < vec_capacity changes.new) }
    ensures same { changes.new.items ≡ changes.old.items }
    ensures path { IfOk result (λ told. told.0 ≡ path.now) }
    ensures was { IfOk result (λ told. told.1 ≡ is_among touched.old.keys path.now) }
    ensures touched { OnOk result ((q : List ℕ) → is_among touched.new.keys q ≡
        (if bytes_eq path.now q then true else is_among touched.old.keys q)) }
    ensures err { OnErr result (touched.new.keys ≡ touched.old.keys) }
{
    changes.reserve(1)?;
    let told = path.try_clone()?;
    let is_new = touched.insert(path.try_clone()?)?;
    Ok((told, !is_new))
}

impl MemDisk {
    ghost use Rattle.std.specs.Prelude.{◌≡◌, ℕ, List, None, Some, false, true, IfErr, IfOk, IsSome};
    ghost use Rattle.std.specs.Prelude.{OnErr, OnOk};
    ghost use Rattle.std.specs.Cmp.Lexicographic.{slice_cmp};
    ghost use Rattle.std.specs.List.Sorted.{IsStrictlySortedBy};
    ghost use Rattle.std.specs.Ordering.{nat_cmp};
    ghost use Rattle.file_tree.specs.Disk.{Lists, Looks, new_story, with_sync, with_touch};
    ghost use Rattle.file_tree.specs.Disk.{with_write};
    ghost use Rattle.tree_mem.specs.Items.{IsRising, held};
    ghost use Rattle.tree_mem.specs.Image.{AllTouched, IsImageFault, chosen};
    ghost use Rattle.tree_mem.specs.MemDisk.{disk_story};

    /// A disk that holds these objects, no path of which is touched.
    pub fn new(alloc: Global, objects: Vec<(Path, Object)>) -> MemDisk
        requires rising { IsRising objects.items }
        ensures { disk_story result ≡ new_story (held objects.items) }
    {
        MemDisk {
            alloc,
            objects,
            touched: BTreeSet::new(alloc),
            changes: Vec::new(alloc),
        }
    }

    pub fn alloc(&self) -> Global {
        self.alloc
    }

    /// All objects, in byte order of their paths.
    pub fn objects(&self) -> &[(Path, Object)]
        ensures rising { IsRising result.now }
        ensures held { (disk_story self.now).now.holds ≡ held result.now }
    {
        self.objects.as_slice()
    }

    /// The disk after a crash that grants the choice: no path is touched, and it has no past.
    pub fn image(&self, choice: &[(Path, Option<Object>)]) -> Result<MemDisk, ImageFault>
        ensures story { IfOk result (λ d. disk_story d ≡
            new_story (chosen choice.now (disk_story self.now).now.holds)) }
        ensures touched { OnOk result (AllTouched (disk_story self.now).now.touched choice.now) }
        ensures fault { IfErr result (IsImageFault (disk_story self.now).now.touched choice.now) }
    {
        let objects = choosing::image(self.alloc, self.objects.as_slice(), &self.touched, choice)?;
        Ok(MemDisk::new(self.alloc, objects))
    }

    /// What a look at the path finds.
    pub fn look(&self, path: &Path) -> Result<Look, AllocError>
        ensures { IfOk result (λ l. Looks (disk_story self.now).now.holds path.now l) }
    {
        items::look(self.alloc, self.objects.as_slice(), path)
    }

    /// A copy of what the path holds.
    pub fn read(&self, path: &Path) -> Result<Option<Object>, AllocError>
        ensures { IfOk result (λ o. o ≡ (disk_story self.now).now.holds path.now) }
    {
        match items::get(self.objects.as_slice(), path) {
            Some(object) => Ok(Some(object.try_clone()?)),
            None => Ok(None),
        }
    }

    /// The paths below this one that hold something, in byte order.
    pub fn list(&self, below: &Path) -> Result<Vec<Path>, AllocError>
        ensures answer { IfOk result (λ v.
            Lists (disk_story self.now).now.holds below.now v.items) }
        ensures rising { IfOk result (λ v. IsStrictlySortedBy (slice_cmp nat_cmp) v.items) }
    {
        items::list(self.alloc, self.objects.as_slice(), below)
    }

    /// Makes `to` hold a copy of what `from` holds, and touches it.
    pub fn copy(&mut self, from: &Path, to: &Path) -> Result<(), AllocError>
        ensures ok { OnOk result (disk_story self.new ≡
            with_write (disk_story self.old) to.now ((disk_story self.old).now.holds from.now)) }
        ensures err { OnErr result (disk_story self.new ≡ disk_story self.old) }
    {
        match self.read(from)? {
            Some(object) => self.store(to, object),
            None => self.clear(to),
        }
    }

    /// Makes the path hold the object, and touches it.
    pub fn store(&mut self, path: &Path, object: Object) -> Result<(), AllocError>
        ensures ok { OnOk result (disk_story self.new ≡
            with_write (disk_story self.old) path.now (Some object)) }
        ensures err { OnErr result (disk_story self.new ≡ disk_story self.old) }
    {
        self.objects.reserve(1)?;
        let kept = path.try_clone()?;
        let (path, was) = begin_change(&mut self.changes, &mut self.touched, path)?;
        let old = items::store(&mut self.objects, kept, object);
        note(&mut self.changes, Change::Wrote { path, old, was });
        Ok(())
    }

    /// Makes the path hold nothing, and touches it.
    pub fn clear(&mut self, path: &Path) -> Result<(), AllocError>
        ensures ok { OnOk result (disk_story self.new ≡
            with_write (disk_story self.old) path.now None) }
        ensures err { OnErr result (disk_story self.new ≡ disk_story self.old) }
    {
        let (path, was) = begin_change(&mut self.changes, &mut self.touched, path)?;
        let old = items::clear(&mut self.objects, &path);
        note(&mut self.changes, Change::Wrote { path, old, was });
        Ok(())
    }

    /// Touches the path, which holds what it held.
    pub fn touch(&mut self, path: &Path) -> Result<(), AllocError>
        ensures ok { OnOk result (disk_story self.new ≡ with_touch (disk_story self.old) path.now) }
        ensures err { OnErr result (disk_story self.new ≡ disk_story self.old) }
    {
        let (path, was) = begin_change(&mut self.changes, &mut self.touched, path)?;
        note(&mut self.changes, Change::Touched { path, was });
        Ok(())
    }

    /// Forgets which paths were touched.
    pub fn settle(&mut self) -> Result<(), AllocError>
        ensures ok { OnOk result (disk_story self.new ≡ with_sync (disk_story self.old)) }
        ensures err { OnErr result (disk_story self.new ≡ disk_story self.old) }
    {
        self.changes.reserve(1)?;
        let touched = mem::replace(&mut self.touched, BTreeSet::new(self.alloc));
        note(&mut self.changes, Change::Synced { touched });
        Ok(())
    }
}
