ghost use Rattle.std.specs.Prelude.{◌≡◌, ◌≤◌, [], None, false, IfOk};
ghost use Rattle.std.specs.Cmp.Lexicographic.{slice_cmp};
ghost use Rattle.std.specs.List.Sorted.{IsStrictlySortedBy};
ghost use Rattle.std.specs.Ordering.{nat_cmp};
ghost use Rattle.file_tree.specs.Disk.{Rose};

use crate::changes::Changes;
use crate::faults::{Faults, is_memory};
use crate::folder::Folder;
use crate::open::{OpenFault, open_locked};
use crate::progress::Progress;
use crate::watch::Watch;
use crate::writing::{place, put, remove};
use file_tree::{Failed, Look, Object, Path, Tree, TreeFault};
use std::alloc::{AllocError, Global};
use std::collections::BTreeSet;
use std::fs::File;
use std::io;
use std::thread::Threads;

/// A tree whose objects are the files and links below a folder of the host.
///
/// It holds the folder locked while it is there. Objects get mode 0644, or 0755 where they can be run,
/// and folders 0755. What is written gets its name only when it is whole, and what is placed only when
/// it is as durable as its stage: a placed file is the stage itself under another name. A path with a
/// link or a file above it is a fault of each call, and so are devices, pipes, sockets and names that
/// no path has where `read` or `list` meets them.
#[derive(Drop)]
pub struct HostTree<R: Threads> {
    threads: R,
    folder: Folder,
    changes: Changes,
    faults: Faults,
    watch: Watch,
    _lock: File,
}

impl<R: Threads> HostTree<R> {
    /// The tree below this folder, which is locked from now on. A sync starts threads by the handle.
    /// What is done to the tree is told as the run's progress; its plan comes from this file, if from
    /// any.
    pub fn open(
        rt: HostRuntime,
        threads: R,
        name: &str,
        progress: Progress,
        plan: Option<&str>,
    ) -> Result<HostTree<R>, OpenFault>
    where
        R: Drop,
    {
        let lock = open_locked(&rt, name)?;
        let folder = Folder::new(rt, name, true).map_err(io::Error::from)?;
        let changes = Changes::new(rt.alloc());
        let watch = Watch::new(rt.alloc(), progress, plan).map_err(io::Error::from)?;
        Ok(HostTree {
            threads,
            folder,
            changes,
            faults: Faults::new(progress),
            watch,
            _lock: lock,
        })
    }

    /// Tells and counts a failure.
    fn fail(&mut self, call: &str, path: &str, error: io::Error) -> Failed
        ensures count { self.old.faults.count ≤ self.new.faults.count }
        ensures rose { Rose self.old.faults.count self.new.faults.count }
    {
        self.faults.tell(self.folder.rt(), call, path, error);
        Failed
    }

    /// Tells and counts a failure, unless it is want of memory.
    fn fault(&mut self, call: &str, path: &str, error: io::Error) -> TreeFault
        ensures count { self.old.faults.count ≤ self.new.faults.count }
        ensures rose { result ≡ TreeFault.Failed →
            Rose self.old.faults.count self.new.faults.count }
    {
        if is_memory(&error) {
            return TreeFault::Memory;
        }
        self.faults.tell(self.folder.rt(), call, path, error);
        TreeFault::Failed
    }
}

impl<R: Threads> Tree for HostTree<R> {
    ghost tells = { false };

    ghost story = { λ _.
        record { past = []; now = record { holds = λ _. None; touched = λ _. false } } };

    ghost faults = { λ t. t.faults.count };

    fn look(&mut self, path: &Path) -> Result<Look, Failed> {
        match self.folder.look(path.text()) {
            Ok(look) => Ok(look),
            Err(error) => Err(self.fail("look", path.text(), error)),
        }
    }

    fn read(&mut self, path: &Path) -> Result<Option<Object>, TreeFault> {
        match self.folder.read(path.text()) {
            Ok(object) => {
                self.watch.read(path.text(), object.as_ref());
                Ok(object)
            }
            Err(error) => Err(self.fault("read", path.text(), error)),
        }
    }

    fn list(&mut self, below: &Path) -> Result<Vec<Path>, TreeFault> {
        match self.folder.list(below.text()) {
            Ok(paths) => Ok(in_order(self.folder.alloc(), paths)?),
            Err(error) => Err(self.fault("list", below.text(), error)),
        }
    }

    fn put(&mut self, path: &Path, object: &Object) -> Result<(), TreeFault> {
        match put(
            &self.threads,
            &self.folder,
            &mut self.changes,
            path.text(),
            object,
        ) {
            Ok(()) => {
                self.watch.put(path.text(), object);
                Ok(())
            }
            Err(error) => Err(self.fault("put", path.text(), error)),
        }
    }

    fn place(&mut self, from: &Path, to: &Path) -> Result<(), Failed> {
        match place(&self.folder, &mut self.changes, from.text(), to.text()) {
            Ok(()) => {
                self.watch.place(from.text());
                Ok(())
            }
            Err(error) => Err(self.fail("place", to.text(), error)),
        }
    }

    fn remove(&mut self, path: &Path) -> Result<(), Failed> {
        match remove(&self.folder, &mut self.changes, path.text()) {
            Ok(()) => {
                self.watch.remove(path.text());
                Ok(())
            }
            Err(error) => Err(self.fail("remove", path.text(), error)),
        }
    }

    fn sync(&mut self) -> Result<(), Failed> {
        match self.changes.sync(&self.threads, &self.folder) {
            Ok(()) => Ok(()),
            Err(error) => Err(self.fail("sync", "the tree", error)),
        }
    }
}

/// The paths of a set, in byte order.
pub fn in_order(alloc: Global, paths: BTreeSet<Path>) -> Result<Vec<Path>, AllocError>
    ensures { IfOk result (λ v. IsStrictlySortedBy (slice_cmp nat_cmp) v.items) }
{
    paths.into_iter().collect(alloc)
}
