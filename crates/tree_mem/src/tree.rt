ghost use Rattle.std.specs.Prelude.{◌≡◌};

use crate::calls::Calls;
use crate::disk::MemDisk;
use crate::fault::{ImageFault, MemFault};
use crate::sorting;
use file_tree::{Failed, Look, Object, Path, Tree, TreeFault};
use std::alloc::{AllocError, Global};

/// A tree in memory, which keeps a record of all its calls.
#[derive(Drop)]
pub struct MemTree {
    disk: MemDisk,
    calls: Calls,
    syncs: u64,
}

impl MemTree {
    ghost use Rattle.std.specs.Prelude.{◌≡◌, ◌||◌, ◌==◌, ◌↔◌, ◌⊎◌, ◌≤◌, ℕ, List, [], Some, false};
    ghost use Rattle.std.specs.Prelude.{nat_le, Contains, IfErr, IfOk, OnErr, OnOk};
    ghost use Rattle.std.specs.Cmp.Lexicographic.{slice_cmp};
    ghost use Rattle.std.specs.List.Sorted.{IsStrictlySortedBy};
    ghost use Rattle.std.specs.Ordering.{nat_cmp};
    ghost use Rattle.file_tree.specs.ObjectValue.{ObjectValue};
    ghost use Rattle.tree_mem.specs.Items.{paths};
    ghost use Rattle.basics.specs.Members.{AreDistinct};
    ghost use Rattle.file_tree.specs.Disk.{IsImage, IsUntouched, Rose};
    ghost use Rattle.tree_mem.specs.Fault.{IsMemFault};
    ghost use Rattle.tree_mem.specs.Image.{AllTouched, IsImageFault, chosen};
    ghost use Rattle.tree_mem.specs.MemTree.{IsRefusedBy, IsTouchedBy, SameFailures, mem_counts};
    ghost use Rattle.tree_mem.specs.MemTree.{mem_fails, mem_holds, mem_story, mem_syncs};

    /// A tree that holds these objects. Nothing is touched, no call was made, and none is to fail.
    pub fn new(alloc: Global, objects: Vec<(Path, Object)>) -> Result<MemTree, MemFault>
        ensures held { IfOk result (λ t. (p : List ℕ) (x : ObjectValue) →
            Contains objects.items (p, x) ↔ (mem_holds t p ≡ Some x)) }
        ensures distinct { IfOk result (λ t. AreDistinct (paths objects.items)) }
        ensures untouched { IfOk result (λ t. IsUntouched (mem_story t).now) }
        ensures past { IfOk result (λ t. (mem_story t).past ≡ []) }
        ensures counts { IfOk result (λ t. mem_counts t ≡
            record { calls = 0; faults = 0; refused = 0 }) }
        ensures syncs { IfOk result (λ t. mem_syncs t ≡ 0) }
        ensures fails { IfOk result (λ t. (n : ℕ) → mem_fails t n ≡ false) }
        ensures fault { IfErr result (IsMemFault (paths objects.items)) }
    {
        let objects = sorting::sorted(alloc, objects)?;
        Ok(MemTree {
            disk: MemDisk::new(alloc, objects),
            calls: Calls::new(alloc),
            syncs: 0,
        })
    }

    /// Makes the call of this number, counted from 1, fail.
    pub fn fail_at(&mut self, call: u64) -> Result<(), AllocError>
        ensures ok { OnOk result ((n : ℕ) →
            mem_fails self.new n ≡ (n == call) || mem_fails self.old n) }
        ensures err { OnErr result (SameFailures self.old self.new) }
        ensures story { mem_story self.new ≡ mem_story self.old }
        ensures counts { mem_counts self.new ≡ mem_counts self.old }
        ensures syncs { mem_syncs self.new ≡ mem_syncs self.old }
    {
        self.calls.fail_at(call)
    }

    /// Makes the call of this number and all later ones fail.
    pub fn stop_at(&mut self, call: u64)
        ensures fails { (n : ℕ) → mem_fails self.new n ≡ nat_le call n || mem_fails self.old n }
        ensures story { mem_story self.new ≡ mem_story self.old }
        ensures counts { mem_counts self.new ≡ mem_counts self.old }
        ensures syncs { mem_syncs self.new ≡ mem_syncs self.old }
    {
        self.calls.stop_at(call);
    }

    /// How many calls were made.
    pub fn calls(&self) -> u64
        ensures { result ≡ (mem_counts self.now).calls }
    {
        self.calls.made()
    }

    /// How many calls failed for a refused growth.
    pub fn refused(&self) -> u64
        ensures { result ≡ (mem_counts self.now).refused }
    {
        self.calls.refused()
    }

    /// How many syncs answered Ok.
    pub fn syncs(&self) -> u64
        ensures { result ≡ mem_syncs self.now }
    {
        self.syncs
    }

    /// All objects, in byte order of their paths.
    pub fn objects(&self) -> &[(Path, Object)]
        ensures rising { IsStrictlySortedBy (slice_cmp nat_cmp) (paths result.now) }
        ensures held { (p : List ℕ) (x : ObjectValue) → Contains result.now (p, x) ↔
            (mem_holds self.now p ≡ Some x) }
    {
        self.disk.objects()
    }

    /// A tree as a crash now may leave it. Each path of the choice, which has to be touched, holds
    /// what the choice says (of a path that it names twice, what it says last), and each other path
    /// what it reads as. As in a tree made by `new`, nothing is touched and no call was made.
    pub fn image(&self, choice: &[(Path, Option<Object>)]) -> Result<MemTree, ImageFault>
        ensures held { IfOk result (λ t. mem_holds t ≡ chosen choice.now (mem_holds self.now)) }
        ensures image { IfOk result (λ t. IsImage (mem_story self.now).now (mem_holds t)) }
        ensures touched { OnOk result (AllTouched (mem_story self.now).now.touched choice.now) }
        ensures untouched { IfOk result (λ t. IsUntouched (mem_story t).now) }
        ensures past { IfOk result (λ t. (mem_story t).past ≡ []) }
        ensures counts { IfOk result (λ t. mem_counts t ≡
            record { calls = 0; faults = 0; refused = 0 }) }
        ensures syncs { IfOk result (λ t. mem_syncs t ≡ 0) }
        ensures fails { IfOk result (λ t. (n : ℕ) → mem_fails t n ≡ false) }
        ensures fault { IfErr result (IsImageFault (mem_story self.now).now.touched choice.now) }
    {
        let disk = self.disk.image(choice)?;
        let calls = Calls::new(self.disk.alloc());
        Ok(MemTree {
            disk,
            calls,
            syncs: 0,
        })
    }

    /// A call that was to change the path fails: the path is touched, where memory allows.
    fn fail_touching(&mut self, path: &Path) -> Failed
        ensures done { (IsTouchedBy self.old path.now self.new) ⊎ (IsRefusedBy self.old self.new) }
        ensures grows { self.old.calls.faults ≤ self.new.calls.faults }
        ensures rose { Rose self.old.calls.faults self.new.calls.faults }
        ensures syncs { mem_syncs self.new ≡ mem_syncs self.old }
    {
        match self.disk.touch(path) {
            Ok(()) => self.calls.fail(),
            Err(_) => self.calls.refuse(),
        }
        Failed
    }
}

impl Tree for MemTree {
    ghost use Rattle.std.specs.Prelude.{◌≡◌, ℕ, Some, None, true, is_err, is_ok, IfOk, IsErr};
    ghost use Rattle.std.specs.Prelude.{IsErrOf, IsSome, IsTrue, OnErr, OnOk};
    ghost use Rattle.std.specs.Cmp.Lexicographic.{slice_cmp};
    ghost use Rattle.std.specs.List.Sorted.{IsStrictlySortedBy};
    ghost use Rattle.std.specs.Ordering.{nat_cmp};
    ghost use Rattle.file_tree.specs.Disk.{CountsFault, Lists, Looks, Moves, Syncs, with_sync};
    ghost use Rattle.file_tree.specs.Disk.{with_write};
    ghost use Rattle.tree_mem.specs.MemTree.{CountsCall, CountsListed, CountsOk, FailsAt};
    ghost use Rattle.tree_mem.specs.MemTree.{CountsSync, SameFailures, fault_count, mem_holds};
    ghost use Rattle.tree_mem.specs.MemTree.{mem_story, mem_syncs, next_fails};

    ghost tells = { true };

    ghost story = { mem_story };

    ghost faults = { fault_count };

    fn look(&mut self, path: &Path) -> Result<Look, Failed>
        ensures answer { IfOk result (λ l. Looks (mem_holds self.old) path.now l) }
        ensures same { mem_story self.new ≡ mem_story self.old }
        ensures listed { IsTrue (next_fails self.old) → IsErr result }
        ensures counts { CountsCall (is_err result) self.old self.new }
        ensures plan { SameFailures self.old self.new }
        ensures syncs { mem_syncs self.new ≡ mem_syncs self.old }
        ensures faults { CountsFault (IsErr result) (fault_count self.old) (fault_count self.new) }
    {
        self.calls.enter()?;
        match self.disk.look(path) {
            Ok(look) => Ok(look),
            Err(_) => {
                self.calls.refuse();
                Err(Failed)
            }
        }
    }

    fn read(&mut self, path: &Path) -> Result<Option<Object>, TreeFault>
        ensures answer { IfOk result (λ o. o ≡ mem_holds self.old path.now) }
        ensures same { mem_story self.new ≡ mem_story self.old }
        ensures listed { IsTrue (next_fails self.old) → IsErrOf result TreeFault.Failed }
        ensures counts { CountsListed self.old self.new }
        ensures plan { SameFailures self.old self.new }
        ensures syncs { mem_syncs self.new ≡ mem_syncs self.old }
        ensures faults { CountsFault (IsErrOf result TreeFault.Failed) (fault_count self.old)
            (fault_count self.new) }
    {
        self.calls.enter()?;
        let object = self.disk.read(path)?;
        Ok(object)
    }

    fn list(&mut self, below: &Path) -> Result<Vec<Path>, TreeFault>
        ensures answer { IfOk result (λ v. Lists (mem_holds self.old) below.now v.items) }
        ensures rising { IfOk result (λ v. IsStrictlySortedBy (slice_cmp nat_cmp) v.items) }
        ensures same { mem_story self.new ≡ mem_story self.old }
        ensures listed { IsTrue (next_fails self.old) → IsErrOf result TreeFault.Failed }
        ensures counts { CountsListed self.old self.new }
        ensures plan { SameFailures self.old self.new }
        ensures syncs { mem_syncs self.new ≡ mem_syncs self.old }
        ensures faults { CountsFault (IsErrOf result TreeFault.Failed) (fault_count self.old)
            (fault_count self.new) }
    {
        self.calls.enter()?;
        let paths = self.disk.list(below)?;
        Ok(paths)
    }

    fn put(&mut self, path: &Path, object: &Object) -> Result<(), TreeFault>
        ensures ok { OnOk result (mem_story self.new ≡
            with_write (mem_story self.old) path.now (Some object.now)) }
        ensures moved { Moves (mem_story self.old) path.now (mem_story self.new) }
        ensures listed { IsTrue (next_fails self.old) → IsErrOf result TreeFault.Failed }
        ensures failed { IsErrOf result TreeFault.Failed → FailsAt self.old path.now self.new }
        ensures memory { IsErrOf result TreeFault.Memory → mem_story self.new ≡ mem_story self.old }
        ensures counts { (¬ IsErrOf result TreeFault.Failed) → CountsOk self.old self.new }
        ensures plan { SameFailures self.old self.new }
        ensures syncs { mem_syncs self.new ≡ mem_syncs self.old }
        ensures faults { CountsFault (IsErrOf result TreeFault.Failed) (fault_count self.old)
            (fault_count self.new) }
    {
        if self.calls.begin() {
            let failed = self.fail_touching(path);
            return Err(TreeFault::from(failed));
        }
        let copy = object.try_clone()?;
        self.disk.store(path, copy)?;
        Ok(())
    }

    fn place(&mut self, from: &Path, to: &Path) -> Result<(), Failed>
        requires differ { ¬ (from.now ≡ to.now) }
        requires there { IsSome (mem_holds self.old from.now) }
        ensures ok { OnOk result (mem_story self.new ≡
            with_write (mem_story self.old) to.now (mem_holds self.old from.now)) }
        ensures moved { Moves (mem_story self.old) to.now (mem_story self.new) }
        ensures listed { IsTrue (next_fails self.old) → IsErr result }
        ensures err { OnErr result (FailsAt self.old to.now self.new) }
        ensures counts { OnOk result (CountsOk self.old self.new) }
        ensures plan { SameFailures self.old self.new }
        ensures syncs { mem_syncs self.new ≡ mem_syncs self.old }
        ensures faults { CountsFault (IsErr result) (fault_count self.old) (fault_count self.new) }
    {
        if self.calls.begin() {
            return Err(self.fail_touching(to));
        }
        match self.disk.copy(from, to) {
            Ok(()) => Ok(()),
            Err(_) => {
                self.calls.refuse();
                Err(Failed)
            }
        }
    }

    fn remove(&mut self, path: &Path) -> Result<(), Failed>
        ensures ok { OnOk result (mem_story self.new ≡
            with_write (mem_story self.old) path.now None) }
        ensures moved { Moves (mem_story self.old) path.now (mem_story self.new) }
        ensures listed { IsTrue (next_fails self.old) → IsErr result }
        ensures err { OnErr result (FailsAt self.old path.now self.new) }
        ensures counts { OnOk result (CountsOk self.old self.new) }
        ensures plan { SameFailures self.old self.new }
        ensures syncs { mem_syncs self.new ≡ mem_syncs self.old }
        ensures faults { CountsFault (IsErr result) (fault_count self.old) (fault_count self.new) }
    {
        if self.calls.begin() {
            return Err(self.fail_touching(path));
        }
        match self.disk.clear(path) {
            Ok(()) => Ok(()),
            Err(_) => {
                self.calls.refuse();
                Err(Failed)
            }
        }
    }

    fn sync(&mut self) -> Result<(), Failed>
        ensures ok { OnOk result (mem_story self.new ≡ with_sync (mem_story self.old)) }
        ensures moved { Syncs (mem_story self.old) (mem_story self.new) }
        ensures err { OnErr result (mem_story self.new ≡ mem_story self.old) }
        ensures listed { IsTrue (next_fails self.old) → IsErr result }
        ensures counts { CountsCall (is_err result) self.old self.new }
        ensures plan { SameFailures self.old self.new }
        ensures syncs { CountsSync (is_ok result) self.old self.new }
        ensures faults { CountsFault (IsErr result) (fault_count self.old) (fault_count self.new) }
    {
        self.calls.enter()?;
        match self.disk.settle() {
            Ok(()) => {
                self.syncs = self.syncs.saturating_add(1);
                Ok(())
            }
            Err(_) => {
                self.calls.refuse();
                Err(Failed)
            }
        }
    }
}
