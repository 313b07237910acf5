ghost use Rattle.std.specs.Prelude.{◌≡◌, ◌++◌, ℕ, Bool, List, Some, None, true, take, IfOk, IsErr};
ghost use Rattle.std.specs.Prelude.{IsErrOf, IsSome, IsTrue, OnErr, OnOk};
ghost use Rattle.std.specs.Cmp.Lexicographic.{slice_cmp};
ghost use Rattle.std.specs.List.Sorted.{IsStrictlySortedBy};
ghost use Rattle.std.specs.Ordering.{nat_cmp};
ghost use Rattle.file_tree.specs.Disk.{CountsFault, Lists, Looks, Moves, Story, Syncs, with_sync};
ghost use Rattle.file_tree.specs.Disk.{with_write};

use crate::fault::{Failed, TreeFault};
use crate::objects::{Look, Object};
use crate::paths::Path;

/// A tree of files, as a map from paths to objects. Folders are no objects: they are there while
/// something is below them.
///
/// Until the next `sync` that answers Ok, a path that `put`, `place` or `remove` was asked to change
/// may hold any object or none after a crash, from the beginning of that call on and whatever it
/// answered. All other paths stay.
pub trait Tree {
    /// Whether trees of this type tell what they hold; what a content clause says, it says of these.
    ghost tells: { Bool };

    /// What each path reads as and which paths are touched, now and at each earlier moment.
    ghost story: { Self → Story };

    /// How often the device failed. It never falls.
    ghost faults: { Self → ℕ };

    /// What stands at the path.
    fn look(&mut self, path: &Path) -> Result<Look, Failed>
        ensures answer { IsTrue tells → IfOk result
            (λ l. Looks (story self.old).now.holds path.now l) }
        ensures same { IsTrue tells → story self.new ≡ story self.old }
        ensures faults { CountsFault (IsErr result) (faults self.old) (faults self.new) };

    /// The object that the path holds.
    fn read(&mut self, path: &Path) -> Result<Option<Object>, TreeFault>
        ensures answer { IsTrue tells → IfOk result (λ o. o ≡ (story self.old).now.holds path.now) }
        ensures same { IsTrue tells → story self.new ≡ story self.old }
        ensures faults { CountsFault (IsErrOf result TreeFault.Failed) (faults self.old)
            (faults self.new) };

    /// The paths strictly below, in byte order.
    fn list(&mut self, below: &Path) -> Result<Vec<Path>, TreeFault>
        ensures answer { IsTrue tells → IfOk result
            (λ v. Lists (story self.old).now.holds below.now v.items) }
        ensures rising { IfOk result (λ v. IsStrictlySortedBy (slice_cmp nat_cmp) v.items) }
        ensures same { IsTrue tells → story self.new ≡ story self.old }
        ensures faults { CountsFault (IsErrOf result TreeFault.Failed) (faults self.old)
            (faults self.new) };

    /// Makes the path hold a copy of the object.
    fn put(&mut self, path: &Path, object: &Object) -> Result<(), TreeFault>
        ensures ok { IsTrue tells → OnOk result
            (story self.new ≡ with_write (story self.old) path.now (Some object.now)) }
        ensures moved { IsTrue tells → Moves (story self.old) path.now (story self.new) }
        ensures memory { IsTrue tells → IsErrOf result TreeFault.Memory →
            story self.new ≡ story self.old }
        ensures faults { CountsFault (IsErrOf result TreeFault.Failed) (faults self.old)
            (faults self.new) };

    /// Makes `to` hold what `from` holds, which stays there.
    fn place(&mut self, from: &Path, to: &Path) -> Result<(), Failed>
        requires differ { ¬ (from.now ≡ to.now) }
        requires there { IsTrue tells → IsSome ((story self.old).now.holds from.now) }
        ensures ok { IsTrue tells → OnOk result
            (story self.new ≡ with_write (story self.old) to.now
            ((story self.old).now.holds from.now)) }
        ensures moved { IsTrue tells → Moves (story self.old) to.now (story self.new) }
        ensures faults { CountsFault (IsErr result) (faults self.old) (faults self.new) };

    /// Makes the path hold nothing. A path that holds nothing already is no fault.
    fn remove(&mut self, path: &Path) -> Result<(), Failed>
        ensures ok { IsTrue tells → OnOk result
            (story self.new ≡ with_write (story self.old) path.now None) }
        ensures moved { IsTrue tells → Moves (story self.old) path.now (story self.new) }
        ensures faults { CountsFault (IsErr result) (faults self.old) (faults self.new) };

    /// After Ok a crash leaves what is read.
    fn sync(&mut self) -> Result<(), Failed>
        ensures ok { IsTrue tells → OnOk result (story self.new ≡ with_sync (story self.old)) }
        ensures moved { IsTrue tells → Syncs (story self.old) (story self.new) }
        ensures err { IsTrue tells → OnErr result (story self.new ≡ story self.old) }
        ensures faults { CountsFault (IsErr result) (faults self.old) (faults self.new) };
}

/// Where a run writes its lines.
pub trait Sink {
    /// Whether sinks of this type tell their bytes.
    ghost tells: { Bool };

    /// The bytes so far.
    ghost written: { Self → List ℕ };

    /// How often the sink failed. It never falls.
    ghost faults: { Self → ℕ };

    /// Writes the whole piece; after `Failed` the sink has some prefix of it.
    fn write(&mut self, bytes: &[u8]) -> Result<(), Failed>
        ensures ok { IsTrue tells → OnOk result (written self.new ≡ written self.old ++ bytes.now) }
        ensures moved { IsTrue tells → (n : ℕ) ×
            (written self.new ≡ written self.old ++ take n bytes.now) }
        ensures faults { CountsFault (IsErr result) (faults self.old) (faults self.new) };
}
