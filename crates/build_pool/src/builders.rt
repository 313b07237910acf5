ghost use Rattle.std.specs.Prelude.{◌≡◌, ◌<◌, ℕ, Bool, List, Some, IfOk, IsErrOf, IsTrue, length};
ghost use Rattle.std.specs.Prelude.{slice_get};
ghost use Rattle.file_tree.specs.Disk.{CountsFault};
ghost use Rattle.file_tree.specs.declared.objects.Entry.{Entry};
ghost use Rattle.build_pool.specs.declared.orders.Order.{Order};

use crate::orders::Order;
use file_tree::Entry;

/// Why a builder has no answer.
#[derive(Clone, Copy, Debug, PartialEq, Eq)]
pub enum BuildStop {
    Failed,
    Memory,
}

/// What makes the image of a package: the entries that a merge puts into the tree.
pub trait Builder: Drop {
    /// Whether builders of this type tell their images.
    ghost tells: { Bool };

    /// What the builder is known by in its pool.
    ghost number: { Self → ℕ };

    /// How often it failed. It never falls.
    ghost faults: { Self → ℕ };

    /// The image for an order.
    ghost told: { Self → Order → List Entry };

    /// How many entries the image of the order started last has.
    ghost started: { Self → ℕ };

    /// The image of the order started last.
    ghost image: { Self → List Entry };

    /// The number that tells this builder from the others of a pool.
    fn id(&self) -> u32
        ensures { result ≡ number self.now };

    /// How often it failed.
    fn fault_count(&self) -> u64
        ensures { result ≡ faults self.now };

    /// Begins an order, and answers how many entries its image has.
    fn start(&mut self, order: &Order) -> Result<u32, BuildStop>
        ensures same_number { number self.new ≡ number self.old }
        ensures same_told { told self.new ≡ told self.old }
        ensures started { IfOk result (λ n. started self.new ≡ n) }
        ensures image { IsTrue tells → IfOk result
            (λ n. (image self.new ≡ told self.old order.now) ×
            (length (told self.old order.now) ≡ n)) }
        ensures faults { CountsFault (IsErrOf result BuildStop.Failed) (faults self.old)
            (faults self.new) };

    /// The entry at this place of the image, counted from 0.
    fn entry(&mut self, index: u32) -> Result<Entry, BuildStop>
        requires below { index < started self.old }
        ensures same_number { number self.new ≡ number self.old }
        ensures same_told { told self.new ≡ told self.old }
        ensures same_started { started self.new ≡ started self.old }
        ensures same_image { image self.new ≡ image self.old }
        ensures entry { IsTrue tells → IfOk result
            (λ e. slice_get (image self.old) index ≡ Some e) }
        ensures faults { CountsFault (IsErrOf result BuildStop.Failed) (faults self.old)
            (faults self.new) };
}
