ghost use Rattle.std.specs.Prelude.{◌≡◌, ℕ, List, [], ◌||◌, ◌&&◌, not, bytes_eq, length, IfOk};
ghost use Rattle.std.specs.Prelude.{OnOk, OnErr};
ghost use Rattle.std.specs.Map.Iter.{ShowsInOrder, deref};
ghost use Rattle.pms_names.specs.Flags.{has, IsRising};

use crate::name::Flag;
use std::alloc::{AllocError, Global};
use std::collections::BTreeSet;
use std::collections::btree_set::Iter;
use std::marker::Model;

/// A set of flags: a test, an insertion and a removal take time in the logarithm of its size.
/// Contracts see the list of their texts, in byte order.
#[derive(Debug, Drop)]
pub struct Flags {
    items: BTreeSet<Flag>,
}

impl Model for Flags {
    ghost use Rattle.std.specs.Prelude.{List, ℕ};

    ghost Value = { List (List ℕ) };

    ghost use Rattle.pms_names.specs.Flags.{IsRising};

    ghost view = { λ s. s.items.keys };

    ghost invariant = { λ s. IsRising s.items.keys };
}

impl Flags {
    /// The set without flags, which takes no memory.
    pub fn new(alloc: Global) -> Flags
        ensures { result ≡ [] }
    {
        Flags {
            items: BTreeSet::new(alloc),
        }
    }

    pub fn has(&self, flag: &Flag) -> bool
        ensures { result ≡ has self.now flag.now }
    {
        self.items.contains(flag)
    }

    /// Adds the flag, and answers whether it is new.
    pub fn insert(&mut self, flag: Flag) -> Result<bool, AllocError>
        ensures ok { OnOk result ((q : List ℕ) →
            has self.new q ≡ (bytes_eq q flag || has self.old q)) }
        ensures new { IfOk result (λ new. new ≡ not (has self.old flag)) }
        ensures err { OnErr result (self.new ≡ self.old) }
        ensures rising { IsRising self.new }
    {
        Ok(self.items.insert(flag)?)
    }

    /// Takes the flag out, and answers whether it was there.
    pub fn remove(&mut self, flag: &Flag) -> bool
        ensures after { (q : List ℕ) → has self.new q ≡
            (not (bytes_eq q flag.now) && has self.old q) }
        ensures found { result ≡ has self.old flag.now }
        ensures rising { IsRising self.new }
    {
        self.items.remove(flag)
    }

    /// Takes every flag out.
    pub fn clear(&mut self)
        ensures { self.new ≡ [] }
    {
        self.items.clear();
    }

    /// How many flags there are.
    pub fn len(&self) -> usize
        ensures { result ≡ length self.now }
    {
        self.items.len()
    }

    /// The flags in byte order.
    pub fn list(&self) -> Iter<'_, Flag>
        ensures all { result ≡ self.now }
        ensures rising { IsRising self.now }
        ensures runs { ShowsInOrder (deref {X = List ℕ}) }
    {
        self.items.iter()
    }

    pub fn try_clone(&self) -> Result<Flags, AllocError>
        ensures { IfOk result (λ s. s ≡ self.now) }
    {
        let items = self.items.clone()?;
        Ok(Flags { items })
    }
}
