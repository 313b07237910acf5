use file_tree::Failed;
use std::alloc::{AllocError, Global};
use std::collections::BTreeSet;

/// The calls of a tree or a sink: their counts, and which of them fail.
#[derive(Drop)]
pub struct Calls {
    made: u64,
    faults: u64,
    refused: u64,
    listed: BTreeSet<u64>,
    stop: Option<u64>,
}

impl Calls {
    ghost use Rattle.std.specs.Prelude.{◌≡◌, ◌≤◌, ◌||◌, ◌==◌, ℕ, false, is_err, nat_le};
    ghost use Rattle.std.specs.Prelude.{OnErr, OnOk};
    ghost use Rattle.file_tree.specs.Disk.{Rose};
    ghost use Rattle.tree_mem.specs.Calls.{call_fails, counts_of, one_more};

    pub fn new(alloc: Global) -> Calls
        ensures counts { counts_of result ≡ record { calls = 0; faults = 0; refused = 0 } }
        ensures fails { (n : ℕ) → call_fails result n ≡ false }
    {
        Calls {
            made: 0,
            faults: 0,
            refused: 0,
            listed: BTreeSet::new(alloc),
            stop: None,
        }
    }

    pub fn made(&self) -> u64
        ensures { result ≡ (counts_of self.now).calls }
    {
        self.made
    }

    pub fn refused(&self) -> u64
        ensures { result ≡ (counts_of self.now).refused }
    {
        self.refused
    }

    /// The call of this number is to fail.
    pub fn fail_at(&mut self, call: u64) -> Result<(), AllocError>
        ensures ok { OnOk result ((n : ℕ) →
            call_fails self.new n ≡ (n == call) || call_fails self.old n) }
        ensures err { OnErr result ((n : ℕ) → call_fails self.new n ≡ call_fails self.old n) }
        ensures counts { counts_of self.new ≡ counts_of self.old }
    {
        self.listed.insert(call)?;
        Ok(())
    }

    /// The call of this number and all later ones are to fail.
    pub fn stop_at(&mut self, call: u64)
        ensures fails { (n : ℕ) → call_fails self.new n ≡ nat_le call n || call_fails self.old n }
        ensures counts { counts_of self.new ≡ counts_of self.old }
    {
        self.stop = Some(match self.stop {
            Some(earlier) => earlier.min(call),
            None => call,
        });
    }

    /// Counts a call, and tells whether it is to fail.
    pub fn begin(&mut self) -> bool
        ensures answer { result ≡ call_fails self.old (one_more self.old.made) }
        ensures counts { self.new ≡ record self.old { made = one_more self.old.made } }
    {
        self.made = self.made.saturating_add(1);
        let stopped = match self.stop {
            Some(first) => first <= self.made,
            None => false,
        };
        self.listed.contains(&self.made) || stopped
    }

    /// Counts a call, which fails where it is to fail.
    pub fn enter(&mut self) -> Result<(), Failed>
        ensures answer { is_err result ≡ call_fails self.old (one_more self.old.made) }
        ensures ok { OnOk result (self.new ≡ record self.old { made = one_more self.old.made }) }
        ensures err { OnErr result (self.new ≡ record self.old
            { made = one_more self.old.made; faults = one_more self.old.faults }) }
        ensures grows { self.old.faults ≤ self.new.faults }
        ensures rose { OnErr result (Rose self.old.faults self.new.faults) }
    {
        if self.begin() {
            self.fail();
            return Err(Failed);
        }
        Ok(())
    }

    /// The call failed.
    pub fn fail(&mut self)
        ensures counts { self.new ≡ record self.old { faults = one_more self.old.faults } }
        ensures grows { self.old.faults ≤ self.new.faults }
        ensures rose { Rose self.old.faults self.new.faults }
    {
        self.faults = self.faults.saturating_add(1);
    }

    /// The call failed for a refused growth.
    pub fn refuse(&mut self)
        ensures counts { self.new ≡ record self.old
            { faults = one_more self.old.faults; refused = one_more self.old.refused } }
        ensures grows { self.old.faults ≤ self.new.faults }
        ensures rose { Rose self.old.faults self.new.faults }
    {
        self.faults = self.faults.saturating_add(1);
        self.refused = self.refused.saturating_add(1);
    }
}
