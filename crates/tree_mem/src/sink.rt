ghost use Rattle.std.specs.Prelude.{◌≡◌};

use crate::calls::Calls;
use file_tree::{Failed, Sink};
use std::alloc::{AllocError, Global};

/// A sink in memory, which keeps the bytes that it was given.
#[derive(Drop)]
pub struct MemSink {
    bytes: Vec<u8>,
    calls: Calls,
}

impl MemSink {
    ghost use Rattle.std.specs.Prelude.{◌≡◌, ◌||◌, ◌==◌, ℕ, false, [], OnErr, OnOk};
    ghost use Rattle.tree_mem.specs.MemSink.{sink_bytes, sink_counts, sink_fails};

    /// An empty sink, no write of which fails but for want of memory.
    pub fn new(alloc: Global) -> MemSink
        ensures bytes { sink_bytes result ≡ [] }
        ensures counts { sink_counts result ≡ record { calls = 0; faults = 0; refused = 0 } }
        ensures fails { (n : ℕ) → sink_fails result n ≡ false }
    {
        MemSink {
            bytes: Vec::new(alloc),
            calls: Calls::new(alloc),
        }
    }

    /// Makes the write of this number, counted from 1, fail. It then takes no byte.
    pub fn fail_at(&mut self, call: u64) -> Result<(), AllocError>
        ensures ok { OnOk result ((n : ℕ) →
            sink_fails self.new n ≡ (n == call) || sink_fails self.old n) }
        ensures err { OnErr result ((n : ℕ) → sink_fails self.new n ≡ sink_fails self.old n) }
        ensures bytes { sink_bytes self.new ≡ sink_bytes self.old }
        ensures counts { sink_counts self.new ≡ sink_counts self.old }
    {
        self.calls.fail_at(call)
    }

    /// The bytes so far.
    pub fn bytes(&self) -> &[u8]
        ensures { result.now ≡ sink_bytes self.now }
    {
        self.bytes.as_slice()
    }

    /// How many writes failed for a refused growth.
    pub fn refused(&self) -> u64
        ensures { result ≡ (sink_counts self.now).refused }
    {
        self.calls.refused()
    }
}

impl Sink for MemSink {
    ghost use Rattle.std.specs.Prelude.{◌≡◌, ◌++◌, ℕ, List, true, take, is_err, IsErr, IsTrue};
    ghost use Rattle.std.specs.Prelude.{OnErr, OnOk};
    ghost use Rattle.file_tree.specs.Disk.{CountsFault};
    ghost use Rattle.tree_mem.specs.MemSink.{CountsWrite, next_write_fails, sink_bytes, sink_fails};
    ghost use Rattle.tree_mem.specs.MemSink.{sink_fault_count};

    ghost tells = { true };

    ghost written = { sink_bytes };

    ghost faults = { sink_fault_count };

    fn write(&mut self, bytes: &[u8]) -> Result<(), Failed>
        ensures ok { OnOk result (sink_bytes self.new ≡ sink_bytes self.old ++ bytes.now) }
        ensures err { OnErr result (sink_bytes self.new ≡ sink_bytes self.old) }
        ensures moved { (n : ℕ) × (sink_bytes self.new ≡ sink_bytes self.old ++ take n bytes.now) }
        ensures listed { IsTrue (next_write_fails self.old) → IsErr result }
        ensures counts { CountsWrite (is_err result) self.old self.new }
        ensures plan { (n : ℕ) → sink_fails self.new n ≡ sink_fails self.old n }
        ensures faults { CountsFault (IsErr result) (sink_fault_count self.old)
            (sink_fault_count self.new) }
    {
        self.calls.enter()?;
        match self.bytes.extend_from_slice(bytes) {
            Ok(()) => Ok(()),
            Err(_) => {
                self.calls.refuse();
                Err(Failed)
            }
        }
    }
}
