ghost use Rattle.std.specs.Prelude.{[], false};

use crate::faults::Faults;
use crate::progress::Progress;
use file_tree::{Failed, Sink};
use std::io;
use std::io::Write;

/// Standard output.
#[derive(Drop)]
pub struct HostSink {
    rt: HostRuntime,
    faults: Faults,
    progress: Progress,
}

impl HostSink {
    /// Standard output, which has not failed yet. What tells how far the run is goes before a line.
    pub fn stdout(rt: HostRuntime, progress: Progress) -> HostSink {
        HostSink {
            rt,
            faults: Faults::new(progress),
            progress,
        }
    }
}

impl Sink for HostSink {
    ghost tells = { false };

    ghost written = { λ _. [] };

    ghost faults = { λ s. s.faults.count };

    fn write(&mut self, bytes: &[u8]) -> Result<(), Failed> {
        self.progress.clear();
        match io::writer(&self.rt).write_all(bytes) {
            Ok(()) => Ok(()),
            Err(error) => {
                self.faults
                    .tell(&self.rt, "write", "standard output", error);
                Err(Failed)
            }
        }
    }
}
