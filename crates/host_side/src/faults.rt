ghost use Rattle.std.specs.Prelude.{◌≤◌};
ghost use Rattle.file_tree.specs.Disk.{Rose};

use crate::progress::Progress;
use std::{fmt, io};

/// How often a part of the host failed.
#[derive(Clone, Copy)]
pub struct Faults {
    pub count: u64,
    /// The line that is cleared before a failure is told.
    progress: Progress,
}

impl Faults {
    /// Nothing has failed yet.
    pub fn new(progress: Progress) -> Faults {
        Faults { count: 0, progress }
    }

    /// Counts a failure, and tells on standard error what failed, on what, and why.
    pub fn tell(&mut self, rt: &HostRuntime, call: &str, subject: &str, error: io::Error)
        ensures count { self.old.count ≤ self.new.count }
        ensures rose { Rose self.old.count self.new.count }
    {
        self.count = self.count.saturating_add(1);
        self.progress.clear();
        // Where standard error is closed there is nobody to tell.
        match rt.eprintln(Told {
            call,
            subject,
            error,
        }) {
            Ok(()) | Err(_) => {}
        }
    }
}

/// A failure, as standard error has it.
#[derive(Drop)]
struct Told<'a> {
    call: &'a str,
    subject: &'a str,
    error: io::Error,
}

impl fmt::Display for Told<'_> {
    fn fmt<W: fmt::Write>(&self, f: &mut fmt::Formatter<W>) -> fmt::Result {
        let call = self.call;
        let subject = self.subject;
        let error = self.error;
        write!(f, "emerge: {call} {subject}: {error}")
    }
}

/// Whether an error is want of memory.
pub fn is_memory(error: &io::Error) -> bool {
    error.kind() == io::ErrorKind::OutOfMemory
}
