use std::time::Instant;
use std::{fmt, io};

/// How old a run is, in milliseconds, before the line is drawn.
const FIRST: u64 = 1_000;

/// How long a line stands at least, in milliseconds.
const STEP: u64 = 100;

/// What clears the line of a terminal on which the cursor is.
const CLEAR: &str = "\r\u{1b}[K";

/// The line on standard error that tells how far a run has come. It is drawn over and over, from the
/// first second on, and only where a person looks on.
#[derive(Clone, Copy)]
pub struct Progress {
    rt: HostRuntime,
    /// When the run began, where a person looks on.
    began: Option<Instant>,
    /// At which age of the run, in milliseconds, the line is drawn next.
    next: u64,
}

impl Progress {
    /// The line of a run that begins now.
    pub fn new(rt: HostRuntime, is_watched: bool) -> Progress {
        let began = match is_watched {
            true => Instant::now(&rt).ok(),
            false => None,
        };
        Progress {
            rt,
            began,
            next: FIRST,
        }
    }

    /// Whether a person looks on.
    pub fn is_watched(&self) -> bool {
        self.began.is_some()
    }

    /// Draws the line anew, where it stood long enough. No line is wider than 79 characters.
    pub fn draw<D: fmt::Display>(&mut self, line: &D) {
        let Some(age) = self.age() else {
            return;
        };
        if age < self.next {
            return;
        }
        self.next = age.saturating_add(STEP);
        leave(eprint!(&self.rt; "{CLEAR}emerge: {line}"));
    }

    /// Clears the line, so that something else can be told.
    pub fn clear(&self) {
        match self.age() {
            Some(age) if age >= FIRST => leave(eprint!(&self.rt; "{CLEAR}")),
            _ => {}
        }
    }

    /// How old a run is that a person looks at, in milliseconds.
    fn age(&self) -> Option<u64> {
        let age = self.began?.elapsed(&self.rt).ok()?;
        u64::try_from(age.as_millis()).ok()
    }
}

/// Where standard error is closed there is nobody to tell.
fn leave(answer: io::Result<()>) {
    match answer {
        Ok(()) | Err(_) => {}
    }
}

/// A count, with a comma before each three digits.
#[derive(Clone, Copy)]
pub struct Count(pub u64);

impl fmt::Display for Count {
    fn fmt<W: fmt::Write>(&self, f: &mut fmt::Formatter<W>) -> fmt::Result {
        let count = self.0;
        if count < 1_000 {
            return write!(f, "{count}");
        }
        let (thousands, rest) = (count / 1_000, count % 1_000);
        if thousands < 1_000 {
            return write!(f, "{thousands},{rest:03}");
        }
        let (millions, thousands) = (thousands / 1_000, thousands % 1_000);
        write!(f, "{millions},{thousands:03},{rest:03}")
    }
}
