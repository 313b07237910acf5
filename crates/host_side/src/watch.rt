use crate::progress::{Count, Progress};
use file_tree::{DATABASE, JOBS, Object};
use std::alloc::{AllocError, Global};
use std::fmt;

/// Where a record of the journal has the count of its removals.
const REMOVALS: usize = 9;

/// What the calls of a tree tell of how far a run has come.
#[derive(Drop)]
pub struct Watch {
    progress: Progress,
    /// The path of the file that the plan comes from, where it comes from one.
    plan: Option<String>,
    seen: Seen,
}

/// How far a run has come, as far as it was seen.
#[derive(Clone, Copy)]
struct Seen {
    at: At,
    /// How many files were read before the first group.
    read: u64,
    /// How many groups the plan has, where it comes from a file.
    groups: Option<usize>,
}

/// What a run is about to do.
#[derive(Clone, Copy)]
enum At {
    /// It reads these.
    Reading { what: &'static str },
    /// It completes a group of an earlier run.
    Completing { group: u32, done: u64 },
    /// It puts a group into the journal.
    Staging { group: u32, files: u64 },
    /// It puts the files of a group in their places, and removes others.
    Placing { group: u32, done: u64, files: u64 },
}

impl Watch {
    /// What is told by this line of a run, whose plan comes from this file if from any.
    pub fn new(alloc: Global, progress: Progress, plan: Option<&str>) -> Result<Watch, AllocError> {
        let plan = match plan {
            Some(path) => Some(String::from_str(alloc, path)?),
            None => None,
        };
        Ok(Watch {
            progress,
            plan,
            seen: Seen {
                at: At::Reading { what: "" },
                read: 0,
                groups: None,
            },
        })
    }

    /// A file was read, or sought.
    pub fn read(&mut self, path: &str, object: Option<&Object>) {
        if !self.progress.is_watched() {
            return;
        }
        if self.is_plan(path) {
            self.seen.groups = object.map(|plan| groups_of(&plan.bytes));
        }
        if let At::Reading { .. } | At::Completing { .. } = self.seen.at {
            self.seen.read = self.seen.read.saturating_add(1);
            self.see(At::Reading { what: what(path) });
        }
    }

    /// A file was put.
    pub fn put(&mut self, path: &str, object: &Object) {
        if !self.progress.is_watched() {
            return;
        }
        let Some((group, part)) = part_of_job(path) else {
            return;
        };
        let files = self.staged(group);
        match part {
            "record" => self.see(At::Placing {
                group,
                done: 0,
                files: files.saturating_add(removals_of(&object.bytes)),
            }),
            "token" => {}
            _ => self.see(At::Staging {
                group,
                files: files.saturating_add(1),
            }),
        }
    }

    /// A file was put in its place.
    pub fn place(&mut self, from: &str) {
        if !self.progress.is_watched() {
            return;
        }
        match part_of_job(from) {
            Some((_, "token")) | None => {}
            Some((group, _)) => self.done(group),
        }
    }

    /// A file was removed.
    pub fn remove(&mut self, path: &str) {
        if !self.progress.is_watched() || part_of_job(path).is_some() {
            return;
        }
        if let At::Placing { group, .. } | At::Completing { group, .. } = self.seen.at {
            self.done(group);
        }
    }

    /// Whether the plan comes from this file.
    fn is_plan(&self, path: &str) -> bool {
        match &self.plan {
            Some(plan) => plan.as_str() == path,
            None => false,
        }
    }

    /// How many files of this group are in the journal.
    fn staged(&self, wanted: u32) -> u64 {
        match self.seen.at {
            At::Staging { group, files } if group == wanted => files,
            _ => 0,
        }
    }

    /// One more change of this group was made.
    fn done(&mut self, group: u32) {
        let at = match self.seen.at {
            At::Placing { done, files, .. } => At::Placing {
                group,
                done: done.saturating_add(1),
                files,
            },
            At::Completing { done, .. } => At::Completing {
                group,
                done: done.saturating_add(1),
            },
            _ => At::Completing { group, done: 1 },
        };
        self.see(at);
    }

    /// Keeps in mind what the run does, and tells it.
    fn see(&mut self, at: At) {
        self.seen.at = at;
        self.progress.draw(&self.seen);
    }
}

impl fmt::Display for Seen {
    fn fmt<W: fmt::Write>(&self, f: &mut fmt::Formatter<W>) -> fmt::Result {
        match self.at {
            At::Reading { what } => {
                let read = Count(self.read);
                write!(f, "{read} files read, now those of {what}")
            }
            At::Completing { group, done } => {
                let done = Count(done);
                write!(
                    f,
                    "completing group {group} of an earlier run: {done} of its files"
                )
            }
            At::Staging { group, files } => {
                let group = Of {
                    group,
                    groups: self.groups,
                };
                let files = Count(files);
                write!(f, "{group}: {files} of the files in the journal")
            }
            At::Placing { group, done, files } => {
                let group = Of {
                    group,
                    groups: self.groups,
                };
                let (done, files) = (Count(done), Count(files));
                write!(f, "{group}: {done} of {files} files")
            }
        }
    }
}

/// Which group it is, and of how many where that is known.
#[derive(Clone, Copy)]
struct Of {
    group: u32,
    groups: Option<usize>,
}

impl fmt::Display for Of {
    fn fmt<W: fmt::Write>(&self, f: &mut fmt::Formatter<W>) -> fmt::Result {
        let group = self.group;
        match self.groups {
            Some(groups) => write!(f, "group {group} of {groups}"),
            None => write!(f, "group {group}"),
        }
    }
}

/// The group that a path of the journal is of, and what stands below its folder.
fn part_of_job(path: &str) -> Option<(u32, &str)> {
    let (number, part) = path.strip_prefix(JOBS)?.strip_prefix('/')?.split_once('/')?;
    let group = u32::from_str_radix(number, 16).ok()?;
    Some((group, part))
}

/// How many files a record removes.
fn removals_of(record: &[u8]) -> u64 {
    match record.get(REMOVALS..REMOVALS + 4) {
        Some([a, b, c, d]) => u64::from(u32::from_be_bytes([*a, *b, *c, *d])),
        _ => 0,
    }
}

/// How many groups the text of a plan has.
fn groups_of(plan: &[u8]) -> usize {
    plan.split(|byte| *byte == b'\n')
        .filter(|line| line.starts_with(b"group "))
        .count()
}

/// What a path has to do with.
fn what(path: &str) -> &'static str {
    if path.starts_with(JOBS) {
        "the journal"
    } else if path.starts_with(DATABASE) {
        "the installed packages"
    } else if path.starts_with("var/db/repos/") {
        "the repository"
    } else if path.starts_with("etc/") {
        "the configuration"
    } else {
        "the tree"
    }
}
