use std::alloc::{AllocError, Global};
use std::fs::File;
use std::io;
use std::thread::{Threads, join};

/// How many files are open at most until they are synced.
const MOST_OPEN: usize = 128;

/// Files that are to be made durable. They are kept open until then, so that none is sought by a name
/// that may be another one's by then, and no failure to write them is missed.
#[derive(Drop)]
pub struct Unsynced {
    open: Vec<File>,
}

impl Unsynced {
    /// Nothing is to be made durable.
    pub fn new(alloc: Global) -> Unsynced {
        Unsynced {
            open: Vec::new(alloc),
        }
    }

    /// Whether no more may be open before a sync.
    pub fn is_full(&self) -> bool {
        self.open.len() >= MOST_OPEN
    }

    /// One more is to be made durable.
    pub fn push(&mut self, file: File) -> Result<(), AllocError> {
        self.open.push(file)?;
        Ok(())
    }

    /// Makes them durable, and closes them, whatever the answer is.
    pub fn sync<R: Threads>(&mut self, threads: &R) -> io::Result<()> {
        let answer = sync_side_by_side(threads, &self.open);
        self.open.clear();
        answer
    }
}

/// Makes files durable, four at a time. Where there are fewer, fewer threads are started.
fn sync_side_by_side<R: Threads>(threads: &R, files: &[File]) -> io::Result<()> {
    let (front, back) = files.split_at(files.len() / 2);
    let (first, second) = front.split_at(front.len() / 2);
    let (third, fourth) = back.split_at(back.len() / 2);
    if first.is_empty() {
        return sync_three(threads, second, third, fourth);
    }
    let (one, others) = join(
        threads,
        || sync_each(first),
        || sync_three(threads, second, third, fourth),
    );
    one.and(others)
}

fn sync_three<R: Threads>(
    threads: &R,
    first: &[File],
    second: &[File],
    third: &[File],
) -> io::Result<()> {
    if first.is_empty() {
        return sync_two(threads, second, third);
    }
    let (one, others) = join(
        threads,
        || sync_each(first),
        || sync_two(threads, second, third),
    );
    one.and(others)
}

fn sync_two<R: Threads>(threads: &R, first: &[File], second: &[File]) -> io::Result<()> {
    if first.is_empty() {
        return sync_each(second);
    }
    let (one, other) = join(threads, || sync_each(first), || sync_each(second));
    one.and(other)
}

/// Makes files durable, one after another. A failure keeps none of the others from it.
fn sync_each(files: &[File]) -> io::Result<()> {
    let mut answer = Ok(());
    for file in files {
        answer = answer.and(file.sync_all());
    }
    answer
}
