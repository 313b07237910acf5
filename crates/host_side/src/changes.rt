use crate::folder::{Folder, Found, folder_of, too_many};
use crate::programs;
use crate::unsynced::Unsynced;
use basics::Text;
use file_tree::JOBS;
use std::alloc::{AllocError, Global};
use std::collections::BTreeSet;
use std::fs::File;
use std::io;
use std::process::{Command, Stdio};
use std::thread::Threads;

/// What was changed since the last sync: the files that were written, the folders whose names were
/// changed, and those that something was taken out of.
#[derive(Drop)]
pub struct Changes {
    written: Unsynced,
    /// By their names on the host.
    folders: BTreeSet<Text>,
    /// By their paths, the lower ones behind those that hold them.
    emptied: BTreeSet<Text>,
    state: State,
}

/// What this run knows of earlier syncs.
#[derive(Clone, Copy, Debug, PartialEq, Eq)]
enum State {
    /// None yet: a run that was stopped may have left what is read and not durable.
    First,
    /// The last one was Ok.
    Synced,
    /// One failed. The system may tell a lost write once alone, so none is Ok from then on.
    Failed,
}

impl Changes {
    /// Nothing is changed yet.
    pub fn new(alloc: Global) -> Changes {
        Changes {
            written: Unsynced::new(alloc),
            folders: BTreeSet::new(alloc),
            emptied: BTreeSet::new(alloc),
            state: State::First,
        }
    }

    /// Notes that a name in the folder is about to change.
    pub fn note(&mut self, alloc: Global, folder: &str) -> Result<(), AllocError> {
        add(alloc, &mut self.folders, folder)
    }

    /// Notes that the folder at a path may have nothing left. Where that is so it goes at the next
    /// sync, and not sooner: it is then asked for once, and not for each object that it had.
    pub fn note_emptied(&mut self, alloc: Global, path: &str) -> Result<(), AllocError> {
        if path.is_empty() {
            return Ok(());
        }
        add(alloc, &mut self.emptied, path)
    }

    /// Leaves a file that was written whole to the next sync. Where too many are open, they are made
    /// durable first.
    pub fn owe<R: Threads>(&mut self, threads: &R, file: File) -> io::Result<()> {
        if self.written.is_full() {
            let answer = self.written.sync(threads);
            self.keep(answer)?;
        }
        self.written.push(file)?;
        Ok(())
    }

    /// Makes all that was changed in the tree durable: the files, and behind them the folders, without
    /// those that have nothing left.
    pub fn sync<R: Threads>(&mut self, threads: &R, tree: &Folder) -> io::Result<()> {
        let answer = self.sync_all(threads, tree);
        self.keep(answer)?;
        self.state = State::Synced;
        self.folders.clear();
        Ok(())
    }

    /// Keeps in mind that a sync failed.
    fn keep(&mut self, answer: io::Result<()>) -> io::Result<()> {
        if answer.is_err() {
            self.state = State::Failed;
        }
        answer
    }

    fn sync_all<R: Threads>(&mut self, threads: &R, tree: &Folder) -> io::Result<()> {
        match self.state {
            State::First => self.settle(tree)?,
            State::Synced => {}
            State::Failed => return Err(io::Error::other("an earlier sync failed")),
        }
        self.prune(tree)?;
        self.written.sync(threads)?;
        sync_folders(tree.rt(), &self.folders)
    }

    /// Removes the folders that have nothing left, each behind those below it.
    fn prune(&mut self, tree: &Folder) -> io::Result<()> {
        for _ in 0..u64::MAX {
            let Some(path) = self.emptied.pop_last() else {
                return Ok(());
            };
            if tree.prune(path.as_str()) {
                let above = folder_of(path.as_str());
                self.note(tree.alloc(), tree.name_of(above)?.as_str())?;
                self.note_emptied(tree.alloc(), above)?;
            }
        }
        Err(too_many())
    }

    /// Makes durable what a stopped run may have left and what isn't. Where it left no journal, that
    /// is no more than the names on the way to the journal: that it is gone, or folders made for it.
    fn settle(&mut self, tree: &Folder) -> io::Result<()> {
        let reached = tree.reach(JOBS)?;
        match reached.next {
            Found::Nothing => self.note_all(tree, &reached.folders),
            Found::Folder => {
                tree.try_removing(JOBS);
                sync_host(tree.rt())
            }
            _ => sync_host(tree.rt()),
        }
    }

    /// Notes that names in these folders may have changed.
    fn note_all(&mut self, tree: &Folder, folders: &[&str]) -> io::Result<()> {
        for folder in folders {
            let name = tree.name_of(*folder)?;
            self.note(tree.alloc(), name.as_str())?;
        }
        Ok(())
    }
}

/// Has the system's program `sync` make everything durable.
fn sync_host(rt: &HostRuntime) -> io::Result<()> {
    let mut command = Command::new(rt.alloc(), "sync")?;
    command.stdin(Stdio::null()).stdout(Stdio::null());
    programs::run(rt, &mut command, "the program sync failed")
}

/// Makes the names in these folders durable, in one folder after another: on a disk with one journal
/// the first one takes along what was done in all.
fn sync_folders(rt: &HostRuntime, folders: &BTreeSet<Text>) -> io::Result<()> {
    for folder in folders {
        match File::open(rt, folder.as_str()) {
            Ok(open) => open.sync_all()?,
            // It was removed, and the folder above it is among those changed.
            Err(error) if error.kind() == io::ErrorKind::NotFound => {}
            Err(error) => return Err(error),
        }
    }
    Ok(())
}

fn add(alloc: Global, texts: &mut BTreeSet<Text>, text: &str) -> Result<(), AllocError> {
    match texts.insert(Text::new(alloc, text)?) {
        Ok(_) => Ok(()),
        Err(_) => Err(AllocError),
    }
}
