use std::fs::{File, TryLockError};
use std::io;

/// Why a folder is no tree for this run.
#[derive(Clone, Copy, Debug)]
pub enum OpenFault {
    /// Another run holds it.
    Locked,
    /// It can't be opened.
    Failed(io::Error),
}

impl From<io::Error> for OpenFault {
    fn from(error: io::Error) -> OpenFault {
        OpenFault::Failed(error)
    }
}

/// Opens a folder and locks it. The lock goes with the file, also where the run is killed.
pub fn open_locked(rt: &HostRuntime, name: &str) -> Result<File, OpenFault> {
    let folder = File::open(rt, name)?;
    if !folder.metadata()?.is_dir() {
        return Err(OpenFault::Failed(io::Error::from(io::ErrorKind::NotADirectory)));
    }
    match folder.try_lock() {
        Ok(()) => Ok(folder),
        Err(TryLockError::WouldBlock) => Err(OpenFault::Locked),
        Err(TryLockError::Error(error)) => Err(OpenFault::Failed(error)),
    }
}
