/// The greatest length of a path, in bytes.
pub const MOST_PATH_BYTES: usize = 4095;

/// What a run may have too much of.
#[derive(Clone, Copy, Debug, PartialEq, Eq)]
pub enum Quantity {
    /// Groups of a plan, or objects at gate paths in the journal.
    Groups,
    /// Installed packages.
    Packages,
    /// Visible candidates.
    Candidates,
    /// Owned paths, or paths of one group.
    Paths,
    /// Bytes of one journal record.
    RecordBytes,
}
