use emerge_choose::Chosen;
use owner_book::OwnerBook;
use pms_names::Flags;
use vdb_record::Installed;

/// What a run finds in its tree.
#[derive(Drop)]
pub struct Found {
    /// The installed packages, as they are recorded.
    pub packages: Vec<Installed>,
    /// Who owns what among them.
    pub book: OwnerBook,
    /// The flags that are on for every package.
    pub implicit: Flags,
    /// What is to be merged.
    pub chosen: Chosen,
}
