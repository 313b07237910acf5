use owner_book::OwnerBook;
use vdb_record::Installed;

/// What a run begins with.
#[derive(Drop)]
pub struct Opening {
    /// The installed packages, in byte order of their folders.
    pub packages: Vec<Installed>,
    /// Who owns what among them.
    pub book: OwnerBook,
}
