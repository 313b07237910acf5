use file_tree::Entry;
use merge_record::OwnerKey;

/// What a package places, and who is to own it.
#[derive(Drop)]
pub struct Files {
    pub owner: OwnerKey,
    /// The entries of its image.
    pub image: Vec<Entry>,
    /// The files of its own folder in the database.
    pub folder: Vec<Entry>,
}
