use file_tree::{Kind, Path};
use std::marker::Model;

/// The place of a package, counted from 0, in the opening's packages and then in the additions of
/// the groups.
#[derive(Clone, Copy, Debug, PartialEq, Eq, PartialOrd, Ord)]
pub struct OwnerKey {
    pub number: u32,
}

/// An object that a group puts at a path, by its kind, its length in bytes and its digest.
#[derive(Debug, Drop)]
pub struct Placement {
    pub path: Path,
    pub kind: Kind,
    pub length: u64,
    pub md5: [u8; 16],
}

/// What a group does: first the paths that it removes, then the objects that it places. The object
/// of a placement stands staged under its index.
#[derive(Debug, Drop)]
pub struct Record {
    pub group: u32,
    pub removals: Vec<Path>,
    pub placements: Vec<Placement>,
}

impl Model for Record {
    ghost use Rattle.merge_record.specs.RecordValue.{RecordValue};

    ghost Value = { RecordValue };

    ghost view = { λ r. record
        { group = r.group; removals = r.removals.items; placements = r.placements.items } };
}
