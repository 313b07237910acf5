/// The bytes that each record begins with: `EMJR` and the number of the format.
pub(crate) const LEAD: [u8; 5] = *b"EMJR\x01";

/// The greatest size of a record, in bytes.
pub const MOST_RECORD_BYTES: usize = 536_870_912;

/// The greatest number of paths of one group, its removals and placements together.
pub const MOST_GROUP_PATHS: usize = 4_194_304;

/// The greatest length of one file that a group places, in bytes.
pub const MOST_FILE_BYTES: u64 = 268_435_456;
