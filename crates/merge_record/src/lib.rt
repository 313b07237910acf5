//! The journal's record: what one group removes and places, as bytes.
//!
//! **A contract sees** a [`Record`] as its group, its removals and its placements, each of these a
//! path, a kind, a length and a digest.
//!
//! **Proved**: a record has one spelling, whatever is read is spelled so, and the fault of any
//! other text is the first.
//!
//! **Only tested**: digests, by those of RFC 1321, and that with ample memory each call answers.
//!
//! ```
//! let bytes = encode(alloc, &record)?;
//! let same = decode(alloc, &bytes)?;
//! ```
#![tactic(auto)]

mod digest;
mod fault;
mod laws;
mod limits;
mod reading;
mod record;
mod writing;

pub use digest::digest_of;
pub use fault::DecodeFault;
pub use laws::one_spelling;
pub use limits::{MOST_FILE_BYTES, MOST_GROUP_PATHS, MOST_RECORD_BYTES};
pub use reading::decode;
pub use record::{OwnerKey, Placement, Record};
pub use writing::{byte_of, decode_encode, encode};
