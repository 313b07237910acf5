//! Entries of the repository's cache: what the ebuild of a package says of it.
//!
//! **A contract sees** an entry's text as the pairs of its lines, a pair as its key and its value, and
//! an entry as plain data: the package, the flags that are on by default, and the keywords.
//!
//! **Proved**: the pairs are exactly those of the lines, each parted at its first equals sign; a text
//! that isn't UTF-8, has a line without an equals sign or a key twice is refused for the first of
//! these. Pairs are taken exactly where EAPI is 8, SLOT and `_md5_` are there and each value is in
//! form, and else refused for their first fault. An entry is read where `_md5_` is the digest of the
//! ebuild, as what its pairs tell of the package, and else it is stale, with both digests.
//!
//! **Only tested**: that with ample memory an entry is read. A text of n bytes is read in a time that
//! grows as n, and as the number of its lines times the logarithm of it; each value is read twice,
//! once to judge it.
//!
//! ```
//! let entry = read_entry(alloc, id, b"EAPI=8\nSLOT=0\n_md5_=..\n", ebuild)?;
//! ```
#![tactic(auto)]

mod digest;
mod entry;
mod fault;
mod field;
mod form;
mod pair;
mod parts;
mod repeated;

pub use entry::{CacheEntry, read_entry};
pub use fault::{CacheFault, FieldFault, PairFault};
pub use field::{check_fields, value_under};
pub use pair::{Pair, pairs};
