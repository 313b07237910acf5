//! The flags of a candidate, as the profile and the user's files have them, and the packages that may
//! come of it.
//!
//! **A contract sees** a word of a variable with what the names of its flags begin with, a setting
//! as which flags it has on, an entry as `md5_cache` does, and [`FlagConfig`] as its lists.
//!
//! **Proved**: the words of variables are those of the assignments that count, file by file and in
//! the order of their lines. Of a flag the last word counts that speaks of it: `-*` speaks of all
//! flags of its variable, and that of USE of all flags. A flag that a candidate knows is on by the
//! profile's variables, then its `package.use`, then `make.conf`, then the user's `package.use`;
//! then the forced ones are on, and the masked ones off (`is_base` of `specs/Flags.antt`). The
//! implicit flags are on whatever these say. [`offer`] gives a package for each setting that may be
//! chosen, in their order, and the package with the implicit flags alone.
//!
//! **Only tested**: that with ample memory this is answered.
//!
//! The words are gone through for each candidate, and of the items of flags those that have no atom or
//! an atom of its name.
//!
//! ```
//! let words = flag_words(alloc, &variables, &files)?;
//! let candidate = offer(alloc, &config, &entry, 2)?;
//! ```
#![tactic(auto)]

mod candidate;
mod changes;
mod choosing;
mod config;
mod implicit;
mod offering;
mod said;
mod word;
mod words;

pub use candidate::Candidate;
pub use config::FlagConfig;
pub use implicit::implicit_flags;
pub use offering::offer;
pub use word::FlagWord;
pub use words::flag_words;
