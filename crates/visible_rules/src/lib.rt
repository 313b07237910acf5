//! What the configuration says of one candidate: whether it is masked, which of its keywords are
//! accepted, and the rules of its flags.
//!
//! **A contract sees** [`Masks`] and [`FlagItems`] as the lists of their items, [`Keywords`] as what
//! stands for all packages and the list of the lines, and a set of flags as which flags it has. Atoms
//! match for an asker without flags.
//!
//! **Proved**: whether some mask of a list matches a package is told exactly; a keyword is accepted
//! exactly where the last word that speaks of it adds it, or none speaks of it and it
//! stands for all; the changes of flags are those of the items that count, in their order, and the
//! flags that are forced or masked are those that such changes make of none.
//!
//! **Only tested**: that with ample memory this is answered.
//!
//! Masks, lines and items of flags are put under the names of their atoms once, in time n log n. A
//! package is then judged in the time that those of its own name take, and keywords by their number
//! times the logarithm of the number of words. Items of flags that have no atom count for each
//! package, and are gone through for each.
//!
//! ```
//! let masks = Masks::new(alloc, &profile.masks)?;
//! let is_masked = masks.any(alloc, &facts) && !unmasks.any(alloc, &facts);
//! ```
#![tactic(auto)]

mod flags;
mod keywords;
mod line;
mod masks;
mod meaning;
mod named;
mod near;
mod said;

pub use flags::FlagItems;
pub use keywords::Keywords;
pub use line::KeywordLine;
pub use masks::Masks;
