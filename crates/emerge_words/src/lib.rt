//! The words of a run: flags, options, numbers and atoms, read as one request.
//!
//! **A contract sees** the words as a list of texts, and the answer as a [`Request`]. What `clap`
//! makes of the words is a *line* (`line_of` of `specs/Lines.antt`); the table of commands is
//! `kind_of` of `specs/Commands.antt`, and `specs/Requests.antt` says what a line asks for.
//!
//! **Proved**: an answer is what the words ask for (`IsRequest`), and a refusal has its cause
//! (`IsRefusal`): Usage only where `clap` refuses the words or no command has them, and else the
//! first option whose text is no number in its range, or else the first word that is no atom
//! without a block. No words are both a request and refused, and words are refused for one
//! cause (`one_answer`). What the words say of the host, its folders and its jobs, is that of the
//! request ([`host_of`]).
//!
//! **Only tested**: with ample memory no words are refused for want of it.
//!
//! Help and version are switched off, so `--help` is Usage.
//!
//! ```
//! let request = read(alloc, words.as_slice())?;
//! assert!(request.jobs == 2);
//! ```
#![tactic(auto)]

mod atoms;
mod clap_app;
mod host;
mod kind;
mod laws;
mod line;
mod numbers;
mod reading;
mod request;

pub use host::{Host, host_of};
pub use laws::one_answer;
pub use numbers::{MOST_BACKTRACK, MOST_FLAG_CHANGES, MOST_JOBS, MOST_LOAD};
pub use reading::read;
pub use request::{Command, Request, WordFault};
