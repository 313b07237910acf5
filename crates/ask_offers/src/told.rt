//! Candidates, and why they are hidden, as the fields of a line.

use ask_lines::push_between;
use dep_atom::PackageId;
use std::alloc::{AllocError, Global};
use visible_verdicts::Reason;

/// Adds a word and a candidate.
pub(crate) fn push_one(
    alloc: Global,
    out: &mut String,
    word: &str,
    id: &PackageId,
) -> Result<(), AllocError> {
    let id = id.print(alloc)?;
    let id = id.as_str();
    push_between(out, "\t")?;
    write!(out, "{word} {id}")
}

/// The word for why a candidate isn't visible.
pub(crate) fn word_of(reason: Reason) -> &'static str {
    match reason {
        Reason::NoEbuild => "no_ebuild",
        Reason::Eapi => "eapi",
        Reason::Stale => "stale",
        Reason::BadEntry => "bad_entry",
        Reason::Keyword => "keyword",
        Reason::Masked => "masked",
    }
}
