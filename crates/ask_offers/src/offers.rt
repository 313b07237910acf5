//! What a tree offers, as the fields of a line:
//!
//! | field | what it tells |
//! |---|---|
//! | `implicit FLAG ..` | the flags that are on for all packages |
//! | `offer ID FLAG ..` | a candidate, with the flags of the package that is offered |
//! | `variant FLAG ..` | one of its variants, with its flags |
//! | `REASON ID` | a candidate that is hidden, with the reason |
//!
//! in the order of the answer; or `text LINE PATH`, `limit`, or `failed`, where a call of the tree
//! fails.

use crate::told::{push_one, word_of};
use file_tree::TreeFault;
use pms_names::Flags;
use std::alloc::{AllocError, Global};
use tree_mem::MemTree;
use visible_offers::Candidate;
use visible_set::{Offers, OffersFault, Reason, read_offers};

/// What the tree offers where so many flags may be flipped, or why it offers nothing.
pub(crate) fn answer(alloc: Global, tree: &mut MemTree, flips: u32) -> Result<String, AllocError> {
    match read_offers(alloc, tree, flips) {
        Ok(offers) => told(alloc, &offers),
        Err(fault) => fault_text(alloc, &fault),
    }
}

fn fault_text(alloc: Global, fault: &OffersFault) -> Result<String, AllocError> {
    match fault {
        OffersFault::Text { path, line } => {
            let path = path.text();
            format!(in alloc; "text {line} {path}")
        }
        OffersFault::Limit => String::from_str(alloc, "limit"),
        OffersFault::Tree(TreeFault::Failed) => String::from_str(alloc, "failed"),
        OffersFault::Tree(TreeFault::Memory) => Err(AllocError),
    }
}

fn told(alloc: Global, offers: &Offers) -> Result<String, AllocError> {
    let mut out = String::from_str(alloc, "implicit")?;
    push_flags(&mut out, &offers.implicit)?;
    for candidate in &offers.candidates {
        push_candidate(alloc, &mut out, candidate)?;
    }
    for hidden in &offers.hidden {
        push_one(alloc, &mut out, hidden_word(hidden.reason), &hidden.id)?;
    }
    Ok(out)
}

fn push_candidate(alloc: Global, out: &mut String, one: &Candidate) -> Result<(), AllocError> {
    push_one(alloc, out, "offer", &one.offered.facts.id)?;
    push_flags(out, &one.offered.facts.enabled)?;
    for variant in &one.variants {
        out.push_str("\tvariant")?;
        push_flags(out, &variant.facts.enabled)?;
    }
    Ok(())
}

fn push_flags(out: &mut String, flags: &Flags) -> Result<(), AllocError> {
    for flag in flags.list() {
        out.push_str(" ")?;
        out.push_str(flag.text())?;
    }
    Ok(())
}

fn hidden_word(reason: Reason) -> &'static str {
    match reason {
        Reason::RequiredUse => "required_use",
        Reason::NotVisible(reason) => word_of(reason),
    }
}
