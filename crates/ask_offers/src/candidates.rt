//! Which candidates of a tree's repository are visible, as the fields of a line:
//!
//! | field | what it tells |
//! |---|---|
//! | `visible ID` | a visible candidate |
//! | `REASON ID` | another one, with the reason why it is hidden |
//!
//! first the visible ones, both in the order of the answer; or `config`, where the profile or the
//! user's files are at fault, or `failed`, where a call of the tree fails. For all packages the words
//! of the last ACCEPT_KEYWORDS of `make.conf` are accepted, or else of the profile, and a line of
//! package.accept_keywords without words has the word `~ARCH`.

use crate::config::read_config;
use crate::keywords::{Accepted, accepted_of};
use crate::told::{push_one, word_of};
use file_tree::TreeFault;
use profile_folders::ProfileFault;
use profile_lines::{Item, ReadFault};
use profile_stack::UserConfig;
use std::alloc::{AllocError, Global};
use tree_mem::MemTree;
use visible_rules::{Keywords, Masks};
use visible_verdicts::{Candidates, VisibleRules, candidates};

/// The candidates of the tree, or why none are told.
pub(crate) fn answer(alloc: Global, tree: &mut MemTree) -> Result<String, AllocError> {
    match read_config(alloc, tree) {
        Ok(config) => answer_text(alloc, found(alloc, tree, config)),
        Err(fault) => fault_text(alloc, &fault),
    }
}

/// The candidates of the tree's repository, by what is configured.
fn found(alloc: Global, tree: &mut MemTree, config: UserConfig) -> Result<Candidates, TreeFault> {
    let UserConfig {
        defaults,
        conf,
        masks,
        unmasks,
        keywords,
        ..
    } = config;
    let accepted = accepted_of(alloc, &conf, &defaults, keywords)?;
    let rules = rules_of(alloc, &accepted, &masks, &unmasks)?;
    candidates(alloc, tree, &rules)
}

fn rules_of<'a>(
    alloc: Global,
    accepted: &'a Accepted,
    masks: &'a [Item],
    unmasks: &'a [Item],
) -> Result<VisibleRules<'a>, AllocError> {
    let masks = Masks::new(alloc, masks)?;
    let unmasks = Masks::new(alloc, unmasks)?;
    let keywords = Keywords::new(alloc, &accepted.standing, &accepted.bare, &accepted.lines)?;
    Ok(VisibleRules {
        masks,
        unmasks,
        keywords,
    })
}

fn answer_text(alloc: Global, answer: Result<Candidates, TreeFault>) -> Result<String, AllocError> {
    match answer {
        Ok(found) => told(alloc, &found),
        Err(TreeFault::Failed) => String::from_str(alloc, "failed"),
        Err(TreeFault::Memory) => Err(AllocError),
    }
}

fn told(alloc: Global, found: &Candidates) -> Result<String, AllocError> {
    let mut out = String::new(alloc);
    for entry in &found.visible {
        push_one(alloc, &mut out, "visible", &entry.pkg.facts.id)?;
    }
    for hidden in &found.hidden {
        push_one(alloc, &mut out, word_of(hidden.reason), &hidden.id)?;
    }
    Ok(out)
}

/// The word for what keeps the configuration from being read.
fn fault_text(alloc: Global, fault: &ReadFault) -> Result<String, AllocError> {
    match fault {
        ReadFault::Profile(ProfileFault::Tree(TreeFault::Failed)) => {
            String::from_str(alloc, "failed")
        }
        ReadFault::Profile(ProfileFault::Tree(TreeFault::Memory)) => Err(AllocError),
        _ => String::from_str(alloc, "config"),
    }
}
