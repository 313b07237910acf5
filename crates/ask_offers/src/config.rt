//! What is configured, as the fields of a line:
//!
//! | field | what it tells |
//! |---|---|
//! | `default LINE:KEY=VALUE`, `conf LINE:KEY=VALUE` | an assignment of the profile, of the user |
//! | `profile_use TEXT`, `use TEXT` | a rule of the profile, of the user |
//! | `mask TEXT`, `unmask TEXT`, `keywords TEXT` | a mask, an unmask, a line of keywords |
//! | `hide TEXT`, `force TEXT` | flags that are masked, that are forced |
//!
//! or the fault: its name, its path where it has one, and its line.

use crate::faults::fault_text;
use ask_lines::push_between;
use config_text::Assignment;
use file_tree::Path;
use profile_lines::{Item, ReadFault, read};
use profile_stack::{MAKE_PROFILE, UserConfig, read_user};
use std::alloc::{AllocError, Global};
use tree_mem::MemTree;

/// All that is configured in the tree, or its fault.
pub(crate) fn answer(alloc: Global, tree: &mut MemTree) -> Result<String, AllocError> {
    match read_config(alloc, tree) {
        Ok(config) => told(alloc, &config),
        Err(fault) => fault_text(alloc, &fault),
    }
}

/// The profile and the user's files of a tree.
pub(crate) fn read_config(alloc: Global, tree: &mut MemTree) -> Result<UserConfig, ReadFault> {
    let path = path_of_profile(alloc)?;
    let profile = read(alloc, tree, &path)?;
    read_user(alloc, tree, profile)
}

#[tactic(auto, unfolding(file_tree::specs::Paths::is_path))]
fn path_of_profile(alloc: Global) -> Result<Path, AllocError> {
    Path::of(alloc, MAKE_PROFILE)
}

fn told(alloc: Global, config: &UserConfig) -> Result<String, AllocError> {
    let mut out = String::new(alloc);
    push_set(&mut out, "default", &config.defaults)?;
    push_set(&mut out, "conf", &config.conf)?;
    push_items(&mut out, "profile_use", &config.profile_uses)?;
    push_items(&mut out, "use", &config.uses)?;
    push_items(&mut out, "mask", &config.masks)?;
    push_items(&mut out, "unmask", &config.unmasks)?;
    push_items(&mut out, "keywords", &config.keywords)?;
    push_items(&mut out, "hide", &config.hides)?;
    push_items(&mut out, "force", &config.forces)?;
    Ok(out)
}

fn push_set(out: &mut String, word: &str, set: &[Assignment]) -> Result<(), AllocError> {
    for assignment in set {
        push_between(out, "\t")?;
        push_assignment(out, word, assignment)?;
    }
    Ok(())
}

fn push_assignment(out: &mut String, word: &str, one: &Assignment) -> Result<(), AllocError> {
    let line = one.line;
    let key = one.key.as_str();
    let value = one.value.as_str();
    write!(out, "{word} {line}:{key}={value}")
}

fn push_items(out: &mut String, word: &str, items: &[Item]) -> Result<(), AllocError> {
    for item in items {
        push_between(out, "\t")?;
        let text = item.text.as_str();
        write!(out, "{word} {text}")?;
    }
    Ok(())
}
