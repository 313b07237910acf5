//! Recoveries of trees that a crash may have left.

use crate::openings::{stop_behind, unrecovered};
use crate::outcomes::push_tree;
use file_tree::TreeFault;
use recovery::{RecoverFault, recover};
use std::alloc::{AllocError, Global};
use std::io;
use tree_mem::MemTree;

/// How a recovery ended, and what it left.
pub fn answer(alloc: Global, fields: &str) -> io::Result<String> {
    let mut tree = unrecovered(alloc, fields)?;
    tree.stop_at(stop_behind(fields, 0)?);
    let mut text = ended(alloc, &mut tree)?;
    push_tree(alloc, &mut text, &tree, 0, fields)?;
    Ok(text)
}

/// The groups that a recovery completed, or why there was none.
fn ended(alloc: Global, tree: &mut MemTree) -> Result<String, AllocError> {
    match recover(alloc, tree) {
        Ok(recovered) => completed(alloc, &recovered.completed),
        Err(RecoverFault::BadRecord { group }) => format!(in alloc; "record {group}"),
        Err(RecoverFault::BadStage { group, index }) => {
            format!(in alloc; "stage {index} of {group}")
        }
        Err(RecoverFault::Limit) => String::from_str(alloc, "limit"),
        Err(RecoverFault::Tree(TreeFault::Failed)) => String::from_str(alloc, "failed"),
        Err(RecoverFault::Tree(TreeFault::Memory)) => Err(AllocError),
    }
}

fn completed(alloc: Global, groups: &[u32]) -> Result<String, AllocError> {
    let mut text = String::from_str(alloc, "ok")?;
    for group in groups {
        write!(text, " {group}")?;
    }
    Ok(text)
}
