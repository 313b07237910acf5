ghost use Rattle.std.specs.Prelude.{IfOk, string_bytes};
ghost use Rattle.emerge_why.specs.Told.{IsTold};

use crate::telling::{say, say_all, told};
use std::alloc::{AllocError, Global};

/// Why a run didn't begin whose tree another run holds; what to do where `is_quiet` is false.
pub fn why_locked(alloc: Global, tree: &str, is_quiet: bool) -> Result<String, AllocError>
    ensures { IfOk result (λ t. IsTold (string_bytes t)) }
{
    let mut lines = Vec::new(alloc);
    lines.push(format!(in alloc; "another run holds the tree {tree}")?)?;
    if !is_quiet {
        say(
            alloc,
            &mut lines,
            "nothing was read or changed; wait for that run to end, and run the command again",
        )?;
    }
    told(alloc, &lines)
}

/// Why a run didn't begin whose tree can't be opened, with the system's error; what to do where
/// `is_quiet` is false.
pub fn why_unopened(
    alloc: Global,
    tree: &str,
    error: &str,
    is_quiet: bool,
) -> Result<String, AllocError>
    ensures { IfOk result (λ t. IsTold (string_bytes t)) }
{
    let mut lines = Vec::new(alloc);
    lines.push(format!(in alloc; "the tree {tree} can't be opened: {error}")?)?;
    if !is_quiet {
        say_all(
            alloc,
            &mut lines,
            &[
                "the tree is the folder that holds the system, / if --tree names none: it has to be a",
                "folder that is there and that you may read; make it, correct its name, or run as root",
            ],
        )?;
    }
    told(alloc, &lines)
}
