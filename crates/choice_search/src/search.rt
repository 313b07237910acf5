ghost use Rattle.std.specs.Prelude.{◌≡◌, ◌==◌, IfOk, length};
ghost use Rattle.choice_search.specs.Visit.{IsOutcome, visit};

use crate::back::{go_back, join_reason};
use crate::frame::Frame;
use crate::outcome::Outcome;
use crate::tree::Tree;
use std::alloc::{AllocError, Global};

// Whether as many dead leaves were met as are allowed.
fn is_full<C>(dead: &Vec<C>, limit: usize) -> bool
    ensures { result ≡ (length dead.now.items == limit) }
{
    dead.len() == limit
}

/// Looks for the first good leaf below the choice where one is, and gives up at the dead leaf with
/// this number. At a dead end it goes back to a choice that had a part in it.
pub fn first_good<C: Drop, S: Drop, T: Tree<C, S>>(
    alloc: Global,
    tree: &mut T,
    limit: usize,
) -> Result<Outcome<C>, AllocError>
    ensures same { T.shape tree.new ≡ T.shape tree.old }
    ensures outcome { IfOk result
        (IsOutcome (visit (T.shape tree.old) (T.path tree.old).here) limit) }
{
    let mut dead = Vec::new(alloc);
    if limit == 0 {
        return Ok(Outcome::Limit(dead));
    }
    let mut frames = Vec::new(alloc);
    let mut more = true;
    while more {
        let Some(mut rest) = tree.options(alloc)? else {
            let choice = tree.choice(alloc)?;
            return Ok(Outcome::Found(choice));
        };
        rest.reverse();
        let mut cause = Vec::new(alloc);
        if let Some(step) = rest.pop() {
            frames.push(Frame { cause, rest })?;
            tree.go(alloc, step)?;
        } else {
            join_reason(alloc, tree, &mut cause)?;
            dead.push(tree.choice(alloc)?)?;
            if is_full(&dead, limit) {
                return Ok(Outcome::Limit(dead));
            }
            more = go_back(alloc, tree, &mut frames, cause)?;
        }
    }
    Ok(Outcome::NoneGood(dead))
}
