ghost use Rattle.std.specs.Prelude.{◌≡◌, ◌≤◌, [], IfOk, None, OnOk, length};
ghost use Rattle.std.specs.List.{list_all};
ghost use Rattle.choice_search.specs.Frames.{AreAmong, IsAhead, levels_at, next_if, resumed, to_try};
ghost use Rattle.choice_search.specs.Visit.{barren, joined, seen_as, with_line};

use crate::frame::Frame;
use crate::tree::Tree;
use std::alloc::{AllocError, Global};

fn knows_all<C, S, T: Tree<C, S>>(tree: &T, lines: &[usize]) -> bool
    ensures { result ≡ list_all ((T.shape tree.now).knows (T.path tree.now).here) lines.now }
{
    for line in lines {
        if !tree.knows(*line) {
            return false;
        }
    }
    true
}

// The line comes to the cause, if the choice knows it and it isn't there yet.
fn add<C, S, T: Tree<C, S>>(tree: &T, cause: &mut Vec<usize>, line: usize) -> Result<(), AllocError>
    ensures { OnOk result (cause.new.items ≡
        with_line ((T.shape tree.now).knows (T.path tree.now).here) cause.old.items line) }
{
    if tree.knows(line) && !cause.contains(&line) {
        cause.push(line)?;
    }
    Ok(())
}

// What the choice knows of these lines comes to the cause.
fn join<C, S, T: Tree<C, S>>(
    tree: &T,
    cause: &mut Vec<usize>,
    lines: &[usize],
) -> Result<(), AllocError>
    ensures { OnOk result (cause.new.items ≡
        joined ((T.shape tree.now).knows (T.path tree.now).here) cause.old.items lines.now) }
{
    for line in lines {
        add(tree, cause, *line)?;
    }
    Ok(())
}

/// What the choice knows of its reason comes to the cause.
pub(crate) fn join_reason<C, S, T: Tree<C, S>>(
    alloc: Global,
    tree: &mut T,
    cause: &mut Vec<usize>,
) -> Result<(), AllocError>
    ensures same { T.shape tree.new ≡ T.shape tree.old }
    ensures stays { T.path tree.new ≡ T.path tree.old }
    ensures cause { OnOk result (cause.new.items ≡
        joined ((T.shape tree.old).knows (T.path tree.old).here)
        cause.old.items ((T.shape tree.old).reason (T.path tree.old).here)) }
{
    let reason = tree.reason(alloc)?;
    join(tree, cause, &reason)
}

/// Goes back from a choice that is barren with this cause to the next one that is to be tried, if
/// there is one.
pub(crate) fn go_back<C, S: Drop, T: Tree<C, S>>(
    alloc: Global,
    tree: &mut T,
    frames: &mut Vec<Frame<S>>,
    mut cause: Vec<usize>,
) -> Result<bool, AllocError>
    requires { length frames.old.items ≤ length (T.path tree.old).above }
    ensures same { T.shape tree.new ≡ T.shape tree.old }
    ensures above { OnOk result (length frames.new.items ≤ length (T.path tree.new).above) }
    ensures ahead { IfOk result (λ more. IsAhead (T.shape tree.old)
        (levels_at T.option_by (T.path tree.new) frames.new.items)
        (resumed (T.shape tree.old)
        (levels_at T.option_by (T.path tree.old) frames.old.items)
        (seen_as [] (barren cause.items)))
        (next_if more (T.path tree.new))) }
    ensures among { IfOk result (λ more. AreAmong
        (to_try (levels_at T.option_by (T.path tree.new) frames.new.items)
        (next_if more (T.path tree.new)))
        (to_try (levels_at T.option_by (T.path tree.old) frames.old.items) None)) }
{
    while let Some(frame) = frames.pop() {
        tree.back(alloc)?;
        let Frame {
            cause: mut whole,
            mut rest,
        } = frame;
        if !knows_all(tree, &cause) {
            join(tree, &mut whole, &cause)?;
            if let Some(step) = rest.pop() {
                frames.push(Frame { cause: whole, rest })?;
                tree.go(alloc, step)?;
                return Ok(true);
            }
            join_reason(alloc, tree, &mut whole)?;
            cause = whole;
        }
    }
    Ok(false)
}
