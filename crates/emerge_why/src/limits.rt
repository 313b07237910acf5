use crate::telling::say_all;
use file_tree::Quantity;
use merge_report::Part;
use std::alloc::{AllocError, Global};

/// What stands after a run that was stopped by its surroundings.
const STANDS: &str =
    "run the command again, which first completes or drops what was begun; clean nothing by hand";

/// The disk failed.
pub(crate) fn push_device(alloc: Global, lines: &mut Vec<String>) -> Result<(), AllocError> {
    say_all(
        alloc,
        lines,
        &[
            "a call on the disk failed: the line above names it with its file and the system's reason",
            "such as no space left, no permission, or a link in the place of a folder. Remove the cause, and",
            STANDS,
        ],
    )
}

/// A line couldn't be written.
pub(crate) fn push_output(alloc: Global, lines: &mut Vec<String>) -> Result<(), AllocError> {
    say_all(
        alloc,
        lines,
        &[
            "a line couldn't be written to the standard output: a full disk or a closed pipe behind it",
            "the packages may be installed: run the command again, and it answers `ok 0` where they are",
        ],
    )
}

/// Memory ran out.
pub(crate) fn push_memory(alloc: Global, lines: &mut Vec<String>) -> Result<(), AllocError> {
    say_all(
        alloc,
        lines,
        &["there was not enough memory; free some, and", STANDS],
    )
}

/// There is too much of something.
pub(crate) fn push_limit(
    alloc: Global,
    lines: &mut Vec<String>,
    quantity: Quantity,
) -> Result<(), AllocError> {
    let (what, help) = told_limit(quantity);
    say_all(alloc, lines, &[what, help])
}

/// What there is too much of, and what helps.
fn told_limit(quantity: Quantity) -> (&'static str, &'static str) {
    match quantity {
        Quantity::Groups => (
            "the plan has more than 4096 groups, or below var/lib/portage/jobs lie as many unfinished",
            "ones of stopped runs: ask for fewer packages, split the plan, or move away what no run left",
        ),
        Quantity::Packages => (
            "more than 65536 packages are installed, which this program can't handle",
            "remove some with another package manager",
        ),
        Quantity::Candidates => (
            "more than 131072 versions of packages may come, which this program can't handle",
            "mask those that nobody needs in package.mask, or keep fewer in the repository",
        ),
        Quantity::Paths => (
            "a package has more than 100000 files, or all packages together have more than 4194304",
            "split the package, or remove one that isn't needed",
        ),
        Quantity::RecordBytes => (
            "what the program has to note of one group of packages is too long",
            "split the group in the plan",
        ),
    }
}

/// What isn't there yet.
pub(crate) fn push_part(
    alloc: Global,
    lines: &mut Vec<String>,
    what: Part,
) -> Result<(), AllocError> {
    match what {
        Part::Command => {
            say_all(
                alloc,
                lines,
                &[
                    "--repair and --load aren't there yet: the program can install, update and take away",
                    "packages that are named, and follow a plan (--plan). Nothing was changed",
                ],
            )
        }
        Part::Result => {
            say_all(
                alloc,
                lines,
                &[
                    "a package that was chosen isn't offered as the plan for it says, which is a fault of this",
                    "program. Ask for it by a command of its own, or for another version; nothing was merged",
                ],
            )
        }
    }
}
