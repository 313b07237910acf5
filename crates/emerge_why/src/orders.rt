use crate::plans::push_rule;
use crate::telling::{say, say_all};
use dep_atom::PackageId;
use plan_rules::PlanRefused;
use std::alloc::{AllocError, Global};

/// How many packages are told of, each on a line.
const MOST_TOLD: usize = 20;

/// Packages that are chosen wait for each other.
pub(crate) fn push_cycle(
    alloc: Global,
    lines: &mut Vec<String>,
    packages: &[PackageId],
) -> Result<(), AllocError> {
    if packages.len() < 2 {
        say(
            alloc,
            lines,
            "what was chosen has to be there before it can be built, and isn't:",
        )?;
    } else {
        say(
            alloc,
            lines,
            "what was chosen can't be built in any order: of these packages each waits for the others",
        )?;
    }
    for package in packages.iter().take(MOST_TOLD) {
        let id = package.print(alloc)?;
        lines.push(format!(in alloc; "  {id}")?)?;
    }
    let more = packages.len().saturating_sub(MOST_TOLD);
    if more > 0 {
        lines.push(format!(in alloc;
            "  and {more} more, which the last line of the output names"
        )?)?;
    }
    say_all(
        alloc,
        lines,
        &[
            "merge one of them by a command of its own first, in a version or with USE flags that need",
            "none of the others for the build; or write a plan that has an order (--plan). Nothing was",
            "merged",
        ],
    )
}

/// What is chosen comes in no order of groups.
pub(crate) fn push_no_order(
    alloc: Global,
    lines: &mut Vec<String>,
    fault: &PlanRefused,
) -> Result<(), AllocError> {
    say_all(
        alloc,
        lines,
        &[
            "what was chosen goes together, and there is no order in which it may come: two plans were",
            "tried, and the last one, whose groups only wait for what is needed for a build, is refused:",
        ],
    )?;
    push_rule(alloc, lines, fault)?;
    say_all(
        alloc,
        lines,
        &[
            "groups count from 1 in that plan, and 0 is what is installed. Take what is in the way out",
            "first (--unmerge), or ask for another version; name packages that have nothing to do with",
            "it by a command of their own. Nothing was merged",
        ],
    )
}
