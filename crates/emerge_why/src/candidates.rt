use crate::dead::push_dead;
use crate::telling::{say, say_all};
use crate::words::{is_unmerge, root_of};
use choice_ends::DeadEnd;
use dep_atom::Atom;
use emerge_choose::{NotTaken, Reason};
use emerge_words::MOST_BACKTRACK;
use std::alloc::{AllocError, Global};

/// How many versions are told of, each with its reason.
const MOST_TOLD: usize = 20;

/// Why nothing that an atom matches can come.
pub(crate) fn push_no_candidate(
    alloc: Global,
    lines: &mut Vec<String>,
    words: &[String],
    atom: &Atom,
    reasons: &[NotTaken],
) -> Result<(), AllocError> {
    let root = root_of(words);
    let text = atom.print(alloc)?;
    if is_unmerge(words) {
        return push_not_installed(alloc, lines, root, text.as_str());
    }
    if reasons.is_empty() {
        lines.push(format!(in alloc;
            "no package of the name that {text} asks for is in the repository"
        )?)?;
        lines.push(format!(in alloc;
            "look for a slip in the name, or sync the repository below {root}/var/db/repos/gentoo"
        )?)?;
        return Ok(());
    }
    lines.push(format!(in alloc; "nothing that {text} asks for can be installed:")?)?;
    for reason in reasons.iter().take(MOST_TOLD) {
        push_reason(alloc, lines, reason)?;
    }
    let more = reasons.len().saturating_sub(MOST_TOLD);
    if more > 0 {
        lines.push(format!(in alloc;
            "  and {more} more, which the last line of the output names"
        )?)?;
    }
    lines.push(format!(in alloc;
        "the files that these lines name stand in {root}/etc/portage; nothing was merged"
    )?)?;
    Ok(())
}

/// Nothing that an atom matches is there to be taken away.
fn push_not_installed(
    alloc: Global,
    lines: &mut Vec<String>,
    root: &str,
    atom: &str,
) -> Result<(), AllocError> {
    lines.push(format!(in alloc;
        "nothing that {atom} asks for is installed, so nothing was taken away"
    )?)?;
    lines.push(format!(in alloc; "the folders below {root}/var/db/pkg are what is installed")?)?;
    Ok(())
}

/// Why one version can't come, and what helps.
fn push_reason(alloc: Global, lines: &mut Vec<String>, one: &NotTaken) -> Result<(), AllocError> {
    let id = one.id.print(alloc)?;
    match one.reason {
        Reason::Keyword => {
            lines.push(format!(in alloc;
                "  {id}: none of its keywords is accepted; a line `={id} ~amd64` in"
            )?)?;
            say(
                alloc,
                lines,
                "    package.accept_keywords accepts the testing one (with your ARCH for amd64)",
            )
        }
        Reason::Masked => {
            lines.push(format!(in alloc;
                "  {id}: it is masked; a line `={id}` in package.unmask lets it come"
            )?)?;
            Ok(())
        }
        other => {
            let told = told_reason(other);
            lines.push(format!(in alloc; "  {id}: {told}")?)?;
            Ok(())
        }
    }
}

/// The reason in words.
fn told_reason(reason: Reason) -> &'static str {
    match reason {
        Reason::NoEbuild => "the repository has its entry and not its ebuild: sync the repository",
        Reason::Eapi => "it is of another edition (EAPI) than those that are read here, 5 to 8",
        Reason::Stale =>
            "its entry in the repository was made of another ebuild: sync the repository",
        Reason::BadEntry => "its entry in the repository has a fault: sync the repository",
        Reason::Keyword => "none of its keywords is accepted",
        Reason::Masked => "it is masked",
        Reason::RequiredUse => {
            "its USE flags don't go together: change them in package.use, or by --flag-changes"
        }
        Reason::NotMatched => "it could come, but isn't what was asked for",
    }
}

/// No choice of packages serves what was asked for.
pub(crate) fn push_no_solution(
    alloc: Global,
    lines: &mut Vec<String>,
    dead: &[DeadEnd],
) -> Result<(), AllocError> {
    say_all(
        alloc,
        lines,
        &[
            "every choice was tried: no versions have all that was asked for, with all that they need",
            "and nothing that keeps one of them out",
        ],
    )?;
    push_dead(alloc, lines, dead)?;
    say_all(
        alloc,
        lines,
        &[
            "ask for another version, accept a keyword or unmask a package that is needed, or give",
            "--flag-changes 1 (or 2) where a USE flag is in the way. Nothing was merged",
        ],
    )
}

/// The search was given up.
pub(crate) fn push_backtrack(
    alloc: Global,
    lines: &mut Vec<String>,
    tried: usize,
    dead: &[DeadEnd],
) -> Result<(), AllocError> {
    lines.push(format!(in alloc;
        "the search was given up; choices of packages that were tried in vain: {tried}"
    )?)?;
    push_dead(alloc, lines, dead)?;
    lines.push(format!(in alloc;
        "a later one may be good: give --backtrack a greater number, up to {MOST_BACKTRACK}"
    )?)?;
    Ok(())
}
