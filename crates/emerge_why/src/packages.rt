use crate::telling::{say, say_all};
use dep_atom::{Atom, PackageId};
use pkg_state::Broken;
use recovery::RecoverFault;
use std::alloc::{AllocError, Global};
use vdb_text::DatabaseFault;

/// What is wrong with the list of installed packages.
pub(crate) fn push_database(
    alloc: Global,
    lines: &mut Vec<String>,
    root: &str,
    fault: &DatabaseFault,
) -> Result<(), AllocError> {
    match fault {
        DatabaseFault::OwnedTwice { path } => {
            let path = path.text();
            lines.push(format!(in alloc;
                "two installed packages both say that {root}/{path} is theirs"
            )?)?;
            return push_owners(alloc, lines, root);
        }
        DatabaseFault::Nested { path, below } => {
            let path = path.text();
            let below = below.text();
            lines.push(format!(in alloc;
                "an installed package has {root}/{path} as a file, and one has"
            )?)?;
            lines.push(format!(in alloc;
                "{root}/{below}, for which it would have to be a folder"
            )?)?;
            return push_owners(alloc, lines, root);
        }
        other => push_record(alloc, lines, root, other)?,
    }
    lines.push(format!(in alloc;
        "that is a record of an installed package: each has a folder below {root}/var/db/pkg"
    )?)?;
    say(
        alloc,
        lines,
        "put the file back from a backup, or have the package manager that wrote it do so",
    )
}

/// What is wrong with one record.
fn push_record(
    alloc: Global,
    lines: &mut Vec<String>,
    root: &str,
    fault: &DatabaseFault,
) -> Result<(), AllocError> {
    let line = match fault {
        DatabaseFault::Name { path } => {
            let path = path.text();
            format!(in alloc; "the name of the folder {root}/{path} is no package with its version")
        }
        DatabaseFault::Missing { path } => {
            let path = path.text();
            format!(in alloc; "the file {root}/{path} is missing")
        }
        DatabaseFault::Eapi { path } => {
            let path = path.text();
            format!(in alloc;
                "{root}/{path} names another edition (EAPI) than those that are read here, 5 to 8"
            )
        }
        DatabaseFault::Text { path, line } => {
            let path = path.text();
            format!(in alloc; "line {line} of {root}/{path} isn't as it should be")
        }
        DatabaseFault::Dep { path, at } => {
            let path = path.text();
            format!(in alloc;
                "{root}/{path} lists no packages that are needed: it goes wrong at byte {at}"
            )
        }
        _ => String::from_str(alloc, "the list of installed packages can't be read"),
    };
    lines.push(line?)?;
    Ok(())
}

/// What to do about paths that are owned in conflict.
fn push_owners(alloc: Global, lines: &mut Vec<String>, root: &str) -> Result<(), AllocError> {
    lines.push(format!(in alloc;
        "look which files CONTENTS below {root}/var/db/pkg have a line of it, and take that"
    )?)?;
    say(
        alloc,
        lines,
        "line out of the record to which the path doesn't belong; nothing was merged",
    )
}

/// What is wrong with the notes of a run that was stopped.
pub(crate) fn push_journal(
    alloc: Global,
    lines: &mut Vec<String>,
    root: &str,
    fault: RecoverFault,
) -> Result<(), AllocError> {
    say(
        alloc,
        lines,
        "an earlier run was stopped while it merged, and the notes by which that is completed are",
    )?;
    match fault {
        RecoverFault::BadRecord { group } => {
            lines.push(format!(in alloc;
                "damaged: the file {root}/var/lib/portage/jobs/{group:08x}/record"
            )?)?
        }
        RecoverFault::BadStage { group, index } => {
            lines.push(format!(in alloc;
                "damaged: the file {root}/var/lib/portage/jobs/{group:08x}/stage/{index:08x}"
            )?)?
        }
        RecoverFault::Limit | RecoverFault::Tree(_) => say(alloc, lines, "damaged")?,
    }
    say_all(
        alloc,
        lines,
        &[
            "no run writes it so: look for a failing disk, or a program that wrote there. Put the file",
            "back as it was; where it is lost, move its folder out of jobs and check the files that",
            "the run was to place. Nothing was changed; no run begins before that is done",
        ],
    )
}

/// What is wrong with the installed packages.
pub(crate) fn push_broken(
    alloc: Global,
    lines: &mut Vec<String>,
    broken: &Broken,
) -> Result<(), AllocError> {
    push_conflict(alloc, lines, broken)?;
    say_all(
        alloc,
        lines,
        &[
            "packages that are installed have to go together before anything is merged: with another",
            "package manager install what is missing, or remove one of them. Nothing was merged",
        ],
    )
}

/// Which packages don't go together, and why.
pub(crate) fn push_conflict(
    alloc: Global,
    lines: &mut Vec<String>,
    broken: &Broken,
) -> Result<(), AllocError> {
    let line = match broken {
        Broken::Runtime { package, leaf } => return push_lacking(alloc, lines, package, leaf),
        Broken::Blocked { package, by } => {
            let one = package.print(alloc)?;
            let by = by.print(alloc)?;
            format!(in alloc;
                "{by} is installed and may not be there together with {one}, which is, too"
            )
        }
        Broken::RequiredUse { package } => {
            let one = package.print(alloc)?;
            format!(in alloc;
                "{one} is installed with USE flags that don't go together (REQUIRED_USE)"
            )
        }
        Broken::SlotTwice { package, other } => {
            let one = package.print(alloc)?;
            let other = other.print(alloc)?;
            format!(in alloc;
                "{one} and {other} are both installed in one slot, where one is to be"
            )
        }
        Broken::Memory => return Err(AllocError),
    };
    lines.push(line?)?;
    Ok(())
}

fn push_lacking(
    alloc: Global,
    lines: &mut Vec<String>,
    package: &PackageId,
    leaf: &Option<Atom>,
) -> Result<(), AllocError> {
    let one = package.print(alloc)?;
    match leaf {
        Some(atom) => {
            let needed = atom.print(alloc)?;
            lines.push(format!(in alloc;
                "{one} is installed and needs {needed} to run, which isn't installed"
            )?)?;
        }
        None => {
            lines.push(format!(in alloc;
                "{one} is installed and needs one of several packages to run, of which none can be"
            )?)?;
        }
    }
    Ok(())
}
