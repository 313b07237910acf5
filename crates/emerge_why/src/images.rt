use crate::telling::{say, say_all};
use crate::words::{images_of, value_of};
use dep_atom::PackageId;
use file_tree::Path;
use merge_fit::ImageBad;
use merge_report::Collision;
use std::alloc::{AllocError, Global};

/// What stands behind a refusal in the midst of a plan.
const STANDS: &str =
    "what a line `done ..` of the output names is installed, and nothing else was changed";

/// Why a file of a package can't be placed.
pub(crate) fn push_collision(
    alloc: Global,
    lines: &mut Vec<String>,
    root: &str,
    collision: &Collision,
) -> Result<(), AllocError> {
    let help = match collision {
        Collision::Owned { path, owner } => {
            let owner = owner.print(alloc)?;
            push_taken(alloc, lines, root, path)?;
            lines.push(format!(in alloc;
                "which belongs to {owner}; two packages can't have one file"
            )?)?;
            "take it out of one of them, or remove the package that has it"
        }
        Collision::Claimed { path, group } => {
            push_taken(alloc, lines, root, path)?;
            lines.push(format!(in alloc;
                "which group {group} of the plan changes at the same time"
            )?)?;
            "let one of both groups wait for the other, by a line `after`"
        }
        Collision::Ancestor { path, other } => {
            push_above(alloc, lines, root, path, other)?;
            "correct the image of the package, or remove the package that has the other one"
        }
        Collision::Unowned { path } => {
            let path = path.text();
            lines.push(format!(in alloc;
                "what is in the way at {root}/{path} belongs to no package"
            )?)?;
            "see what it is, move it away, and run the command again"
        }
    };
    say_all(alloc, lines, &[help, STANDS])
}

fn push_taken(
    alloc: Global,
    lines: &mut Vec<String>,
    root: &str,
    path: &Path,
) -> Result<(), AllocError> {
    let path = path.text();
    lines.push(format!(in alloc; "a package that was to come has the file {root}/{path},")?)?;
    Ok(())
}

fn push_above(
    alloc: Global,
    lines: &mut Vec<String>,
    root: &str,
    path: &Path,
    other: &Path,
) -> Result<(), AllocError> {
    let path = path.text();
    let other = other.text();
    lines.push(format!(in alloc; "{root}/{path} and {root}/{other}")?)?;
    say(
        alloc,
        lines,
        "are to be installed side by side, for which one would have to be a file and a folder at once",
    )
}

/// What is wrong with the files of a package.
pub(crate) fn push_image(
    alloc: Global,
    lines: &mut Vec<String>,
    words: &[String],
    bad: &ImageBad,
) -> Result<(), AllocError> {
    let line = match bad {
        ImageBad::Reserved { path } => {
            let path = path.text();
            format!(in alloc;
                "a package that was to come has {path}, a place for the program's own files"
            )
        }
        ImageBad::Twice { path } => {
            let path = path.text();
            format!(in alloc;
                "two packages that were to come together both have {path}, or one has it twice"
            )
        }
        ImageBad::Large { path } => {
            let path = path.text();
            format!(in alloc; "a package that was to come has the file {path} of more than 256 MiB")
        }
        ImageBad::Link { path } => {
            let path = path.text();
            format!(in alloc;
                "a package has a link {path} whose target is empty, too long, or no line of text"
            )
        }
    };
    lines.push(line?)?;
    let images = images_of(words);
    lines.push(format!(in alloc; "correct the files of the package, which lie below {images}")?)?;
    say(alloc, lines, STANDS)
}

/// The files of a package couldn't be had.
pub(crate) fn push_build(
    alloc: Global,
    lines: &mut Vec<String>,
    words: &[String],
    package: &PackageId,
) -> Result<(), AllocError> {
    let id = package.print(alloc)?;
    let images = images_of(words);
    lines.push(format!(in alloc; "the files of {id} couldn't be had, as the lines above tell")?)?;
    match value_of(words, "build-with") {
        Some(program) => lines.push(format!(in alloc;
            "{program} has to leave them in {images}/{id}, and to end with status 0"
        )?)?,
        None => lines.push(format!(in alloc;
            "put them into {images}/{id}, or name the folder of the images by --images"
        )?)?,
    }
    say(alloc, lines, STANDS)
}
