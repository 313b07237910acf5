use crate::telling::{say, say_all};
use crate::words::{names_plan, root_of};
use std::alloc::{AllocError, Global};
use world_text::WORLD;

/// The folder that names the profile.
const PROFILE: &str = "etc/portage/make.profile";

/// Where the profiles of a repository mostly stand, as a link in `etc/portage` leads there.
const PROFILES: &str = "../../var/db/repos/gentoo/profiles";

/// What the smallest profile of use says, as the command `printf` takes it.
const SMALLEST: &str = "ARCH=amd64\\nACCEPT_KEYWORDS=amd64\\n";

/// What a text of the tree is for.
#[derive(Clone, Copy)]
enum Text {
    Plan,
    Variables,
    Parent,
    /// A package in each line, and flags behind it.
    Uses,
    Packages,
    Keywords,
    Flags,
    World,
    Other,
}

/// Why a text of the tree is refused: at a line from 1 on, or at line 0 for want of a file or folder.
pub(crate) fn push_text(
    alloc: Global,
    lines: &mut Vec<String>,
    words: &[String],
    path: &str,
    number: u32,
    line: Option<&str>,
) -> Result<(), AllocError> {
    let root = root_of(words);
    if names_plan(words, path) {
        if number == 0 {
            return push_no_plan(alloc, lines, root, path);
        }
        return push_line(alloc, lines, root, path, number, line, Text::Plan);
    }
    if number > 0 {
        return push_line(alloc, lines, root, path, number, line, text_at(path));
    }
    if path == PROFILE {
        push_no_profile(alloc, lines, root)
    } else if path == WORLD {
        push_no_world(alloc, lines, root)
    } else {
        push_no_folder(alloc, lines, root, path)
    }
}

/// Which text stands at a path.
fn text_at(path: &str) -> Text {
    if is_part(path, "make.conf") || is_part(path, "make.defaults") {
        Text::Variables
    } else if is_part(path, "parent") {
        Text::Parent
    } else if is_part(path, "package.use")
        || is_part(path, "package.use.mask")
        || is_part(path, "package.use.force")
    {
        Text::Uses
    } else if is_part(path, "package.mask") || is_part(path, "package.unmask") {
        Text::Packages
    } else if is_part(path, "package.accept_keywords") {
        Text::Keywords
    } else if is_part(path, "use.mask") || is_part(path, "use.force") {
        Text::Flags
    } else if is_part(path, "world") {
        Text::World
    } else {
        Text::Other
    }
}

/// Whether a part of the path has this name: that of the file, or of a folder that stands for it.
fn is_part(path: &str, name: &str) -> bool {
    path.split('/').any(|part| part == name)
}

/// What a line of such a text should be.
fn form_of(text: Text) -> &'static str {
    match text {
        Text::Plan =>
            "a plan begins with the line `plan 1`; `emerge --pretend ATOM` prints one as an example",
        Text::Variables => {
            "each line there sets a variable, such as USE=\"nls -doc\", which lists words of its kind"
        }
        Text::Parent => {
            "each line there leads to a folder of the profile, such as ../base, and none leads back"
        }
        Text::Uses => "each line there has a package and then USE flags: app-misc/hello nls -doc",
        Text::Packages => "each line there has one package, such as >=app-misc/hello-3",
        Text::Keywords => "each line there has a package and then keywords: app-misc/hello ~amd64",
        Text::Flags => "each line there has USE flags, such as doc or -doc",
        Text::World => "each line there has one package, such as app-misc/hello",
        Text::Other => "the file has to be text in UTF-8",
    }
}

/// Why a line is refused, and what such a line should be.
fn push_line(
    alloc: Global,
    lines: &mut Vec<String>,
    root: &str,
    path: &str,
    number: u32,
    line: Option<&str>,
    text: Text,
) -> Result<(), AllocError> {
    lines.push(format!(in alloc; "line {number} of {root}/{path} isn't as it should be")?)?;
    if let Some(line) = line {
        lines.push(format!(in alloc; "the line is: {line}")?)?;
    }
    say(alloc, lines, form_of(text))?;
    say(
        alloc,
        lines,
        "correct that line, and run the command again; nothing was merged",
    )
}

/// There is no profile at all.
fn push_no_profile(alloc: Global, lines: &mut Vec<String>, root: &str) -> Result<(), AllocError> {
    lines.push(format!(in alloc; "the profile is missing: there is nothing at {root}/{PROFILE}")?)?;
    say_all(
        alloc,
        lines,
        &[
            "the profile says what kind of system this is; that name is a link to it, or a folder that",
            "holds it. Make a small one of your own:",
        ],
    )?;
    lines.push(format!(in alloc; "  mkdir -p {root}/{PROFILE}")?)?;
    lines.push(format!(in alloc; "  printf '{SMALLEST}' > {root}/{PROFILE}/make.defaults")?)?;
    say(
        alloc,
        lines,
        "or, with a repository below var/db/repos/gentoo, link one of its profiles, such as:",
    )?;
    lines.push(format!(in alloc; "  mkdir -p {root}/etc/portage")?)?;
    lines.push(format!(in alloc; "  ln -s {PROFILES}/default/linux/amd64/23.0 {root}/{PROFILE}")?)?;
    Ok(())
}

/// There is no world file.
fn push_no_world(alloc: Global, lines: &mut Vec<String>, root: &str) -> Result<(), AllocError> {
    lines.push(format!(in alloc;
        "there is no world file, which @world stands for: {root}/{WORLD}"
    )?)?;
    say(
        alloc,
        lines,
        "write one with a package in each line, such as app-misc/hello; nothing was merged",
    )
}

/// A folder is missing that the profile leads to.
fn push_no_folder(
    alloc: Global,
    lines: &mut Vec<String>,
    root: &str,
    path: &str,
) -> Result<(), AllocError> {
    lines.push(format!(in alloc; "a folder of the profile is missing: {root}/{path}")?)?;
    lines.push(format!(in alloc;
        "the link {root}/{PROFILE} leads there, or a file `parent` of a profile"
    )?)?;
    say(
        alloc,
        lines,
        "correct what leads there, or sync the repository that has it; nothing was merged",
    )
}

/// A plan's file is missing, or has a flag that its package doesn't know.
fn push_no_plan(
    alloc: Global,
    lines: &mut Vec<String>,
    root: &str,
    path: &str,
) -> Result<(), AllocError> {
    lines.push(format!(in alloc;
        "the plan {root}/{path} can't be followed: there is no such file in the tree,"
    )?)?;
    say_all(
        alloc,
        lines,
        &[
            "or it adds a package with a USE flag that the package doesn't have in the repository",
            "the name behind --plan is one in the tree; `emerge --pretend ATOM` prints an example",
        ],
    )
}
