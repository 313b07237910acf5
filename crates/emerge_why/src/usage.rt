use crate::numbers::push_bad_number;
use crate::telling::say;
use crate::words::value_of;
use dep_atom::{Atom, AtomFault, Block};
use emerge_words::WordFault;
use std::alloc::{AllocError, Global};

/// The options that stand alone.
const FLAGS: [&str; 5] = ["pretend", "update", "repair", "keep-going", "unmerge"];

/// The options that have a value.
const OPTIONS: [&str; 8] = [
    "jobs",
    "backtrack",
    "flag-changes",
    "load",
    "plan",
    "tree",
    "images",
    "build-with",
];

/// The options that go with packages alone.
const OF_MERGE: [&str; 4] = ["update", "repair", "backtrack", "flag-changes"];

/// What there is to write.
const SUMMARY: [&str; 17] = [
    "emerge [OPTION ..] ATOM ..       installs what each ATOM matches, and what that needs",
    "emerge [OPTION ..] --plan FILE   does what a plan says, which is a file of the tree",
    "emerge [OPTION ..] --unmerge ATOM ..   takes away what each ATOM matches",
    "  an ATOM is a package: app-misc/hello, '>=app-misc/hello-2.12' or app-misc/hello:0",
    "  @world among them stands for those of the file var/lib/portage/world",
    "  --tree FOLDER          the folder that holds the system, if not /",
    "  --images FOLDER        where the packages' files lie, if not /var/cache/portage/images",
    "  --build-with PROGRAM   has a program prepare the files of each package first",
    "  --pretend              prints what would be done, and changes nothing",
    "  --update               takes a greater version than the one that is installed",
    "  --backtrack N          how many choices may fail, from 1 to 20000, if not 10000",
    "  --flag-changes N       how many USE flags of a package may change, from 0 to 2, if not 0",
    "  --jobs N               how many jobs may run, from 1 to 16; one is used today",
    "  --keep-going           is read, and changes nothing today",
    "  --repair and --load N are words of commands that aren't there yet",
    "EMERGE_QUIET=1 in the environment keeps such explanations away",
    "`man emerge` has the rest",
];

/// What is first wrong with words that are no command.
#[derive(Clone, Copy)]
enum Wrong<'a> {
    /// There is no such option.
    Unknown(&'a str),
    /// A flag with a value.
    Valued(&'a str),
    /// An option without its value.
    Bare(&'a str),
    /// An option that was given before.
    Twice(&'a str),
}

/// What words give, as far as they are options.
#[derive(Drop)]
struct Given<'a> {
    names: Vec<&'a str>,
    further: usize,
}

/// Why words are no command.
pub(crate) fn push_usage(
    alloc: Global,
    lines: &mut Vec<String>,
    words: &[String],
    fault: &WordFault,
) -> Result<(), AllocError> {
    match fault {
        WordFault::Usage => push_no_command(alloc, lines, words),
        WordFault::BadAtom { word } => push_bad_atom(alloc, lines, word.as_str()),
        WordFault::BadNumber { word } => push_bad_number(alloc, lines, words, word.as_str()),
        WordFault::Memory => Err(AllocError),
    }
}

fn push_no_command(
    alloc: Global,
    lines: &mut Vec<String>,
    words: &[String],
) -> Result<(), AllocError> {
    let mut given = Given {
        names: Vec::new(alloc),
        further: 0,
    };
    match first_wrong(words, &mut given)? {
        Some(wrong) => push_wrong(alloc, lines, &wrong)?,
        None => push_unfit(alloc, lines, words, &given)?,
    }
    say(
        alloc,
        lines,
        "nothing was read or changed; these are the words that there are:",
    )?;
    for line in SUMMARY {
        say(alloc, lines, line)?;
    }
    Ok(())
}

/// The first word that no command has where it stands; notes what the words before it give.
fn first_wrong<'a>(
    words: &'a [String],
    given: &mut Given<'a>,
) -> Result<Option<Wrong<'a>>, AllocError> {
    let mut open = None;
    let mut is_rest = false;
    for word in words {
        let word = word.as_str();
        if is_rest {
            given.further = given.further.saturating_add(1);
        } else if let Some(name) = open {
            if is_option(word) {
                return Ok(Some(Wrong::Bare(name)));
            }
            open = None;
        } else {
            match judge(word, given)? {
                Word::Wrong(wrong) => return Ok(Some(wrong)),
                Word::Open(name) => open = Some(name),
                Word::Rest => is_rest = true,
                Word::Whole => {}
            }
        }
    }
    Ok(open.map(Wrong::Bare))
}

/// Whether a word can't be the value of the option before it.
fn is_option(word: &str) -> bool {
    word.starts_with('-') && word != "-"
}

/// What one word is.
#[derive(Clone, Copy)]
enum Word<'a> {
    Wrong(Wrong<'a>),
    /// An option whose value is the next word.
    Open(&'a str),
    /// The word behind which none is an option.
    Rest,
    Whole,
}

/// What a word is that isn't the value of an option.
fn judge<'a>(word: &'a str, given: &mut Given<'a>) -> Result<Word<'a>, AllocError> {
    if word == "--" {
        return Ok(Word::Rest);
    }
    let Some(rest) = word.strip_prefix('-') else {
        given.further = given.further.saturating_add(1);
        return Ok(Word::Whole);
    };
    let Some(long) = rest.strip_prefix('-') else {
        return Ok(Word::Wrong(Wrong::Unknown(word)));
    };
    let (name, has_value) = match long.split_once('=') {
        Some((name, _)) => (name, true),
        None => (long, false),
    };
    let takes_value = OPTIONS.iter().any(|it| *it == name);
    if !takes_value && !FLAGS.iter().any(|it| *it == name) {
        return Ok(Word::Wrong(Wrong::Unknown(word)));
    }
    if has_value && !takes_value {
        return Ok(Word::Wrong(Wrong::Valued(name)));
    }
    if has(given, name) {
        return Ok(Word::Wrong(Wrong::Twice(name)));
    }
    given.names.push(name)?;
    if takes_value && !has_value {
        return Ok(Word::Open(name));
    }
    Ok(Word::Whole)
}

/// Whether an option was given.
fn has(given: &Given<'_>, name: &str) -> bool {
    given.names.iter().any(|it| *it == name)
}

fn push_wrong(alloc: Global, lines: &mut Vec<String>, wrong: &Wrong<'_>) -> Result<(), AllocError> {
    match wrong {
        Wrong::Unknown("--help" | "-h") => say(alloc, lines, "there is no command for help")?,
        Wrong::Unknown(word) => lines.push(format!(in alloc; "there is no option {word}")?)?,
        Wrong::Valued(name) => lines.push(format!(in alloc; "--{name} takes no value")?)?,
        Wrong::Bare(name) => {
            lines.push(format!(in alloc;
                "--{name} wants a value behind it, and none stands there"
            )?)?
        }
        Wrong::Twice(name) => {
            lines.push(format!(in alloc; "--{name} is given twice, and once is allowed")?)?
        }
    }
    Ok(())
}

/// Why words whose options are all known are no command.
fn push_unfit(
    alloc: Global,
    lines: &mut Vec<String>,
    words: &[String],
    given: &Given<'_>,
) -> Result<(), AllocError> {
    if has(given, "plan") {
        return push_unfit_plan(alloc, lines, words, given);
    }
    if given.further == 0 && !has(given, "load") {
        return say(
            alloc,
            lines,
            "no package is named, so there is nothing to do",
        );
    }
    say(
        alloc,
        lines,
        "these options don't go together in one command",
    )
}

/// Why words that name a plan are no command.
fn push_unfit_plan(
    alloc: Global,
    lines: &mut Vec<String>,
    words: &[String],
    given: &Given<'_>,
) -> Result<(), AllocError> {
    if given.further > 0 {
        return say(
            alloc,
            lines,
            "--plan names all that is to be done, so no package stands beside it",
        );
    }
    for name in OF_MERGE {
        if has(given, name) {
            lines.push(format!(in alloc; "--{name} goes with packages, and not with --plan")?)?;
            return Ok(());
        }
    }
    if has(given, "unmerge") || has(given, "load") {
        return say(
            alloc,
            lines,
            "--plan, --unmerge and --load are commands of their own",
        );
    }
    let file = value_of(words, "plan").unwrap_or("");
    lines.push(format!(in alloc; "{file} is no name of a file in the tree")?)?;
    Ok(())
}

/// Why a word is no atom, and how it may be meant.
fn push_bad_atom(alloc: Global, lines: &mut Vec<String>, word: &str) -> Result<(), AllocError> {
    lines.push(format!(in alloc; "{word} names no package as it is written")?)?;
    match Atom::parse(alloc, word) {
        Ok(atom) => match atom.block {
            Block::No => Ok(()),
            _ => say(
                alloc,
                lines,
                "a ! before a package keeps it out, so such a word can't be asked for",
            ),
        },
        Err(fault) => push_atom_fault(alloc, lines, word, fault),
    }?;
    say(
        alloc,
        lines,
        "write app-misc/hello, '>=app-misc/hello-2.12' or app-misc/hello:0; nothing was changed",
    )
}

fn push_atom_fault(
    alloc: Global,
    lines: &mut Vec<String>,
    word: &str,
    fault: AtomFault,
) -> Result<(), AllocError> {
    match fault {
        AtomFault::VersionWithoutOperator => {
            lines.push(format!(in alloc;
                "a version wants an operator before it: did you mean ={word} ?"
            )?)?;
            Ok(())
        }
        AtomFault::Name => say(
            alloc,
            lines,
            "a package is written with its category, a slash and its name",
        ),
        AtomFault::OperatorWithoutVersion => say(
            alloc,
            lines,
            "behind an operator such as >= a version has to stand at the end of the name",
        ),
        AtomFault::Version => say(alloc, lines, "what stands behind the name is no version"),
        AtomFault::BadStar => say(alloc, lines, "a * stands only behind the version of ="),
        AtomFault::BadSlot => say(alloc, lines, "what stands behind the : is no slot"),
        AtomFault::BadUse { .. } => say(alloc, lines, "what stands in [ ] are no USE flags"),
        AtomFault::Memory => Err(AllocError),
    }
}
