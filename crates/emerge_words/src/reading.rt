ghost use Rattle.std.specs.Prelude.{◌≡◌, [], Some, true, codes, map, option_map, string_bytes};
ghost use Rattle.std.specs.Prelude.{IfErr, IfOk, if◌then◌else◌, is_some, unwrap_or};
ghost use Rattle.emerge_words.specs.Faults.{path_fault};
ghost use Rattle.emerge_words.specs.Commands.{HasNoPath, has_plan_path, kind_of, plan_path};
ghost use Rattle.emerge_words.specs.Lines.{line_value};
ghost use Rattle.emerge_words.specs.Named.{HasNoAtom};
ghost use Rattle.emerge_words.specs.Numbers.{AreNumbers, TellsNumber, bad_numbers};
ghost use Rattle.emerge_words.specs.Requests.{IsAsked, IsCommand, IsRefusal, IsRefused, IsRequest};
ghost use Rattle.emerge_words.specs.Requests.{SaysRun, load_jobs, words_of_atoms};

use crate::atoms::{has_world, read_atoms};
use crate::kind::{Kind, is_merge, kind_of};
use crate::line::{Line, read_line};
use crate::numbers::{Numbers, read_numbers};
use crate::request::{Command, Request, WordFault};
use file_tree::{Path, PathFault};
use std::alloc::{AllocError, Global};

/// How many jobs a load uses.
const LOAD_JOBS: u32 = 4;

/// The root where `--tree` isn't given.
const TREE: &str = "/";

/// The folder of images where `--images` isn't given.
const IMAGES: &str = "/var/cache/portage/images";

/// Reads the words of a run, of which the program's name is none.
pub fn read(alloc: Global, words: &[String]) -> Result<Request, WordFault>
    ensures request { IfOk result (IsRequest (map string_bytes words.now)) }
    ensures refused { IfErr result (IsRefusal (map string_bytes words.now)) }
{
    let line = read_line(alloc, words)?;
    read_request(alloc, &line)
}

/// What a line asks for.
fn read_request(alloc: Global, line: &Line<'_>) -> Result<Request, WordFault>
    ensures asked { IfOk result (IsAsked (line_value line.now)) }
    ensures refused { IfErr result (IsRefused (line_value line.now)) }
{
    let Some(kind) = kind_of(line) else {
        return Err(WordFault::Usage);
    };
    let plan = read_plan(alloc, line)?;
    match read_numbers(line) {
        Ok(numbers) => read_good(alloc, kind, plan, &numbers, line),
        Err(text) => Err(bad_number(alloc, text)),
    }
}

/// The path of a plan, where one is named.
fn read_plan(alloc: Global, line: &Line<'_>) -> Result<Option<Path>, WordFault>
    ensures plan { IfOk result (λ path. path ≡ option_map plan_path (line_value line.now).plan) }
    ensures good { IfOk result (λ _. has_plan_path (line_value line.now) ≡ true) }
    ensures fault { IfErr result (HasNoPath (line_value line.now)) }
{
    let Some(text) = line.plan else {
        return Ok(None);
    };
    match Path::parse(alloc, plan_path(text)) {
        Ok(path) => Ok(Some(path)),
        Err(fault) => Err(refusal_of(fault)),
    }
}

/// The path without the slash that may stand first.
fn plan_path(text: &str) -> &str
    ensures { result.now ≡ plan_path text.now }
{
    match text.strip_prefix('/') {
        Some(rest) => rest,
        None => text,
    }
}

/// What becomes of a text that is no path.
fn refusal_of(fault: PathFault) -> WordFault
    ensures { result ≡ path_fault fault }
{
    match fault {
        PathFault::Memory => WordFault::Memory,
        _ => WordFault::Usage,
    }
}

/// The refusal of a text that is no number in its range.
fn bad_number(alloc: Global, text: &str) -> WordFault
    ensures { TellsNumber text.now result }
{
    match String::from_str(alloc, text) {
        Ok(word) => WordFault::BadNumber { word },
        Err(_) => WordFault::Memory,
    }
}

/// What a line asks for that is a command with good numbers.
fn read_good(
    alloc: Global,
    kind: Kind,
    plan: Option<Path>,
    numbers: &Numbers,
    line: &Line<'_>,
) -> Result<Request, WordFault>
    requires kind { kind_of (line_value line.now) ≡ Some kind }
    requires plan { plan ≡ option_map plan_path (line_value line.now).plan }
    requires path { has_plan_path (line_value line.now) ≡ true }
    requires good { bad_numbers (line_value line.now) ≡ [] }
    requires numbers { AreNumbers (line_value line.now) numbers.now }
    ensures asked { IfOk result (IsAsked (line_value line.now)) }
    ensures refused { IfErr result (IsRefused (line_value line.now)) }
{
    let command = read_command(alloc, kind, plan, numbers, line)?;
    Ok(request_of(alloc, command, numbers, line)?)
}

/// The command of a line.
fn read_command(
    alloc: Global,
    kind: Kind,
    plan: Option<Path>,
    numbers: &Numbers,
    line: &Line<'_>,
) -> Result<Command, WordFault>
    requires kind { kind_of (line_value line.now) ≡ Some kind }
    requires plan { plan ≡ option_map plan_path (line_value line.now).plan }
    requires numbers { AreNumbers (line_value line.now) numbers.now }
    ensures command { IfOk result (IsCommand (line_value line.now)) }
    ensures fault { IfErr result (HasNoAtom (words_of_atoms (line_value line.now))) }
{
    let atoms = read_atoms(alloc, is_merge(line), line.further.as_slice())?;
    match kind {
        Kind::Merge => Ok(Command::Merge {
            atoms,
            world: has_world(line.further.as_slice()),
            update: line.update,
            repair: line.repair,
            backtrack: numbers.backtrack,
            flips: numbers.flips,
        }),
        Kind::PlanFile => match plan {
            Some(path) => Ok(Command::PlanFile { path }),
            None => unreachable!(),
        },
        Kind::Unmerge => Ok(Command::Unmerge { atoms }),
        Kind::Load => Ok(Command::Load { n: numbers.load }),
    }
}

/// The command, with what the line says of how it shall run.
fn request_of(
    alloc: Global,
    command: Command,
    numbers: &Numbers,
    line: &Line<'_>,
) -> Result<Request, AllocError>
    requires numbers { AreNumbers (line_value line.now) numbers.now }
    ensures command { IfOk result (λ r. r.command ≡ command) }
    ensures run { IfOk result (SaysRun (line_value line.now)) }
{
    let tree = text_or(alloc, line.tree, TREE)?;
    let images = text_or(alloc, line.images, IMAGES)?;
    let build_with = copy_of(alloc, line.build_with)?;
    Ok(Request {
        command,
        pretend: line.pretend,
        jobs: jobs_of(numbers, line),
        keep_going: line.keep_going,
        tree,
        images,
        build_with,
    })
}

/// How many jobs a line asks for.
fn jobs_of(numbers: &Numbers, line: &Line<'_>) -> u32
    ensures { result ≡ (if is_some line.now.load then load_jobs else numbers.now.jobs) }
{
    if line.load.is_some() {
        LOAD_JOBS
    } else {
        numbers.jobs
    }
}

/// A copy of the text, or of the one that stands for none.
fn text_or(alloc: Global, text: Option<&str>, otherwise: &str) -> Result<String, AllocError>
    ensures { IfOk result (λ copy. string_bytes copy ≡
        unwrap_or (option_map (λ s. s.now) text.entry) otherwise.now) }
{
    match text {
        Some(text) => String::from_str(alloc, text),
        None => String::from_str(alloc, otherwise),
    }
}

/// A copy of the text, where there is one.
fn copy_of(alloc: Global, text: Option<&str>) -> Result<Option<String>, AllocError>
    ensures { IfOk result (λ copy. option_map string_bytes copy ≡
        option_map (λ s. s.now) text.entry) }
{
    match text {
        Some(text) => Ok(Some(String::from_str(alloc, text)?)),
        None => Ok(None),
    }
}
