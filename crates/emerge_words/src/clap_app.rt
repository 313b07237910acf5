ghost use Rattle.std.specs.Prelude.{◌≡◌, IfOk, false};
ghost use Rattle.clap.specs.Words.{app_of, rule_of, with_rule};
ghost use Rattle.emerge_words.specs.Grammar.{flag_rule, flags_app, further_rule, numbers_app};
ghost use Rattle.emerge_words.specs.Grammar.{option_rule, start_app, texts_app, with_flag};
ghost use Rattle.emerge_words.specs.Grammar.{with_option, words_app};

use clap::{Arg, ArgAction, Command};
use std::alloc::{AllocError, Global};

/// The command that all words are read by.
#[tactic(auto, unfolding(crate::specs::Grammar::words_app))]
pub(crate) fn words_app<'a>(alloc: Global) -> Result<Command<'a>, AllocError>
    ensures { IfOk result (λ command. app_of command ≡ words_app) }
{
    let command = texts_app(alloc)?;
    command.arg(Arg::new(alloc, "further").action(ArgAction::Append))
}

/// A command without a word for the program's name, and without help and version.
fn start_app<'a>(alloc: Global) -> Command<'a>
    ensures { app_of result ≡ start_app }
{
    Command::new(alloc, "emerge")
        .no_binary_name(true)
        .disable_help_flag(true)
        .disable_version_flag(true)
}

/// The command with the flags.
fn flags_app<'a>(alloc: Global) -> Result<Command<'a>, AllocError>
    ensures { IfOk result (λ command. app_of command ≡ flags_app) }
{
    let command = start_app(alloc);
    let command = with_flag(alloc, command, "pretend")?;
    let command = with_flag(alloc, command, "update")?;
    let command = with_flag(alloc, command, "repair")?;
    let command = with_flag(alloc, command, "keep-going")?;
    with_flag(alloc, command, "unmerge")
}

/// The command with the flags and the options that give a number.
fn numbers_app<'a>(alloc: Global) -> Result<Command<'a>, AllocError>
    ensures { IfOk result (λ command. app_of command ≡ numbers_app) }
{
    let command = flags_app(alloc)?;
    let command = with_option(alloc, command, "jobs")?;
    let command = with_option(alloc, command, "backtrack")?;
    let command = with_option(alloc, command, "flag-changes")?;
    with_option(alloc, command, "load")
}

/// The command with all flags and options.
fn texts_app<'a>(alloc: Global) -> Result<Command<'a>, AllocError>
    ensures { IfOk result (λ command. app_of command ≡ texts_app) }
{
    let command = numbers_app(alloc)?;
    let command = with_option(alloc, command, "plan")?;
    let command = with_option(alloc, command, "tree")?;
    let command = with_option(alloc, command, "images")?;
    with_option(alloc, command, "build-with")
}

fn with_flag<'a>(
    alloc: Global,
    command: Command<'a>,
    name: &'a str,
) -> Result<Command<'a>, AllocError>
    ensures { IfOk result (λ r. app_of r ≡ with_flag (app_of command.entry) name.now) }
{
    let arg = Arg::new(alloc, name).long(name).action(ArgAction::SetTrue);
    command.arg(arg)
}

fn with_option<'a>(
    alloc: Global,
    command: Command<'a>,
    name: &'a str,
) -> Result<Command<'a>, AllocError>
    ensures { IfOk result (λ r. app_of r ≡ with_option (app_of command.entry) name.now) }
{
    let arg = Arg::new(alloc, name).long(name).action(ArgAction::Set);
    command.arg(arg)
}
