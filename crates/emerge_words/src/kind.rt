ghost use Rattle.std.specs.Prelude.{◌≡◌};
ghost use Rattle.emerge_words.specs.Commands.{asks_of_merge, asks_of_run, is_load, is_merge};
ghost use Rattle.emerge_words.specs.Commands.{is_plan_file, is_unmerge, kind_of};
ghost use Rattle.emerge_words.specs.Lines.{line_value};

use crate::line::Line;

/// The kinds of command.
#[derive(Clone, Copy)]
pub(crate) enum Kind {
    Merge,
    PlanFile,
    Unmerge,
    Load,
}

/// Which command a line is, if it is one.
pub(crate) fn kind_of(line: &Line<'_>) -> Option<Kind>
    ensures { result ≡ kind_of (line_value line.now) }
{
    if is_merge(line) {
        Some(Kind::Merge)
    } else if is_plan_file(line) {
        Some(Kind::PlanFile)
    } else if is_unmerge(line) {
        Some(Kind::Unmerge)
    } else if is_load(line) {
        Some(Kind::Load)
    } else {
        None
    }
}

/// Further words, or none with `--repair`.
pub(crate) fn is_merge(line: &Line<'_>) -> bool
    ensures { result ≡ is_merge (line_value line.now) }
{
    !line.unmerge
        && line.plan.is_none()
        && line.load.is_none()
        && (line.repair || !line.further.is_empty())
}

/// `--plan` without further words.
fn is_plan_file(line: &Line<'_>) -> bool
    ensures { result ≡ is_plan_file (line_value line.now) }
{
    !line.unmerge
        && line.plan.is_some()
        && line.load.is_none()
        && line.further.is_empty()
        && !asks_of_merge(line)
}

/// `--unmerge` with further words.
fn is_unmerge(line: &Line<'_>) -> bool
    ensures { result ≡ is_unmerge (line_value line.now) }
{
    line.unmerge
        && line.plan.is_none()
        && line.load.is_none()
        && !line.further.is_empty()
        && !asks_of_merge(line)
}

/// `--load` without further words.
fn is_load(line: &Line<'_>) -> bool
    ensures { result ≡ is_load (line_value line.now) }
{
    !line.unmerge
        && line.plan.is_none()
        && line.load.is_some()
        && line.further.is_empty()
        && !asks_of_merge(line)
        && !asks_of_run(line)
}

/// What goes with a merge alone.
fn asks_of_merge(line: &Line<'_>) -> bool
    ensures { result ≡ asks_of_merge (line_value line.now) }
{
    line.update || line.repair || line.backtrack.is_some() || line.flag_changes.is_some()
}

/// What goes with all but the load.
fn asks_of_run(line: &Line<'_>) -> bool
    ensures { result ≡ asks_of_run (line_value line.now) }
{
    line.pretend || line.keep_going || line.jobs.is_some()
}
