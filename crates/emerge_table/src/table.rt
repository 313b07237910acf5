ghost use Rattle.std.specs.Prelude.{IfOk, string_bytes};
ghost use Rattle.emerge_why.specs.Told.{IsTold};

use crate::rows::{Row, rows_of};
use emerge_why::told;
use plan_lives::Group;
use std::alloc::{AllocError, Global};
use vdb_record::Installed;

/// The groups of a plan as a table over what is installed: a line for each package that would come or
/// go.
pub fn table_of(
    alloc: Global,
    groups: &[Group],
    opening: &[Installed],
) -> Result<String, AllocError>
    ensures { IfOk result (λ t. IsTold (string_bytes t)) }
{
    let rows = rows_of(alloc, groups, opening)?;
    let lines = lines_of(alloc, &rows)?;
    told(alloc, &lines)
}

/// The lines of a table, and how many changes it has.
fn lines_of(alloc: Global, rows: &[Row]) -> Result<Vec<String>, AllocError> {
    let mut lines = Vec::new(alloc);
    let width = rows.iter().map(|row| row.name.len()).max().unwrap_or(0);
    lines.push(String::from_str(alloc, "this would be done:")?)?;
    for row in rows {
        lines.push(line_of(alloc, row, width)?)?;
    }
    let count = rows.len();
    lines.push(format!(in alloc;
        "changes: {count}; nothing was changed, since --pretend is given"
    )?)?;
    Ok(lines)
}

/// A line with its parts in columns.
fn line_of(alloc: Global, row: &Row, width: usize) -> Result<String, AllocError> {
    let kind = row.kind;
    let mut line = format!(in alloc; "  {kind:<9}  ")?;
    line.push_str(row.name.as_str())?;
    for _ in row.name.len()..width {
        line.push_str(" ")?;
    }
    line.push_str("  ")?;
    line.push_str(row.change.as_str())?;
    Ok(line)
}
