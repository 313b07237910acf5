ghost use Rattle.std.specs.Prelude.{◌≡◌, IfOk, map};
ghost use Rattle.plan_lives.specs.Index.{AreKeyed, IsIndex, line_key, name_key, plan_of, start_of};
ghost use Rattle.plan_lives.specs.IsReach.{IsReach};
ghost use Rattle.plan_lives.specs.Lives.{lives as lives_in, lives_of};

use crate::index::Index;
use crate::life::Life;
use crate::reach::Reach;
use pkg_state::{ByText, LineName, Pkg};
use std::alloc::{AllocError, Global};

/// The lines of the packages, in the order of the lives.
pub fn lines_of(alloc: Global, lives: &[Life<'_>]) -> Result<Vec<LineName>, AllocError>
    ensures { IfOk result (λ lines. lines.items ≡ map line_key (lives_of lives.now)) }
{
    let mut lines = Vec::with_capacity(alloc, lives.len())?;
    for life in lives {
        let pkg = life.pkg;
        lines.push(pkg.line(alloc)?)?;
    }
    Ok(lines)
}

fn by_line<'a>(
    alloc: Global,
    lives: &'a [Life<'a>],
    lines: &'a [LineName],
) -> Result<ByText<'a, Life<'a>>, AllocError>
    requires { lines.now ≡ map line_key (lives_of lives.now) }
    ensures { IfOk result (λ found. AreKeyed line_key (lives_of lives.now) found.lists) }
{
    let mut found = ByText::new(alloc);
    for (place, life) in lives.iter().enumerate() {
        found.add(alloc, lines[place].text(), *life)?;
    }
    Ok(found)
}

fn by_name<'a>(alloc: Global, lives: &'a [Life<'a>]) -> Result<ByText<'a, Life<'a>>, AllocError>
    ensures { IfOk result (λ found. AreKeyed name_key (lives_of lives.now) found.lists) }
{
    let mut found = ByText::new(alloc);
    for life in lives {
        let pkg = life.pkg;
        found.add(alloc, pkg.facts.id.name.package.text(), *life)?;
    }
    Ok(found)
}

/// The index of a plan over packages, in time n log n.
pub fn index_of<'a>(
    alloc: Global,
    start: &'a [Pkg],
    reach: &'a Reach<'a>,
    lives: &'a [Life<'a>],
    lines: &'a [LineName],
) -> Result<Index<'a>, AllocError>
    requires reach { IsReach reach.now }
    requires lives { lives_of lives.now ≡ lives_in reach.now.groups.now start.now }
    requires lines { lines.now ≡ map line_key (lives_of lives.now) }
    ensures index { IfOk result IsIndex }
    ensures plan { IfOk result (λ index. plan_of index ≡ reach.now.groups.now) }
    ensures start { IfOk result (λ index. start_of index ≡ start.now) }
{
    let by_line = by_line(alloc, lives, lines)?;
    let by_name = by_name(alloc, lives)?;
    Ok(Index {
        start,
        reach,
        lives,
        by_line,
        by_name,
    })
}
