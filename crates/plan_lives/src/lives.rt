ghost use Rattle.std.specs.Prelude.{◌≡◌, ◌++◌, ◌↔◌, IfOk, List, ℕ, OnOk, Some, if◌then◌else◌, map};
ghost use Rattle.std.specs.Prelude.{reverse};
ghost use Rattle.std.specs.Prelude.{bytes_eq};
ghost use Rattle.std.specs.List.{list_any};
ghost use Rattle.basics.specs.Members.{Has};
ghost use Rattle.pkg_state.specs.Package.{line_of};
ghost use Rattle.plan_law.specs.Plans.{removed_line};
ghost use Rattle.plan_law.specs.Lives as law;
ghost use Rattle.plan_lives.specs.Clearings.{life_at, moment_at, place_at};
ghost use Rattle.plan_lives.specs.Lives.{lives, lives_of, moment_of};

use crate::life::{Life, Moment};
use crate::plan::{Group, Removal};
use pkg_state::{LineName, Pkg};
use std::alloc::{AllocError, Global};
use std::collections::BTreeMap;

/// When what stands on the package's line is taken away.
fn death_of(
    alloc: Global,
    pkg: &Pkg,
    places: &BTreeMap<LineName, usize>,
) -> Result<Moment, AllocError>
    ensures { IfOk result (λ death. moment_of death ≡
        moment_at (place_at places.now.entries (line_of pkg.now.facts))) }
{
    let line = pkg.line(alloc)?;
    match places.get(&line) {
        Some(g) => Ok(Moment::Commit(*g)),
        None => Ok(Moment::Never),
    }
}

/// Puts the lives of packages behind others, the last one first.
fn add_lives<'a>(
    alloc: Global,
    lives: &mut Vec<Life<'a>>,
    packages: &'a [Pkg],
    birth: Moment,
    places: &BTreeMap<LineName, usize>,
) -> Result<(), AllocError>
    ensures { OnOk result (reverse (lives_of lives.new.items) ≡
        map (life_at (moment_of birth) places.now.entries) packages.now
        ++ reverse (lives_of lives.old.items)) }
{
    let mut left = packages.len();
    while left > 0 {
        left -= 1;
        let pkg = &packages[left];
        let death = death_of(alloc, pkg, places)?;
        lives.push(Life { pkg, birth, death })?;
    }
    Ok(())
}

/// Notes the group at the lines that it clears.
fn note_removals(
    alloc: Global,
    places: &mut BTreeMap<LineName, usize>,
    removals: &[Removal],
    g: usize,
) -> Result<(), AllocError>
    ensures { OnOk result ((line : List ℕ) → place_at places.new.entries line ≡
        (if list_any (λ r. bytes_eq (removed_line r) line) removals.now then Some g
        else place_at places.old.entries line)) }
{
    for removal in removals {
        let line = LineName::new(alloc, &removal.id.name, &removal.slot)?;
        places.insert(line, g)?;
    }
    Ok(())
}

/// All lives of a plan, in time n log n of packages and removals: the groups are gone through from
/// the last one back, with the next clearing of each line at hand.
pub fn lives_of<'a>(
    alloc: Global,
    start: &'a [Pkg],
    groups: &'a [Group],
) -> Result<Vec<Life<'a>>, AllocError>
    ensures lives { IfOk result (λ xs. lives_of xs.items ≡ lives groups.now start.now) }
    ensures all { IfOk result (λ xs. (x : law.Life) → Has (lives_of xs.items) x ↔
        law.IsLife groups.now start.now x) }
{
    let mut places = BTreeMap::new(alloc);
    let mut lives = Vec::new(alloc);
    let mut g = groups.len();
    while g > 0 {
        g -= 1;
        let group = &groups[g];
        add_lives(
            alloc,
            &mut lives,
            &group.additions,
            Moment::Commit(g),
            &places,
        )?;
        note_removals(alloc, &mut places, &group.removals, g)?;
    }
    add_lives(alloc, &mut lives, start, Moment::Opening, &places)?;
    lives.reverse();
    Ok(lives)
}
