ghost use Rattle.std.specs.Prelude.{◌≡◌, ◌⊎◌, ◌↔◌, IfOk, IsTrue, None, Some, length, map, true};
ghost use Rattle.std.specs.Option.{option_map};
ghost use Rattle.basics.specs.Members.{Has};
ghost use Rattle.dep_atom.specs.Values.{atom_value};
ghost use Rattle.pkg_state.specs.Package.{line_of};
ghost use Rattle.plan_law.specs.Lives as law;
ghost use Rattle.plan_law.specs.Sound.{is_strong_block};
ghost use Rattle.plan_lives.specs.Index.{IsIndex, all_lives, plan_of, start_of};
ghost use Rattle.plan_lives.specs.Keeping.{barring_blocks, is_elsewhere};
ghost use Rattle.plan_lives.specs.Lives.{life_of, lives_of};
ghost use Rattle.plan_lives.specs.Stretches.{IsStretchWithin, stretch_value};
ghost use Rattle.plan_check.specs.Kept.{AreClear, IsClearToo, IsFirstKept, IsKeptOut};
ghost use Rattle.plan_check.specs.Kept.{IsKeptOutToo, IsNameClear, IsOneWithin, IsWithinToo};
ghost use Rattle.plan_check.specs.Kept.{Keeps};
ghost use Rattle.plan_check.specs.PackageRules.{IsBlocked, blocks_of, is_of_kind};
ghost use Rattle.plan_check.specs.PackageRules.{strong_rule, weak_rule};
ghost use Rattle.plan_rules.specs.Order.{AreInOrder, life_key, number_of};
ghost use Rattle.plan_rules.specs.Refusals.Refusal.{Barred};
ghost use Rattle.plan_rules.specs.Refusals.{Says};
ghost use Rattle.plan_rules.specs.Verdicts.{each, refuse};

use dep_atom::{Atom, Block};
use pkg_state::{LineName, Pkg};
use plan_lives::{Index, Life, Moment, Stretch, barring_blocks, running_blocks, some_matches};
use plan_rules::{PlanRefused, meets, number_of, stretch_of};
use pms_names::Flags;
use std::alloc::{AllocError, Global};

/// Blocks that count in a stretch, with the flags that they see, and the line where they block
/// nothing, if there is one.
#[derive(Drop)]
struct Keeping<'a> {
    blocks: Vec<&'a Atom>,
    asker: &'a Flags,
    line: Option<LineName>,
    stretch: Stretch,
}

fn is_elsewhere(alloc: Global, line: &Option<LineName>, other: &Pkg) -> Result<bool, AllocError>
    ensures { IfOk result (λ elsewhere. elsewhere ≡ is_elsewhere line.now other.now) }
{
    match line {
        Some(line) => Ok(other.line(alloc)? != *line),
        None => Ok(true),
    }
}

/// Whether the blocks keep out what may be there in the stretch.
fn keeps_out(
    alloc: Global,
    index: &Index<'_>,
    keeping: &Keeping<'_>,
    y: &Life<'_>,
) -> Result<bool, AllocError>
    requires is { IsIndex index.now }
    requires within { IsStretchWithin (length (plan_of index.now))
        (stretch_value keeping.now.stretch) }
    requires y { Has (all_lives index.now) (life_of y.now) }
    ensures { IfOk result (λ out. IsTrue out ↔
        IsKeptOut (plan_of index.now) keeping.now (life_of y.now)) }
{
    let other = y.pkg;
    if !some_matches(&keeping.blocks, keeping.asker, other) {
        return Ok(false);
    }
    if !meets(index.reach, &keeping.stretch, y) {
        return Ok(false);
    }
    is_elsewhere(alloc, &keeping.line, other)
}

/// Whether nothing of the block's name is kept out.
fn name_is_clear(
    alloc: Global,
    index: &Index<'_>,
    keeping: &Keeping<'_>,
    atom: &Atom,
) -> Result<bool, AllocError>
    requires is { IsIndex index.now }
    requires within { IsStretchWithin (length (plan_of index.now))
        (stretch_value keeping.now.stretch) }
    ensures { IfOk result (λ clear. IsTrue clear →
        IsNameClear (plan_of index.now) (all_lives index.now) keeping.now (atom_value atom.now)) }
{
    for y in index.by_name.get(atom.name.package.text()) {
        if keeps_out(alloc, index, keeping, y)? {
            return Ok(false);
        }
    }
    Ok(true)
}

/// Whether nothing is kept out: a quick test, by the names of the blocks.
fn is_clear(
    alloc: Global,
    index: &Index<'_>,
    keeping: &Keeping<'_>,
    blocks: &[&Atom],
) -> Result<bool, AllocError>
    requires is { IsIndex index.now }
    requires within { IsStretchWithin (length (plan_of index.now))
        (stretch_value keeping.now.stretch) }
    ensures { IfOk result (λ clear. IsTrue clear →
        AreClear (plan_of index.now) (all_lives index.now) keeping.now
        (map (λ atom. atom_value atom.now) blocks.now)) }
{
    for &atom in blocks {
        if !name_is_clear(alloc, index, keeping, atom)? {
            return Ok(false);
        }
    }
    Ok(true)
}

/// Whether nothing is kept out, by these blocks and by the others, where there are others.
fn are_clear(
    alloc: Global,
    index: &Index<'_>,
    keeping: &Keeping<'_>,
    other: Option<&Keeping<'_>>,
) -> Result<bool, AllocError>
    requires is { IsIndex index.now }
    requires within { IsWithinToo (plan_of index.now) keeping.now
        (option_map (λ k. k.now) other) }
    ensures { IfOk result (λ clear. IsTrue clear →
        IsClearToo (plan_of index.now) (all_lives index.now) keeping.now
        (option_map (λ k. k.now) other.entry)) }
{
    if !is_clear(alloc, index, keeping, &keeping.blocks)? {
        return Ok(false);
    }
    match other {
        Some(other) => is_clear(alloc, index, other, &other.blocks),
        None => Ok(true),
    }
}

/// Whether these blocks keep out what may be there, or the others do.
fn keeps_out_too(
    alloc: Global,
    index: &Index<'_>,
    keeping: &Keeping<'_>,
    other: Option<&Keeping<'_>>,
    y: &Life<'_>,
) -> Result<bool, AllocError>
    requires is { IsIndex index.now }
    requires within { IsWithinToo (plan_of index.now) keeping.now
        (option_map (λ k. k.now) other) }
    requires y { Has (all_lives index.now) (life_of y.now) }
    ensures { IfOk result (λ out. IsTrue out ↔
        (IsKeptOut (plan_of index.now) keeping.now (life_of y.now)
        ⊎ IsKeptOutToo (plan_of index.now) (option_map (λ k. k.now) other.entry)
        (life_of y.now))) }
{
    if keeps_out(alloc, index, keeping, y)? {
        return Ok(true);
    }
    match other {
        Some(other) => keeps_out(alloc, index, other, y),
        None => Ok(false),
    }
}

/// The first package that is kept out, if one is, by a look at all packages in their order.
fn first_of_all<'a>(
    alloc: Global,
    index: &Index<'_>,
    all: &[Life<'a>],
    keeping: &Keeping<'_>,
    other: Option<&Keeping<'_>>,
) -> Result<Option<&'a Pkg>, AllocError>
    requires is { IsIndex index.now }
    requires order { AreInOrder life_key (all_lives index.now) (lives_of all.now) }
    requires within { IsWithinToo (plan_of index.now) keeping.now
        (option_map (λ k. k.now) other) }
    ensures { IfOk result (λ found.
        IsFirstKept (plan_of index.now) (lives_of all.now) keeping.now
        (option_map (λ k. k.now) other.entry) (option_map (λ p. p.now) found)) }
{
    for y in all {
        if keeps_out_too(alloc, index, keeping, other, y)? {
            return Ok(Some(y.pkg));
        }
    }
    Ok(None)
}

/// The same by the names of the blocks, where nothing is kept out.
fn first_kept<'a>(
    alloc: Global,
    index: &Index<'_>,
    all: &[Life<'a>],
    keeping: &Keeping<'_>,
    other: Option<&Keeping<'_>>,
) -> Result<Option<&'a Pkg>, AllocError>
    requires is { IsIndex index.now }
    requires order { AreInOrder life_key (all_lives index.now) (lives_of all.now) }
    requires within { IsWithinToo (plan_of index.now) keeping.now
        (option_map (λ k. k.now) other) }
    ensures { IfOk result (λ found.
        IsFirstKept (plan_of index.now) (lives_of all.now) keeping.now
        (option_map (λ k. k.now) other.entry) (option_map (λ p. p.now) found)) }
{
    if are_clear(alloc, index, keeping, other)? {
        return Ok(None);
    }
    first_of_all(alloc, index, all, keeping, other)
}

fn is_strong_block(atom: &Atom) -> bool
    ensures { result ≡ is_strong_block atom.now.block }
{
    match atom.block {
        Block::No | Block::Weak => false,
        Block::Strong => true,
    }
}

/// Whether the block is a strong one, or whether it is a weak one.
fn is_of_kind(atom: &Atom, strong: bool) -> bool
    ensures { result ≡ is_of_kind strong (atom_value atom.now) }
{
    is_strong_block(atom) == strong
}

/// The blocks of a package that count while it is there, the strong ones or the weak ones.
fn blocks_of<'a>(alloc: Global, pkg: &'a Pkg, strong: bool) -> Result<Vec<&'a Atom>, AllocError>
    ensures { IfOk result (λ blocks. map (λ atom. atom_value atom.now) blocks.items ≡
        blocks_of strong pkg.now) }
{
    let all = running_blocks(alloc, pkg)?;
    let mut blocks = Vec::new(alloc);
    for &atom in &all {
        if is_of_kind(atom, strong) {
            blocks.push(atom)?;
        }
    }
    Ok(blocks)
}

/// What a package keeps out while it is there, by its strong blocks or by its weak ones.
fn keeping_of<'a>(alloc: Global, x: &Life<'a>, strong: bool) -> Result<Keeping<'a>, AllocError>
    ensures { IfOk result (λ k. Keeps k (law.stretch_of (life_of x.now))
        (blocks_of strong (life_of x.now).package_is) (life_of x.now).package_is.facts.enabled
        (Some (line_of (life_of x.now).package_is.facts))) }
{
    let pkg = x.pkg;
    let line = pkg.line(alloc)?;
    let blocks = blocks_of(alloc, pkg, strong)?;
    Ok(Keeping {
        blocks,
        asker: &pkg.facts.enabled,
        line: Some(line),
        stretch: stretch_of(x),
    })
}

/// What bars a package that the group brings.
fn barring_of<'a>(alloc: Global, pkg: &'a Pkg, g: usize) -> Result<Keeping<'a>, AllocError>
    ensures { IfOk result (λ k. Keeps k (law.until g) (barring_blocks pkg.now)
        pkg.now.facts.enabled None) }
{
    let blocks = barring_blocks(alloc, pkg)?;
    Ok(Keeping {
        blocks,
        asker: &pkg.facts.enabled,
        line: None,
        stretch: Stretch::Until(g),
    })
}

/// Whether what a package blocks weakly isn't there with it.
pub(crate) fn judge_weak(
    alloc: Global,
    index: &Index<'_>,
    all: &[Life<'_>],
    x: &Life<'_>,
) -> Result<(), PlanRefused>
    requires is { IsIndex index.now }
    requires order { AreInOrder life_key (all_lives index.now) (lives_of all.now) }
    requires x { Has (all_lives index.now) (life_of x.now) }
    ensures { Says (weak_rule (plan_of index.now) (lives_of all.now) (life_of x.now)) result }
{
    let pkg = x.pkg;
    let keeping = keeping_of(alloc, x, false)?;
    if let Some(other) = first_kept(alloc, index, all, &keeping, None)? {
        let package = pkg.facts.id.try_clone()?;
        let other = other.facts.id.try_clone()?;
        return Err(PlanRefused::Blocked { package, other });
    }
    Ok(())
}

/// Tells what is kept out of the package's life by its strong blocks, or else by the others.
fn judge_kept(
    alloc: Global,
    index: &Index<'_>,
    all: &[Life<'_>],
    x: &Life<'_>,
    other: Option<&Keeping<'_>>,
) -> Result<(), PlanRefused>
    requires is { IsIndex index.now }
    requires order { AreInOrder life_key (all_lives index.now) (lives_of all.now) }
    requires x { Has (all_lives index.now) (life_of x.now) }
    requires others { IsOneWithin (plan_of index.now) (option_map (λ k. k.now) other) }
    ensures { Says (each (lives_of all.now) (λ y. refuse
        (IsBlocked (plan_of index.now) true (life_of x.now) y
        ⊎ IsKeptOutToo (plan_of index.now) (option_map (λ k. k.now) other.entry) y)
        (Barred (number_of (life_of x.now).birth) (life_of x.now).package_is.facts.id
        y.package_is.facts.id))) result }
{
    let pkg = x.pkg;
    let keeping = keeping_of(alloc, x, true)?;
    if let Some(other) = first_kept(alloc, index, all, &keeping, other)? {
        let package = pkg.facts.id.try_clone()?;
        let other = other.facts.id.try_clone()?;
        return Err(PlanRefused::Barred {
            group: number_of(x.birth),
            package,
            other,
        });
    }
    Ok(())
}

fn judge_coming(
    alloc: Global,
    index: &Index<'_>,
    all: &[Life<'_>],
    g: usize,
    x: &Life<'_>,
) -> Result<(), PlanRefused>
    requires is { IsIndex index.now }
    requires order { AreInOrder life_key (all_lives index.now) (lives_of all.now) }
    requires x { Has (all_lives index.now) (life_of x.now) }
    requires comes { (life_of x.now).birth ≡ law.commit g }
    ensures { Says (strong_rule (plan_of index.now) (lives_of all.now) (life_of x.now)) result }
{
    let barring = barring_of(alloc, x.pkg, g)?;
    judge_kept(alloc, index, all, x, Some(&barring))
}

/// Whether what a package blocks strongly isn't there with it, and what bars it isn't there when it
/// may come.
pub(crate) fn judge_strong(
    alloc: Global,
    index: &Index<'_>,
    all: &[Life<'_>],
    x: &Life<'_>,
) -> Result<(), PlanRefused>
    requires is { IsIndex index.now }
    requires order { AreInOrder life_key (all_lives index.now) (lives_of all.now) }
    requires x { Has (all_lives index.now) (life_of x.now) }
    ensures { Says (strong_rule (plan_of index.now) (lives_of all.now) (life_of x.now)) result }
{
    match x.birth {
        Moment::Opening => judge_kept(alloc, index, all, x, None),
        Moment::Commit(g) => judge_coming(alloc, index, all, g, x),
        Moment::Never => judge_kept(alloc, index, all, x, None),
    }
}
