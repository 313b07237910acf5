ghost use Rattle.std.specs.Prelude.{◌≡◌, IfOk, map};
ghost use Rattle.pms_names.specs.Flags.{has};
ghost use Rattle.required_use.specs.View.{trees};
ghost use Rattle.visible_offers.specs.Flags.{settings_of};
ghost use Rattle.visible_offers.specs.Layers.{base_by, free_by, layers_of, settings_by};

use crate::changes::changes_said;
use crate::config::FlagConfig;
use dep_atom::Facts;
use md5_cache::CacheEntry;
use pms_names::Flags;
use required_use::RequiredUse;
use std::alloc::{AllocError, Global};
use use_flags::Change;
use visible_flags::{FlagRules, base_flags, variants};
use visible_rules::FlagItems;

/// The settings of the candidate's flags that may be chosen, the base setting before all others: at
/// most so many flags are flipped.
pub(crate) fn settings_of(
    alloc: Global,
    config: &FlagConfig,
    entry: &CacheEntry,
    flips: u32,
) -> Result<Vec<Flags>, AllocError>
    ensures { IfOk result (λ v. map has v.items ≡ settings_of config.now entry.now flips) }
{
    let facts = facts_of(entry);
    let defaults = changes_said(alloc, config.defaults, &facts.iuse)?;
    let conf = changes_said(alloc, config.conf, &facts.iuse)?;
    let layers = layers_of(
        alloc,
        facts,
        &defaults,
        &config.profile_uses,
        &conf,
        &config.uses,
    )?;
    let forced = config.forces.turned_on(alloc, facts)?;
    let masked = config.masks.turned_on(alloc, facts)?;
    settings_by(
        alloc,
        entry,
        &layers,
        &forced,
        &masked,
        config.implicit,
        flips,
    )
}

fn facts_of(entry: &CacheEntry) -> &Facts
    ensures { result.now ≡ entry.now.package_is.facts }
{
    &entry.pkg.facts
}

/// The flags that the candidate knows.
fn known_of(entry: &CacheEntry) -> &Flags
    ensures { result.now ≡ entry.now.package_is.facts.iuse }
{
    &entry.pkg.facts.iuse
}

/// Those that are on by default.
fn on_of(entry: &CacheEntry) -> &Flags
    ensures { result.now ≡ entry.now.on }
{
    &entry.iuse_on
}

fn required_of(entry: &CacheEntry) -> &RequiredUse
    ensures { trees result.now ≡ entry.now.package_is.required }
{
    &entry.pkg.required_use
}

/// The layers of changes that count for the package, in their order.
fn layers_of<'a>(
    alloc: Global,
    facts: &Facts,
    defaults: &'a [Change],
    profile_uses: &'a FlagItems<'_>,
    conf: &'a [Change],
    uses: &'a FlagItems<'_>,
) -> Result<Vec<&'a [Change]>, AllocError>
    ensures { IfOk result (λ v. map (λ c. c.now) v.items ≡ layers_of facts.now defaults.now
        profile_uses.now conf.now uses.now) }
{
    let mut layers = Vec::new(alloc);
    layers.push(defaults)?;
    let mut rules = profile_uses.changes_for(alloc, facts)?;
    layers.append(&mut rules)?;
    layers.push(conf)?;
    let mut rules = uses.changes_for(alloc, facts)?;
    layers.append(&mut rules)?;
    Ok(layers)
}

/// The settings by these layers, forced flags and masked flags.
fn settings_by(
    alloc: Global,
    entry: &CacheEntry,
    layers: &[&[Change]],
    forced: &Flags,
    masked: &Flags,
    implicit: &Flags,
    flips: u32,
) -> Result<Vec<Flags>, AllocError>
    ensures { IfOk result (λ v. map has v.items ≡ settings_by entry.now.package_is.required
        entry.now.package_is.facts.iuse (base_by (map (λ c. c.now) layers.now) forced.now
        masked.now implicit.now entry.now.package_is.facts.iuse entry.now.on)
        (free_by forced.now masked.now implicit.now) flips) }
{
    let rules = FlagRules {
        layers,
        forced,
        masked,
        implicit,
    };
    let known = known_of(entry);
    let base = base_flags(known, on_of(entry), &rules)?;
    variants(alloc, known, &base, &rules, required_of(entry), flips)
}
