ghost use Rattle.std.specs.Prelude.{◌≡◌, ◌++◌, [], filter, map, IfOk, OnOk};
ghost use Rattle.pms_names.specs.Flags.{has};
ghost use Rattle.required_use.specs.View.{trees};
ghost use Rattle.visible_flags.specs.Variants.{flipped, is_free, lists_of, settings, variants};

use crate::base::FlagRules;
use pms_names::{Flag, Flags};
use required_use::RequiredUse;
use std::alloc::{AllocError, Global};

/// The settings of a candidate's flags that may be chosen, the base setting before all others: at
/// most so many of the flags that it knows are flipped, and REQUIRED_USE holds. Settings with as
/// many flips are in byte order of their lists of flipped flags.
pub fn variants(
    alloc: Global,
    known: &Flags,
    base: &Flags,
    rules: &FlagRules,
    required: &RequiredUse,
    flips: u32,
) -> Result<Vec<Flags>, AllocError>
    ensures { IfOk result (λ v. map has v.items ≡
        variants (trees required.now) rules.now known.now (has base.now) flips) }
{
    let free = free_flags(alloc, known, rules)?;
    let mut found = Vec::new(alloc);
    for changed in 0..u64::from(flips) + 1 {
        add_settings(required, base, &free, changed, &mut found)?;
    }
    Ok(found)
}

fn free_flags(alloc: Global, known: &Flags, rules: &FlagRules) -> Result<Vec<Flag>, AllocError>
    ensures { IfOk result (λ v. v.items ≡ filter (is_free rules.now) known.now) }
{
    let mut free = Vec::new(alloc);
    for flag in known.list() {
        if is_free(rules, flag) {
            free.push(flag.try_clone()?)?;
        }
    }
    Ok(free)
}

fn is_free(rules: &FlagRules, flag: &Flag) -> bool
    ensures { result ≡ is_free rules.now flag.now }
{
    !(rules.forced.has(flag) || rules.masked.has(flag) || rules.implicit.has(flag))
}

/// Adds the settings with just so many of the free flags flipped.
fn add_settings(
    required: &RequiredUse,
    flags: &Flags,
    free: &[Flag],
    flips: u64,
    found: &mut Vec<Flags>,
) -> Result<(), AllocError>
    ensures { OnOk result (map has found.new.items ≡ map has found.old.items
        ++ settings (trees required.now) (has flags.now) (lists_of flips free.now)) }
{
    if flips == 0 {
        return add_setting(required, flags, found);
    }
    let mut rest = free;
    while let Some((flag, later)) = rest.split_first() {
        let other = with_flipped(flags, flag)?;
        add_settings(required, &other, later, flips - 1, found)?;
        rest = later;
    }
    Ok(())
}

fn add_setting(
    required: &RequiredUse,
    flags: &Flags,
    found: &mut Vec<Flags>,
) -> Result<(), AllocError>
    ensures { OnOk result (map has found.new.items ≡ map has found.old.items
        ++ settings (trees required.now) (has flags.now) (lists_of 0 [])) }
{
    if required.holds(flags) {
        found.push(flags.try_clone()?)?;
    }
    Ok(())
}

fn with_flipped(flags: &Flags, flag: &Flag) -> Result<Flags, AllocError>
    ensures { IfOk result (λ set. has set ≡ flipped (has flags.now) flag.now) }
{
    let mut set = flags.try_clone()?;
    if !set.remove(flag) {
        let _ = set.insert(flag.try_clone()?)?;
    }
    Ok(set)
}
