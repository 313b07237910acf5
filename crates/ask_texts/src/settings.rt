//! The flags of a candidate: those that are on, and the settings that may be chosen.

use crate::flags::push_flags;
use crate::{cut, groups};
use pms_names::Flags;
use required_use::RequiredUse;
use std::alloc::{AllocError, Global};
use use_flags::{Change, Iuse, changes};
use visible_flags::{FlagRules, base_flags, variants};

/// What the configuration says of the flags, with two layers of changes.
#[derive(Drop)]
struct Rules {
    first: Vec<Change>,
    second: Vec<Change>,
    forced: Flags,
    masked: Flags,
    implicit: Flags,
}

/// The flags that are on, and behind a semicolon each setting that may be chosen. The fields are
/// IUSE, how many flags may be flipped, REQUIRED_USE, two layers of changes, and the flags that are
/// forced, masked and implicit.
pub(crate) fn settings(alloc: Global, fields: &str) -> Result<String, AllocError> {
    match settings_of(alloc, fields) {
        Some(told) => Ok(told),
        None => String::from_str(alloc, "not in form"),
    }
}

fn settings_of(alloc: Global, fields: &str) -> Option<String> {
    let (iuse, rest) = cut(fields);
    let (flips, rest) = cut(rest);
    let (required, rest) = cut(rest);
    let flips = flips.parse::<u32>().ok()?;
    let iuse = Iuse::parse(alloc, iuse).ok()?;
    let required = groups::read(alloc, required, false).ok()?;
    let rules = rules_of(alloc, rest)?;
    told(alloc, &iuse, &rules, &required, flips).ok()
}

fn rules_of(alloc: Global, fields: &str) -> Option<Rules> {
    let (first, rest) = cut(fields);
    let (second, rest) = cut(rest);
    let (forced, rest) = cut(rest);
    let (masked, implicit) = cut(rest);
    Some(Rules {
        first: changes(alloc, first).ok()?,
        second: changes(alloc, second).ok()?,
        forced: set_of(alloc, forced)?,
        masked: set_of(alloc, masked)?,
        implicit: set_of(alloc, implicit)?,
    })
}

fn set_of(alloc: Global, text: &str) -> Option<Flags> {
    let Iuse { flags, .. } = Iuse::parse(alloc, text).ok()?;
    Some(flags)
}

fn told(
    alloc: Global,
    iuse: &Iuse,
    rules: &Rules,
    required: &RequiredUse,
    flips: u32,
) -> Result<String, AllocError> {
    let layers = [rules.first.as_slice(), rules.second.as_slice()];
    let rules = FlagRules {
        layers: &layers,
        forced: &rules.forced,
        masked: &rules.masked,
        implicit: &rules.implicit,
    };
    let base = base_flags(&iuse.flags, &iuse.on, &rules)?;
    let found = variants(alloc, &iuse.flags, &base, &rules, required, flips)?;
    let mut told = String::new(alloc);
    push_flags(&mut told, &base)?;
    push_settings(&mut told, &found)?;
    Ok(told)
}

fn push_settings(told: &mut String, settings: &[Flags]) -> Result<(), AllocError> {
    for setting in settings {
        told.push(';')?;
        push_flags(told, setting)?;
    }
    Ok(())
}
