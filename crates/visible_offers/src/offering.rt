ghost use Rattle.std.specs.Prelude.{◌≡◌, IfOk};
ghost use Rattle.std.specs.List.{AllZip};
ghost use Rattle.pms_names.specs.Flags.{has};
ghost use Rattle.visible_offers.specs.Offered.{HasOn, IsOffered};

use crate::candidate::Candidate;
use crate::choosing::settings_of;
use crate::config::FlagConfig;
use md5_cache::CacheEntry;
use pkg_state::{Pkg, package_with};
use pms_names::Flags;
use std::alloc::{AllocError, Global};

/// The candidate of the entry, where at most so many of its flags are flipped.
pub fn offer(
    alloc: Global,
    config: &FlagConfig,
    entry: &CacheEntry,
    flips: u32,
) -> Result<Candidate, AllocError>
    ensures { IfOk result (IsOffered config.now flips entry.now) }
{
    let pkg = pkg_of(entry);
    let settings = settings_of(alloc, config, entry, flips)?;
    let variants = variants_with(alloc, pkg, &settings)?;
    let implicit = implicit_of(config)?;
    let offered = package_with(pkg, implicit)?;
    Ok(Candidate { offered, variants })
}

fn pkg_of(entry: &CacheEntry) -> &Pkg
    ensures { result.now ≡ entry.now.package_is }
{
    &entry.pkg
}

fn implicit_of(config: &FlagConfig) -> Result<Flags, AllocError>
    ensures { IfOk result (λ set. set ≡ config.now.implicit) }
{
    config.implicit.try_clone()
}

/// A package for each of the settings.
fn variants_with(alloc: Global, pkg: &Pkg, settings: &[Flags]) -> Result<Vec<Pkg>, AllocError>
    ensures { IfOk result (λ v.
        AllZip (λ on. HasOn pkg.now (has on)) settings.now v.items) }
{
    let mut variants = Vec::new(alloc);
    for setting in settings {
        variants.push(variant_with(pkg, setting)?)?;
    }
    Ok(variants)
}

fn variant_with(pkg: &Pkg, on: &Flags) -> Result<Pkg, AllocError>
    ensures { IfOk result (HasOn pkg.now (has on.now)) }
{
    let _in_order = on.list();
    package_with(pkg, on.try_clone()?)
}
