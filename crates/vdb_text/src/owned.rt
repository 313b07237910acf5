ghost use Rattle.std.specs.Prelude.{◌≡◌, ◌⊎◌, ◌++◌, ◌+◌, ◌<◌, ℕ, IfErr, IfOk, List};
ghost use Rattle.std.specs.Prelude.{MatchOption, OnOk, length, map};
ghost use Rattle.owner_book.specs.declared.limits.TheConstants.{MOST_PATHS};
ghost use Rattle.vdb_contents.specs.Contents.{path_of};
ghost use Rattle.vdb_law.specs.Database.{IsTidy};
ghost use Rattle.vdb_overlap.specs.Indexes.{IsSeen};
ghost use Rattle.vdb_overlap.specs.Overlaps.{AreApart, IsFirstOverlap};
ghost use Rattle.vdb_overlap.specs.declared.overlap.Overlap.{Overlap as OverlapValue};
ghost use Rattle.vdb_text.specs.Faults.{overlap_fault};
ghost use Rattle.vdb_text.specs.Limits.{AreMany, AreWithin};
ghost use Rattle.vdb_text.specs.Owned.{all_paths};

use crate::fault::DatabaseFault;
use crate::limits::MOST_PACKAGES;
use file_tree::{Quantity, TreeFault};
use owner_book::MOST_PATHS;
use std::alloc::{AllocError, Global};
use vdb_contents::Owned;
use vdb_overlap::{Overlap, PathIndex};
use vdb_record::Installed;

/// What there is too much of, if anything: packages, or else paths that they own.
pub(crate) fn too_much(packages: &[Installed]) -> Option<Quantity>
    ensures { MatchOption result (AreWithin packages.now) (AreMany packages.now) }
{
    if packages.len() > MOST_PACKAGES {
        return Some(Quantity::Packages);
    }
    match paths_left(packages) {
        Some(_) => None,
        None => Some(Quantity::Paths),
    }
}

/// How many more paths may be owned beside those of the packages, unless these are too many.
fn paths_left(packages: &[Installed]) -> Option<usize>
    ensures { MatchOption result (MOST_PATHS < length (all_paths packages.now))
        (λ n. n + length (all_paths packages.now) ≡ MOST_PATHS) }
{
    let mut left = MOST_PATHS;
    for package in packages {
        let Some(fewer) = left.checked_sub(package.owned.len()) else {
            return None;
        };
        left = fewer;
    }
    Some(left)
}

/// The packages, if their paths are not in each other's way.
pub(crate) fn tidy(alloc: Global, packages: Vec<Installed>) -> Result<Vec<Installed>, DatabaseFault>
    ensures same { IfOk result (λ v. v.items ≡ packages.items) }
    ensures tidy { IfOk result (λ v. IsTidy v.items) }
    ensures fault { IfErr result
        (λ e. (e ≡ DatabaseFault.Tree TreeFault.Memory) ⊎ ((o : OverlapValue)
        × IsFirstOverlap (all_paths packages.items) o × (e ≡ overlap_fault o))) }
    ensures quiet { IfErr result (λ e. ¬ (e ≡ DatabaseFault.Tree TreeFault.Failed)) }
{
    match first_overlap(alloc, &packages)? {
        None => Ok(packages),
        Some(overlap) => Err(fault_of(overlap)),
    }
}

fn fault_of(overlap: Overlap) -> DatabaseFault
    ensures told { result ≡ overlap_fault overlap }
    ensures quiet { ¬ (result ≡ DatabaseFault.Tree TreeFault.Failed) }
{
    match overlap {
        Overlap::Twice { path } => DatabaseFault::OwnedTwice { path },
        Overlap::Nested { path, below } => DatabaseFault::Nested { path, below },
    }
}

/// The first overlap of the paths that the packages own.
fn first_overlap(alloc: Global, packages: &[Installed]) -> Result<Option<Overlap>, AllocError>
    ensures { IfOk result (λ r. MatchOption r (AreApart (all_paths packages.now))
        (IsFirstOverlap (all_paths packages.now))) }
{
    let mut index = PathIndex::new(alloc);
    for package in packages {
        add_paths(alloc, &mut index, &package.owned)?;
    }
    index.first_overlap(alloc)
}

fn add_paths(alloc: Global, index: &mut PathIndex, owned: &[Owned]) -> Result<(), AllocError>
    ensures { (ps : List (List ℕ)) → IsSeen ps index.old →
        OnOk result (IsSeen (ps ++ map path_of owned.now) index.new) }
{
    for one in owned {
        index.add(alloc, &one.path)?;
    }
    Ok(())
}
