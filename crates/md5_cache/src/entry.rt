ghost use Rattle.std.specs.Prelude.{◌≡◌, IfErr, IfOk, OnOk};
ghost use Rattle.md5_cache.specs.Entries.{Tells};
ghost use Rattle.md5_cache.specs.EntryFaults.{FirstEntryFault, IsEntry};
ghost use Rattle.md5_cache.specs.Fields.{AreFieldsOf};
ghost use Rattle.md5_cache.specs.Pairs.{pairs_of};
ghost use Rattle.md5_cache.specs.declared.fault.CacheFault.TheVariants as faults;

use crate::digest::check_digest;
use crate::fault::CacheFault;
use crate::field::check_fields;
use crate::pair::{Pair, pairs};
use crate::parts::entry_of;
use basics::Text;
use dep_atom::PackageId;
use pkg_state::{Eapi, Pkg};
use pms_names::Flags;
use std::alloc::Global;
use std::marker::Model;

/// What the repository's cache says of a package. Which of its flags are on isn't told by an entry,
/// so none is.
#[derive(Debug, Drop)]
pub struct CacheEntry {
    pub pkg: Pkg,
    /// The flags that are on by default.
    pub iuse_on: Flags,
    pub keywords: Vec<Text>,
}

impl Model for CacheEntry {
    ghost use Rattle.std.specs.Coded.{codes};
    ghost use Rattle.pkg_state.specs.Codes.{trees_code};
    ghost use Rattle.md5_cache.specs.Entries.{CacheEntryValue};

    ghost Value = { CacheEntryValue };

    ghost coded = { Prim.hlevel (codes, trees_code) };

    ghost view = { λ e. record {
      package_is = e.pkg;
      on = e.iuse_on;
      keywords = e.keywords.items;
    } };
}

/// The pairs of an entry, with its edition.
#[derive(Debug, Drop)]
struct EntryPairs {
    edition: Eapi,
    pairs: Vec<Pair>,
}

/// Reads the entry of the package with this id, whose ebuild has these bytes.
pub fn read_entry(
    alloc: Global,
    id: PackageId,
    bytes: &[u8],
    ebuild: &[u8],
) -> Result<CacheEntry, CacheFault>
    ensures found { IfOk result (λ e. Tells (pairs_of bytes.now) id e) }
    ensures form { OnOk result (IsEntry bytes.now ebuild.now) }
    ensures only { IsEntry bytes.now ebuild.now → IfErr result (λ e. e ≡ faults.Memory) }
    ensures fault { IfErr result (FirstEntryFault bytes.now ebuild.now) }
{
    let entry = entry_pairs(alloc, bytes, ebuild)?;
    Ok(entry_of(alloc, id, entry.edition, &entry.pairs)?)
}

/// The pairs of an entry that was made of this ebuild.
fn entry_pairs(alloc: Global, bytes: &[u8], ebuild: &[u8]) -> Result<EntryPairs, CacheFault>
    ensures found { IfOk result (λ e. e.pairs.items ≡ pairs_of bytes.now) }
    ensures fields { IfOk result (λ e. AreFieldsOf e.edition e.pairs.items) }
    ensures form { OnOk result (IsEntry bytes.now ebuild.now) }
    ensures only { IsEntry bytes.now ebuild.now → IfErr result (λ e. e ≡ faults.Memory) }
    ensures fault { IfErr result (FirstEntryFault bytes.now ebuild.now) }
{
    let pairs = pairs(alloc, bytes)?;
    let edition = check_fields(alloc, &pairs)?;
    check_digest(&pairs, ebuild)?;
    Ok(EntryPairs { edition, pairs })
}
