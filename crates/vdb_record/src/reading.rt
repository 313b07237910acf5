ghost use Rattle.std.specs.Prelude.{◌≡◌, IfErr, IfOk, MatchResult, OnOk};
ghost use Rattle.vdb_law.specs.Packages.{Installed as InstalledValue, id_of};
ghost use Rattle.vdb_record.specs.Faults.{AreThere, FirstFault, IsFirstMissing, IsFirstOfFiles};
ghost use Rattle.vdb_record.specs.Faults.{IsMissing};
ghost use Rattle.vdb_record.specs.Texts.{IsOfEdition, ReadAll, Tell};
ghost use Rattle.vdb_record.specs.Views.{texts_in};
ghost use Rattle.vdb_record.specs.declared.fault.RecordFault.TheVariants.{Memory};

use crate::fault::RecordFault;
use crate::file::RecordFile;
use crate::installed::Installed;
use crate::texts::RecordTexts;
use crate::values::{edition_of, flags_of, known_of, needs_of, owned_of, required_of, slots_of};
use dep_atom::{Facts, PackageId};
use pkg_state::{Class, Eapi, Pkg};
use std::alloc::Global;

/// The package of this id, as the texts of its folder's files tell it. Of the faults come first
/// those of CONTENTS, EAPI and SLOT that are missing, then that of EAPI, and then those of the other
/// files in byte order of their names. The file of a class that the edition lacks is ignored.
pub fn read_record(
    alloc: Global,
    id: PackageId,
    texts: &RecordTexts,
) -> Result<Installed, RecordFault>
    ensures found { IfOk result (λ p. Tell (texts_in texts.now) id p) }
    ensures only { (p : InstalledValue) → Tell (texts_in texts.now) id p →
        MatchResult result (λ r. r ≡ p) (λ e. e ≡ Memory) }
    ensures fault { IfErr result (FirstFault (texts_in texts.now)) }
{
    if let Some(file) = missing(texts) {
        return Err(RecordFault::Missing { file });
    }
    match edition_of(alloc, &texts.eapi)? {
        Some(edition) => read_files(alloc, id, edition, texts),
        None => Err(RecordFault::Eapi),
    }
}

/// The first of the files that must be there and isn't.
fn missing(texts: &RecordTexts) -> Option<RecordFile>
    ensures { IsMissing (texts_in texts.now) result }
{
    if !texts.contents.is_there() {
        return Some(RecordFile::Contents);
    }
    if !texts.eapi.is_there() {
        return Some(RecordFile::Eapi);
    }
    if !texts.slot.is_there() {
        return Some(RecordFile::Slot);
    }
    None
}

/// What the files tell in the edition that EAPI says.
fn read_files(
    alloc: Global,
    id: PackageId,
    edition: Eapi,
    texts: &RecordTexts,
) -> Result<Installed, RecordFault>
    requires edition { IsOfEdition (texts_in texts.now) edition }
    ensures id { IfOk result (λ p. id_of p ≡ id) }
    ensures found { IfOk result (λ p. ReadAll (texts_in texts.now) p) }
    ensures only { (p : InstalledValue) → id_of p ≡ id → ReadAll (texts_in texts.now) p →
        MatchResult result (λ r. r ≡ p) (λ e. e ≡ Memory) }
    ensures fault { IfErr result (IsFirstOfFiles edition (texts_in texts.now)) }
{
    let bdepend = needs_of(alloc, edition, Class::Bdepend, &texts.bdepend)?;
    let owned = owned_of(alloc, &texts.contents)?;
    let depend = needs_of(alloc, edition, Class::Depend, &texts.depend)?;
    let idepend = needs_of(alloc, edition, Class::Idepend, &texts.idepend)?;
    let iuse = known_of(alloc, &texts.iuse)?;
    let pdepend = needs_of(alloc, edition, Class::Pdepend, &texts.pdepend)?;
    let rdepend = needs_of(alloc, edition, Class::Rdepend, &texts.rdepend)?;
    let required_use = required_of(alloc, edition, &texts.required_use)?;
    let slots = slots_of(alloc, &texts.slot)?;
    let enabled = flags_of(alloc, &texts.enabled)?;
    let facts = Facts {
        id,
        slot: slots.slot,
        subslot: slots.subslot,
        iuse,
        enabled,
    };
    let pkg = Pkg {
        facts,
        eapi: edition,
        rdepend,
        pdepend,
        depend,
        bdepend,
        idepend,
        required_use,
    };
    Ok(Installed { pkg, owned })
}
