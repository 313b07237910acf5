ghost use Rattle.std.specs.Prelude.{◌≡◌, ◌++◌, IfOk, OnOk, map};
ghost use Rattle.pms_names.specs.Flags.{IsRising};
ghost use Rattle.vdb_law.specs.Fields.{Says, is_needed, name_of};
ghost use Rattle.vdb_law.specs.Packages.{paths};
ghost use Rattle.vdb_paths.specs.Files.{record_file};
ghost use Rattle.vdb_record.specs.Views.{field_of};
ghost use Rattle.vdb_files.specs.Recorded.{IsRecordable, folder_of};
ghost use Rattle.vdb_files.specs.Written.{AreFolderFiles, file_if_written, installed_with};
ghost use Rattle.vdb_files.specs.Written.{value_of};

use crate::contents::{in_order, text_of_contents};
use crate::laws::records_are_read_back;
use crate::named::facts_are_named;
use crate::texts::{text_of_eapi, text_of_flags, text_of_needs, text_of_required, text_of_slots};
use dep_atom::PackageId;
use file_tree::{Entry, Kind, Object};
use pkg_state::{Class, Pkg};
use std::alloc::{AllocError, Global};
use vdb_contents::Owned;
use vdb_paths::path_of_record;
use vdb_record::{Installed, RecordFile};

/// The files that a folder may have, in byte order of their names.
const FILES: [RecordFile; 11] = [
    RecordFile::Needs(Class::Bdepend),
    RecordFile::Contents,
    RecordFile::Needs(Class::Depend),
    RecordFile::Eapi,
    RecordFile::Needs(Class::Idepend),
    RecordFile::Iuse,
    RecordFile::Needs(Class::Pdepend),
    RecordFile::Needs(Class::Rdepend),
    RecordFile::RequiredUse,
    RecordFile::Slot,
    RecordFile::Use,
];

/// The files of the package's folder, in byte order of their names: CONTENTS, EAPI and SLOT, and of
/// the others those that have something to say. CONTENTS has the paths in byte order.
pub fn folder_files(alloc: Global, installed: &Installed) -> Result<Vec<Entry>, AllocError>
    ensures files { IfOk result (λ v. AreFolderFiles installed.now v.items) }
    ensures said { IsRecordable installed.now → IsRising (paths installed.now) →
        IfOk result (λ v. Says (folder_of installed.now v.items) installed.now) }
{
    facts_are_named(&installed.pkg.facts);
    records_are_read_back();
    let owned = in_order(alloc, &installed.owned)?;
    let mut files = Vec::new(alloc);
    for file in FILES {
        push_file(alloc, &installed.pkg, &owned, file, &mut files)?;
    }
    Ok(files)
}

/// Puts the file behind the others, if it is one that is written.
fn push_file(
    alloc: Global,
    pkg: &Pkg,
    owned: &[&Owned],
    file: RecordFile,
    files: &mut Vec<Entry>,
) -> Result<(), AllocError>
    ensures { OnOk result (files.new.items ≡ files.old.items ++
        file_if_written (installed_with pkg.now (map (λ o. o.now) owned.now)) (field_of file)) }
{
    let text = text_of(alloc, pkg, owned, file)?;
    if is_needed(file) || !text.is_empty() {
        let entry = record_file(alloc, &pkg.facts.id, file, text)?;
        files.push(entry)?;
    }
    Ok(())
}

/// What is written in the file.
fn text_of(
    alloc: Global,
    pkg: &Pkg,
    owned: &[&Owned],
    file: RecordFile,
) -> Result<Vec<u8>, AllocError>
    ensures { IfOk result (λ t. t.items ≡
        value_of (field_of file) (installed_with pkg.now (map (λ o. o.now) owned.now))) }
{
    match file {
        RecordFile::Contents => text_of_contents(alloc, owned),
        RecordFile::Eapi => text_of_eapi(alloc, pkg.eapi),
        RecordFile::Slot => text_of_slots(alloc, &pkg.facts),
        RecordFile::Use => text_of_flags(alloc, &pkg.facts.enabled),
        RecordFile::Iuse => text_of_flags(alloc, &pkg.facts.iuse),
        RecordFile::RequiredUse => text_of_required(alloc, &pkg.required_use),
        RecordFile::Needs(class) => text_of_needs(alloc, pkg.tree(class)),
    }
}

/// Whether the file is written even if it has nothing to say.
fn is_needed(file: RecordFile) -> bool
    ensures { result ≡ is_needed (field_of file) }
{
    matches!(
        file,
        RecordFile::Contents | RecordFile::Eapi | RecordFile::Slot
    )
}

/// The file of the package's folder with this text.
fn record_file(
    alloc: Global,
    id: &PackageId,
    file: RecordFile,
    bytes: Vec<u8>,
) -> Result<Entry, AllocError>
    ensures { IfOk result (λ e. e ≡ record_file id.now (name_of (field_of file)) bytes.items) }
{
    let path = path_of_record(alloc, id, file.name())?;
    Ok(Entry {
        path,
        object: Object {
            kind: Kind::Plain,
            bytes,
        },
    })
}
