ghost use Rattle.vdb_files.specs.Recorded.{FilesAreInTheFolder, RecordsAreReadBack};
ghost use Rattle.vdb_files.specs.Recorded.{SaidIsRecordable, SortedRecordsAreReadBack};

/// A law on what is written of a package: a folder of just these files says the package, with its
/// paths in byte order. Where they rise already that is the package itself.
pub fn records_are_read_back()
    ensures sorted { SortedRecordsAreReadBack }
    ensures same { RecordsAreReadBack }
    ensures inside { FilesAreInTheFolder }
{
    vdb_contents::contents_are_read_back();
}

/// A law: what a folder says of a package can be recorded again.
pub fn said_packages_are_recordable()
    ensures { SaidIsRecordable }
{
    dep_tree::trees_in_form_are_atoms_in_groups();
}
