ghost use Rattle.std.specs.Prelude.{◌≡◌};
ghost use Rattle.vdb_law.specs.Fields.{name_of};
ghost use Rattle.vdb_record.specs.Views.{field_of};

use pkg_state::Class;

/// A file that the database keeps in a package's folder.
#[derive(Clone, Copy, Debug)]
pub enum RecordFile {
    Contents,
    Eapi,
    Slot,
    Use,
    Iuse,
    RequiredUse,
    /// What the package depends on in a class.
    Needs(Class),
}

impl RecordFile {
    /// The name of the file in the folder.
    pub fn name(self) -> &'static str
        ensures { result.now ≡ name_of (field_of self) }
    {
        match self {
            RecordFile::Contents => "CONTENTS",
            RecordFile::Eapi => "EAPI",
            RecordFile::Slot => "SLOT",
            RecordFile::Use => "USE",
            RecordFile::Iuse => "IUSE",
            RecordFile::RequiredUse => "REQUIRED_USE",
            RecordFile::Needs(class) => class.word(),
        }
    }
}
