ghost use Rattle.std.specs.Prelude.{◌≡◌, None, Some};
ghost use Rattle.std.specs.Option.{is_some};
ghost use Rattle.vdb_record.specs.Texts.{value};

use std::marker::Model;

/// The bytes of a file, if it is there.
#[derive(Debug, Drop)]
pub struct FileText {
    bytes: Option<Vec<u8>>,
}

impl Model for FileText {
    ghost use Rattle.std.specs.Prelude.{List, Option, ℕ};
    ghost use Rattle.std.specs.Option.{option_map};

    ghost Value = { Option (List ℕ) };

    ghost view = { λ f. option_map (λ v. v.items) f.bytes };
}

impl FileText {
    /// The text of a file that is there.
    pub fn new(bytes: Vec<u8>) -> FileText
        ensures { result ≡ Some bytes.items }
    {
        FileText { bytes: Some(bytes) }
    }

    /// That of one that is missing.
    pub fn missing() -> FileText
        ensures { result ≡ None }
    {
        FileText { bytes: None }
    }

    pub(crate) fn is_there(&self) -> bool
        ensures { result ≡ is_some self.now }
    {
        self.bytes.is_some()
    }

    /// The bytes, which are none where the file is missing.
    pub(crate) fn value(&self) -> &[u8]
        ensures { result.now ≡ value self.now }
    {
        match &self.bytes {
            Some(bytes) => bytes.as_slice(),
            None => &[],
        }
    }
}

/// The texts of the files of a package's folder.
#[derive(Debug, Drop)]
pub struct RecordTexts {
    pub contents: FileText,
    pub eapi: FileText,
    pub slot: FileText,
    /// Of USE.
    pub enabled: FileText,
    pub iuse: FileText,
    pub required_use: FileText,
    pub rdepend: FileText,
    pub pdepend: FileText,
    pub depend: FileText,
    pub bdepend: FileText,
    pub idepend: FileText,
}
