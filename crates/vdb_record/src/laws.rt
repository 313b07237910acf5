ghost use Rattle.std.specs.Prelude.{◌↔◌};
ghost use Rattle.vdb_law.specs.Fields.{Folder, Says};
ghost use Rattle.vdb_law.specs.Packages.{Installed, id_of};
ghost use Rattle.vdb_record.specs.Texts.{Tell, folder_texts};

/// A law: the texts of the files of a folder tell a package exactly where the folder says it.
pub fn texts_tell_what_folders_say()
    ensures { (f : Folder) (p : Installed) → Tell (folder_texts f) (id_of p) p ↔ Says f p }
{}
