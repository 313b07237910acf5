ghost use Rattle.run_files.specs.Laws.{OwnersKeepTheirKeys};

/// A law: the owners of a tree keep their keys beside packages that come.
pub fn owners_keep_their_keys()
    ensures { OwnersKeepTheirKeys }
{}
