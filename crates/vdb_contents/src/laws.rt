ghost use Rattle.vdb_contents.specs.Contents.{ContentsAreReadBack, GoodHasNoFault, OneContents};
ghost use Rattle.vdb_contents.specs.Contents.{OneFault};

/// A law on CONTENTS: what is written is read back, a text says one list, and its first faulty line
/// is one.
pub fn contents_are_read_back()
    ensures back { ContentsAreReadBack }
    ensures one { OneContents }
    ensures good { GoodHasNoFault }
    ensures fault { OneFault }
{}
