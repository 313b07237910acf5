ghost use Rattle.std.specs.Prelude.{◌≡◌, ◌↔◌, ℕ, List, Option};
ghost use Rattle.basics.specs.Members.{AreDistinct, Has};
ghost use Rattle.file_tree.specs.Disk.{Map};
ghost use Rattle.profile_folders.specs.Folders.{Walks};
ghost use Rattle.profile_folders.specs.Stacks.{Stands, stacked};
ghost use Rattle.profile_folders.specs.declared.fault.ProfileFault.{ProfileFault};

/// A law: the profile at a path of a map is read in one way at most, and so has one first fault.
pub fn one_walk()
    ensures { (m : Map) (path : List ℕ) (xs ys : List (List ℕ)) (e f : Option ProfileFault) →
        Walks m path xs e → Walks m path ys f → (xs ≡ ys) × (e ≡ f) }
{}

/// A law: an item stands exactly where one of the texts adds it and none behind that takes it back,
/// and it stands once.
pub fn last_word_counts()
    ensures stands { (texts : List (List ℕ)) (item : List ℕ) →
        Has (stacked texts) item ↔ Stands texts item }
    ensures once { (texts : List (List ℕ)) → AreDistinct (stacked texts) }
{}
