ghost use Rattle.std.specs.Prelude.{◌≡◌, ◌++◌, ◌∷◌, [], ℕ, List, IfOk, OnOk};
ghost use Rattle.dep_atom.specs.Ids.{id_text};
ghost use Rattle.law_run.specs.Openings.{key_at, place_of};
ghost use Rattle.run_files.specs.Places.{ArePlaces};

use dep_atom::PackageId;
use merge_record::OwnerKey;
use std::alloc::{AllocError, Global};
use std::collections::BTreeMap;

/// The first place of each folder in a list, to be looked up.
#[derive(Drop)]
pub struct Places {
    pub(crate) places: BTreeMap<String, u32>,
    pub(crate) count: u32,
}

impl Places {
    /// The places of no folders.
    pub fn new(alloc: Global) -> Places
        ensures { ArePlaces [] result }
    {
        Places {
            places: BTreeMap::new(alloc),
            count: 0,
        }
    }

    /// Takes one more folder, that of a package with this id.
    pub fn add(&mut self, alloc: Global, id: &PackageId) -> Result<(), AllocError>
        ensures { (texts : List (List ℕ)) → ArePlaces texts self.old →
            OnOk result (ArePlaces (texts ++ id_text id.now ∷ []) self.new) }
    {
        let folder = id.print(alloc)?;
        let place = self.count;
        let Some(count) = place.checked_add(1) else {
            return Err(AllocError);
        };
        if !self.places.contains_key(folder.as_str()) {
            self.places.insert(folder, place)?;
        }
        self.count = count;
        Ok(())
    }

    /// The key of the package with this id: the first place of its folder, or how many there are.
    pub fn key(&self, alloc: Global, id: &PackageId) -> Result<OwnerKey, AllocError>
        ensures { (texts : List (List ℕ)) → ArePlaces texts self.now →
            IfOk result (λ k. k ≡ key_at (place_of (id_text id.now) texts)) }
    {
        let folder = id.print(alloc)?;
        let number = match self.places.get(folder.as_str()) {
            Some(place) => *place,
            None => self.count,
        };
        Ok(OwnerKey { number })
    }
}
