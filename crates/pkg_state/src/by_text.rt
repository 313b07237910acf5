ghost use Rattle.std.specs.Prelude.{◌≡◌, ◌++◌, ℕ, List, OnOk, []};
ghost use Rattle.pkg_state.specs.Index.{listed, one_under};

use std::alloc::{AllocError, Global};
use std::collections::BTreeMap;

/// Lists of items under texts, which are found in the logarithm of the number of texts.
#[derive(Drop)]
pub struct ByText<'a, T: Drop> {
    pub lists: BTreeMap<&'a str, Vec<T>>,
}

impl<'a, T: Drop> ByText<'a, T> {
    /// No list at all.
    pub fn new(alloc: Global) -> ByText<'a, T>
        ensures { (text : List ℕ) → listed result.lists text ≡ [] }
    {
        ByText {
            lists: BTreeMap::new(alloc),
        }
    }

    /// Puts an item behind those of its text.
    pub fn add(&mut self, alloc: Global, text: &'a str, item: T) -> Result<(), AllocError>
        ensures { OnOk result ((other : List ℕ) → listed self.new.lists other ≡
            listed self.old.lists other ++ one_under text.now other item) }
    {
        let mut list = match self.lists.remove(text) {
            Some(list) => list,
            None => Vec::new(alloc),
        };
        list.push(item)?;
        self.lists.insert(text, list)?;
        Ok(())
    }

    /// The items of a text, in the order in which they were put there.
    pub fn get(&self, text: &str) -> &[T]
        ensures { result.now ≡ listed self.now.lists text.now }
    {
        match self.lists.get(text) {
            Some(list) => list.as_slice(),
            None => &[],
        }
    }
}
