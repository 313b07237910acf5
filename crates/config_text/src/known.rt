ghost use Rattle.std.specs.Prelude.{◌≡◌, ◌∷◌, ◌++◌, List, IfOk, OnOk, []};
ghost use Rattle.config_text.specs.Known.{Knows, value_of};
ghost use Rattle.config_text.specs.declared.assignment.Assignment.{Assignment};

use crate::assignment::Assignment;
use basics::Text;
use std::alloc::{AllocError, Global};
use std::collections::BTreeMap;

/// The last value of each key.
#[derive(Drop)]
pub(crate) struct Known {
    pub(crate) values: BTreeMap<Vec<u8>, Text>,
}

impl Known {
    pub(crate) fn new(alloc: Global, before: &[Assignment]) -> Result<Known, AllocError>
        ensures { IfOk result (λ k. Knows k.values before.now) }
    {
        let mut known = Known {
            values: BTreeMap::new(alloc),
        };
        for assignment in before {
            known.add(alloc, assignment)?;
        }
        Ok(known)
    }

    /// The value of a name, empty where it has none.
    pub(crate) fn get(&self, name: &[u8]) -> &str
        ensures { result.now ≡ value_of self.now.values name.now }
    {
        match self.values.get(name) {
            Some(value) => value.as_str(),
            None => "",
        }
    }

    pub(crate) fn add(&mut self, alloc: Global, assignment: &Assignment) -> Result<(), AllocError>
        ensures { OnOk result ((known : List Assignment) → Knows self.old.values known →
            Knows self.new.values (known ++ (assignment.now ∷ []))) }
    {
        let key = Vec::from_slice(alloc, assignment.key.as_str().as_bytes())?;
        let value = assignment.value.try_clone()?;
        self.values.insert(key, value)?;
        Ok(())
    }
}
