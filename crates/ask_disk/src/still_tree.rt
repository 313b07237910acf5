//! A tree that costs next to nothing.

ghost use Rattle.std.specs.Prelude.{[], None, false};

use file_tree::{Failed, Kind, Look, Object, Path, Tree, TreeFault};
use std::alloc::{AllocError, Global};

/// A tree that takes each call and keeps nothing, so that only its callers cost time. It reads as
/// the journal of one open group with this record, each stage of which is an empty file.
#[derive(Drop)]
pub struct StillTree {
    pub alloc: Global,
    /// The gate of that group, where there is one.
    pub gate: Option<Path>,
    pub filed: Vec<u8>,
    /// How many calls were made.
    pub calls: u64,
}

impl StillTree {
    ghost use Rattle.std.specs.Prelude.{IfOk};
    ghost use Rattle.std.specs.Cmp.Lexicographic.{slice_cmp};
    ghost use Rattle.std.specs.List.Sorted.{IsStrictlySortedBy};
    ghost use Rattle.std.specs.Ordering.{nat_cmp};

    fn count(&mut self) {
        self.calls = self.calls.saturating_add(1);
    }

    /// The gate, where there is one.
    #[tactic(auto, using(crate::proofs::One::of_none, crate::proofs::One::of_one))]
    fn gates(&self) -> Result<Vec<Path>, AllocError>
        ensures { IfOk result (λ v. IsStrictlySortedBy (slice_cmp nat_cmp) v.items) }
    {
        let Some(gate) = &self.gate else {
            return Ok(Vec::new(self.alloc));
        };
        let mut paths = Vec::new(self.alloc);
        paths.push(gate.try_clone()?)?;
        Ok(paths)
    }

    /// What each path reads as.
    fn bytes_at(&self, path: &Path) -> Result<Vec<u8>, AllocError> {
        let text = path.text();
        if text.ends_with("/gate") {
            Vec::from_slice(self.alloc, &[1])
        } else if text.ends_with("/record") {
            Vec::from_slice(self.alloc, &self.filed)
        } else {
            Ok(Vec::new(self.alloc))
        }
    }
}

impl Tree for StillTree {
    ghost tells = { false };

    ghost story = { λ _. record {
      past = [];
      now = record { holds = λ _. None; touched = λ _. false };
    } };

    ghost faults = { λ _. 0 };

    fn look(&mut self, _path: &Path) -> Result<Look, Failed> {
        self.count();
        Ok(Look::Nothing)
    }

    fn read(&mut self, path: &Path) -> Result<Option<Object>, TreeFault> {
        self.count();
        let bytes = self.bytes_at(path)?;
        Ok(Some(Object {
            kind: Kind::Plain,
            bytes,
        }))
    }

    fn list(&mut self, _below: &Path) -> Result<Vec<Path>, TreeFault> {
        self.count();
        Ok(self.gates()?)
    }

    fn put(&mut self, _path: &Path, _object: &Object) -> Result<(), TreeFault> {
        self.count();
        Ok(())
    }

    fn place(&mut self, _from: &Path, _to: &Path) -> Result<(), Failed> {
        self.count();
        Ok(())
    }

    fn remove(&mut self, _path: &Path) -> Result<(), Failed> {
        self.count();
        Ok(())
    }

    fn sync(&mut self) -> Result<(), Failed> {
        self.count();
        Ok(())
    }
}
