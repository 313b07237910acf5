ghost use Rattle.std.specs.Prelude.{◌≡◌, ◌∷◌, [], not, IfOk, OnErr, OnOk};
ghost use Rattle.file_tree.specs.PathSets.{HasSame, is_in};

use crate::paths::Path;
use basics::Text;
use std::alloc::{AllocError, Global};
use std::collections::BTreeSet;
use std::marker::Model;

/// Paths that are taken. In clauses, their texts in byte order.
#[derive(Drop)]
pub struct TakenPaths {
    texts: BTreeSet<Text>,
}

impl Model for TakenPaths {
    ghost use Rattle.std.specs.Prelude.{List, ℕ};
    ghost use Rattle.std.specs.BTreeSet.{keys};

    ghost Value = { List (List ℕ) };

    ghost view = { λ t. keys t.texts };
}

impl TakenPaths {
    pub fn new(alloc: Global) -> TakenPaths
        ensures { result ≡ [] }
    {
        TakenPaths {
            texts: BTreeSet::new(alloc),
        }
    }

    /// Takes a path, and says whether it was free.
    pub fn take(&mut self, alloc: Global, path: &Path) -> Result<bool, AllocError>
        ensures free { IfOk result (λ free. free ≡ not (is_in self.old path.now)) }
        ensures taken { OnOk result (HasSame self.new (path.now ∷ self.old)) }
        ensures err { OnErr result (self.new ≡ self.old) }
    {
        let text = Text::new(alloc, path.text())?;
        Ok(self.texts.insert(text)?)
    }
}
