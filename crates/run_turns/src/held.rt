ghost use Rattle.std.specs.Prelude.{◌≡◌, ◌++◌, [], ℕ, List, OnOk, string_bytes};
ghost use Rattle.dep_atom.specs.Ids.{id_text};
ghost use Rattle.run_turns.specs.Held.{holding, holdings_of};

use dep_atom::PackageId;
use file_tree::Path;
use std::alloc::{AllocError, Global};
use std::collections::BTreeMap;

/// The paths that are held for the folders of packages, to be looked up.
#[derive(Drop)]
pub struct Held {
    pub(crate) paths: BTreeMap<String, Vec<Path>>,
}

impl Held {
    /// No paths for any folder.
    pub fn new(alloc: Global) -> Held
        ensures { (folder : List ℕ) → holdings_of result folder ≡ [] }
    {
        Held {
            paths: BTreeMap::new(alloc),
        }
    }

    /// Takes these paths for a folder, in place of others.
    pub(crate) fn hold(&mut self, folder: String, paths: Vec<Path>) -> Result<(), AllocError>
        ensures { OnOk result ((q : List ℕ) → holdings_of self.new q ≡
            holding (string_bytes folder) paths.items (holdings_of self.old) q) }
    {
        let _before = self.paths.insert(folder, paths)?;
        Ok(())
    }

    /// Puts the paths for a package with this id behind others.
    pub(crate) fn add_held(
        &self,
        alloc: Global,
        id: &PackageId,
        paths: &mut Vec<Path>,
    ) -> Result<(), AllocError>
        ensures { OnOk result (paths.new.items ≡
            paths.old.items ++ holdings_of self.now (id_text id.now)) }
    {
        let folder = id.print(alloc)?;
        match self.paths.get(folder.as_str()) {
            Some(held) => add_copies(held, paths),
            None => Ok(()),
        }
    }
}

/// Puts copies of paths behind others.
pub(crate) fn add_copies(held: &[Path], paths: &mut Vec<Path>) -> Result<(), AllocError>
    ensures { OnOk result (paths.new.items ≡ paths.old.items ++ held.now) }
{
    for path in held {
        paths.push(path.try_clone()?)?;
    }
    Ok(())
}
