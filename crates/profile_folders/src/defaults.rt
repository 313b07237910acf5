ghost use Rattle.std.specs.Prelude.{◌≡◌, ◌⊎◌, List, IfErr, IfOk, IsErrOf, IsTrue, MatchResult};
ghost use Rattle.config_text.specs.declared.assignment.Assignment.{Assignment as AssignmentValue};
ghost use Rattle.file_tree.specs.Disk.{CountsFault};
ghost use Rattle.profile_folders.specs.Defaults.{AreDefaults, IsDefaultsFault};
ghost use Rattle.profile_folders.specs.Machine.{IsOfMachine};

use crate::fault::ProfileFault;
use crate::text::{file_in, located, read_text};
use config_text::{Assignment, assignments};
use file_tree::{Path, Tree, TreeFault};
use std::alloc::Global;

/// The variables that the profile in the folder sets in its file `make.defaults`, where those that
/// earlier files set are known. A missing file sets none.
pub fn read_defaults<T: Tree>(
    alloc: Global,
    tree: &mut T,
    folder: &Path,
    known: &[Assignment],
) -> Result<Vec<Assignment>, ProfileFault>
    ensures found { IsTrue T.tells → IfOk result
        (λ v. AreDefaults (T.story tree.old).now.holds folder.now known.now v.items) }
    ensures only { IsTrue T.tells → (those : List AssignmentValue) →
        AreDefaults (T.story tree.old).now.holds folder.now known.now those →
        MatchResult result (λ v. v.items ≡ those) IsOfMachine }
    ensures fault { IsTrue T.tells → IfErr result
        (λ e. IsOfMachine e ⊎ IsDefaultsFault (T.story tree.old).now.holds folder.now e) }
    ensures same { IsTrue T.tells → T.story tree.new ≡ T.story tree.old }
    ensures faults { CountsFault (IsErrOf result (ProfileFault.Tree TreeFault.Failed))
        (T.faults tree.old) (T.faults tree.new) }
{
    let Some(file) = file_in(alloc, folder, "make.defaults")? else {
        return Ok(Vec::new(alloc));
    };
    let bytes = read_text(alloc, tree, &file)?;
    match assignments(alloc, &bytes, known) {
        Ok(found) => Ok(found),
        Err(fault) => Err(located(&file, fault)?),
    }
}
