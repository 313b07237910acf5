ghost use Rattle.std.specs.Prelude.{◌≡◌, ◌⊎◌, IfErr, IfOk, IsErrOf, IsTrue};
ghost use Rattle.file_tree.specs.Disk.{CountsFault};
ghost use Rattle.profile_lines.specs.Faults.{IsMachine, device_failed};
ghost use Rattle.profile_stack.specs.Files.{Config, configured};
ghost use Rattle.visible_set.specs.Configured.{IsRead, MissRead, profile_path};
ghost use Rattle.visible_set.specs.Faults.{IsOfMachine, IsUnread};

use crate::fault::{OffersFault, fault_of};
use file_tree::{Path, Tree, TreeFault};
use profile_lines::{ReadFault, read};
use profile_stack::{MAKE_PROFILE, UserConfig, read_user};
use std::alloc::{AllocError, Global};

/// What the profile and the user's files say.
pub(crate) fn read_config<T: Tree>(alloc: Global, tree: &mut T) -> Result<UserConfig, OffersFault>
    ensures found { IsTrue T.tells → IfOk result
        (λ c. IsRead (T.story tree.old).now.holds (configured c)) }
    ensures only { IsTrue T.tells → (c : Config) → IsRead (T.story tree.old).now.holds c →
        IfErr result IsOfMachine }
    ensures fault { IsTrue T.tells → IfErr result
        (λ e. IsOfMachine e ⊎ IsUnread (T.story tree.old).now.holds e) }
    ensures same { IsTrue T.tells → T.story tree.new ≡ T.story tree.old }
    ensures faults { CountsFault (IsErrOf result (OffersFault.Tree TreeFault.Failed))
        (T.faults tree.old) (T.faults tree.new) }
{
    match read_both(alloc, tree) {
        Ok(config) => Ok(config),
        Err(fault) => Err(fault_of(fault)),
    }
}

/// Reads the profile, and then the user's files.
fn read_both<T: Tree>(alloc: Global, tree: &mut T) -> Result<UserConfig, ReadFault>
    ensures found { IsTrue T.tells → IfOk result
        (λ c. IsRead (T.story tree.old).now.holds (configured c)) }
    ensures only { IsTrue T.tells → (c : Config) → IsRead (T.story tree.old).now.holds c →
        IfErr result IsMachine }
    ensures fault { IsTrue T.tells → IfErr result
        (λ e. IsMachine e ⊎ MissRead (T.story tree.old).now.holds e) }
    ensures same { IsTrue T.tells → T.story tree.new ≡ T.story tree.old }
    ensures faults { CountsFault (IsErrOf result device_failed) (T.faults tree.old)
        (T.faults tree.new) }
{
    let path = path_of_profile(alloc)?;
    let profile = read(alloc, tree, &path)?;
    read_user(alloc, tree, profile)
}

#[tactic(auto, unfolding(file_tree::specs::Paths::is_path))]
fn path_of_profile(alloc: Global) -> Result<Path, AllocError>
    ensures { IfOk result (λ p. p ≡ profile_path) }
{
    Path::of(alloc, MAKE_PROFILE)
}
