ghost use Rattle.std.specs.Prelude.{◌≡◌, ◌⊎◌, IfErr, IfOk, IsErrOf, IsTrue, OnOk};
ghost use Rattle.file_tree.specs.Disk.{CountsFault};
ghost use Rattle.profile_lines.specs.Faults.{IsMachine, device_failed};
ghost use Rattle.profile_lines.specs.Files.{content};
ghost use Rattle.profile_stack.specs.Files.{Config, MissUser, ReadsUser, begun, configured};

use crate::line_file::read_line_files;
use crate::make_conf::read_conf;
use crate::user_config::UserConfig;
use file_tree::Tree;
use profile_lines::{Profile, ReadFault};
use std::alloc::Global;

/// What the user's files in `etc/portage` make of the profile: first `make.conf`, then
/// `package.use`, `package.mask`, `package.unmask` and `package.accept_keywords`. A missing one
/// says nothing.
pub fn read_user<T: Tree>(
    alloc: Global,
    tree: &mut T,
    profile: Profile,
) -> Result<UserConfig, ReadFault>
    ensures found { IsTrue T.tells → IfOk result (λ c. ReadsUser (T.story tree.old).now.holds
        (begun (content profile)) (configured c)) }
    ensures only { IsTrue T.tells → (is : Config) → ReadsUser (T.story tree.old).now.holds
        (begun (content profile)) is → IfErr result IsMachine }
    ensures fault { IsTrue T.tells → IfErr result (λ e. IsMachine e ⊎
        MissUser (T.story tree.old).now.holds (begun (content profile)) e) }
    ensures same { IsTrue T.tells → T.story tree.new ≡ T.story tree.old }
    ensures faults { CountsFault (IsErrOf result device_failed) (T.faults tree.old)
        (T.faults tree.new) }
{
    let mut config = UserConfig::begin(alloc, profile);
    match read_into(alloc, tree, &mut config) {
        Ok(()) => Ok(config),
        Err(fault) => Err(fault),
    }
}

/// Reads the user's files, behind what is configured.
fn read_into<T: Tree>(alloc: Global, tree: &mut T, config: &mut UserConfig) -> Result<(), ReadFault>
    ensures found { IsTrue T.tells → OnOk result (ReadsUser (T.story tree.old).now.holds
        (configured config.old) (configured config.new)) }
    ensures fault { IsTrue T.tells → IfErr result (λ e. IsMachine e ⊎ MissUser
        (T.story tree.old).now.holds (configured config.old) e) }
    ensures same { IsTrue T.tells → T.story tree.new ≡ T.story tree.old }
    ensures faults { CountsFault (IsErrOf result device_failed) (T.faults tree.old)
        (T.faults tree.new) }
{
    let mut set = read_conf(alloc, tree, &config.defaults)?;
    config.conf.append(&mut set)?;
    read_line_files(alloc, tree, config)
}
