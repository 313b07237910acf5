ghost use Rattle.std.specs.Prelude.{◌≡◌, ◌⊎◌, IfErr, IfOk, IsErrOf, IsTrue};
ghost use Rattle.file_tree.specs.Disk.{CountsFault};
ghost use Rattle.profile_folders.specs.Machine.{IsOfMachine};
ghost use Rattle.profile_folders.specs.Texts.{text_fault};
ghost use Rattle.profile_stack.specs.Files.{AreOfConf, IsConfFault, make_conf};

use config_text::{Assignment, TextFault, assignments};
use file_tree::{Path, Tree, TreeFault};
use profile_folders::{ProfileFault, read_text};
use std::alloc::{AllocError, Global};

/// The link to the profile that the user chose.
pub const MAKE_PROFILE: &str = "etc/portage/make.profile";

/// The user's `make.conf`.
pub const MAKE_CONF: &str = "etc/portage/make.conf";

/// What the user's `make.conf` sets, where these variables are known. A missing file sets none.
pub(crate) fn read_conf<T: Tree>(
    alloc: Global,
    tree: &mut T,
    known: &[Assignment],
) -> Result<Vec<Assignment>, ProfileFault>
    ensures found { IsTrue T.tells → IfOk result
        (λ v. AreOfConf (T.story tree.old).now.holds known.now v.items) }
    ensures fault { IsTrue T.tells → IfErr result
        (λ e. IsOfMachine e ⊎ IsConfFault (T.story tree.old).now.holds e) }
    ensures same { IsTrue T.tells → T.story tree.new ≡ T.story tree.old }
    ensures faults { CountsFault (IsErrOf result (ProfileFault.Tree TreeFault.Failed))
        (T.faults tree.old) (T.faults tree.new) }
{
    let file = path_of_conf(alloc)?;
    let text = read_text(alloc, tree, &file)?;
    match assignments(alloc, &text, known) {
        Ok(found) => Ok(found),
        Err(fault) => Err(located(file, fault)),
    }
}

#[tactic(auto, unfolding(file_tree::specs::Paths::is_path))]
fn path_of_conf(alloc: Global) -> Result<Path, AllocError>
    ensures { IfOk result (λ p. p ≡ make_conf) }
{
    Path::of(alloc, MAKE_CONF)
}

/// What the fault of the file's text is called.
fn located(path: Path, fault: TextFault) -> ProfileFault
    ensures { result ≡ text_fault path fault }
{
    match fault {
        TextFault::NotUtf8 { line } => ProfileFault::Text { path, line },
        TextFault::BadKey { line } => ProfileFault::Text { path, line },
        TextFault::OpenQuote { line } => ProfileFault::Text { path, line },
        TextFault::Memory => ProfileFault::Tree(TreeFault::Memory),
    }
}
