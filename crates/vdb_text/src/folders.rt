ghost use Rattle.std.specs.Prelude.{◌≡◌, ◌↔◌, ◌||◌, ℕ, List, true, IfOk, IsErrOf, IsTrue};
ghost use Rattle.std.specs.Prelude.{MatchOption};
ghost use Rattle.std.specs.List.{AllByRecursion};
ghost use Rattle.basics.specs.Members.{Has};
ghost use Rattle.vdb_law.specs.Database.{IsCounted, is_skipped};
ghost use Rattle.file_tree.specs.Disk.{CountsFault};
ghost use Rattle.file_tree.specs.Paths.{is_path};
ghost use Rattle.pms_names.specs.Flags.{IsRising};
ghost use Rattle.vdb_text.specs.Folders.{AreFolders, IsAmong, IsInFolder, folder_text};
ghost use Rattle.vdb_text.specs.Telling.{AreAtPaths};

use basics::Text;
use file_tree::{DATABASE, Path, Tree, TreeFault};
use std::alloc::{AllocError, Global};
use std::collections::BTreeSet;
use vdb_paths::path_of_database;

/// The folders of the database in which something stands, as `category/name-version` in byte order.
/// Those whose name or whose category's name begins with a hyphen or a full stop are left out.
pub fn list_folders<T: Tree>(alloc: Global, tree: &mut T) -> Result<Vec<Text>, TreeFault>
    ensures folders { IsTrue T.tells → IfOk result
        (λ v. AreFolders (T.story tree.old).now.holds v.items) }
    ensures rising { IfOk result (λ v. IsRising v.items) }
    ensures paths { IfOk result (λ v. AreAtPaths v.items) }
    ensures same { IsTrue T.tells → T.story tree.new ≡ T.story tree.old }
    ensures faults { CountsFault (IsErrOf result TreeFault.Failed) (T.faults tree.old)
        (T.faults tree.new) }
{
    let database = path_of_database(alloc)?;
    let listed = tree.list(&database)?;
    are_paths(&listed);
    Ok(folders_among(alloc, &listed)?)
}

/// A law: these paths are some, as their type promises.
fn are_paths(listed: &[Path])
    ensures { AllByRecursion (λ p. is_path p ≡ true) listed.now }
{
    for path in listed {
        let _ = path.text();
    }
}

/// The folders in which these paths are.
fn folders_among(alloc: Global, listed: &[Path]) -> Result<Vec<Text>, AllocError>
    ensures rising { IfOk result (λ v. IsRising v.items) }
    ensures members { IfOk result
        (λ v. (t : List ℕ) → Has v.items t ↔ IsAmong listed.now t) }
{
    let mut folders = BTreeSet::new(alloc);
    for path in listed {
        let Some((category, pf)) = folder_of(path) else {
            continue;
        };
        folders.insert(text_of(alloc, category, pf)?)?;
    }
    in_order(alloc, folders)
}

fn text_of(alloc: Global, category: &str, pf: &str) -> Result<Text, AllocError>
    ensures { IfOk result (λ t. t ≡ folder_text category.now pf.now) }
{
    let text = format!(in alloc; "{category}/{pf}")?;
    Ok(Text::from_string(text))
}

/// The texts of a set, in byte order.
fn in_order(alloc: Global, texts: BTreeSet<Text>) -> Result<Vec<Text>, AllocError>
    ensures items { IfOk result (λ v. v.items ≡ texts.keys) }
    ensures rising { IfOk result (λ v. IsRising v.items) }
{
    texts.into_iter().collect(alloc)
}

/// The category, and the name with the version, of the folder in which a path is.
fn folder_of(path: &Path) -> Option<(&str, &str)>
    ensures { MatchOption result (¬ IsCounted path.now)
        (λ x. IsInFolder x.0.now x.1.now path.now) }
{
    let rest = path.behind(DATABASE)?;
    let (category, behind) = rest.split_once('/')?;
    let (pf, _) = behind.split_once('/')?;
    if is_left_out(category, pf) {
        return None;
    }
    Some((category, pf))
}

/// Whether the database skips the folder, for its category's name or for its own.
fn is_left_out(category: &str, pf: &str) -> bool
    ensures { result ≡ (is_skipped category.now || is_skipped pf.now) }
{
    is_skipped(category) || is_skipped(pf)
}

/// Whether the database skips a folder of this name.
fn is_skipped(name: &str) -> bool
    ensures { result ≡ is_skipped name.now }
{
    match name.as_bytes().first() {
        Some(first) => *first == b'-' || *first == b'.',
        None => false,
    }
}
