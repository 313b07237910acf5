ghost use Rattle.std.specs.Prelude.{◌≡◌, ◌↔◌, ℕ, Contains, IfOk, List, Some, false};
ghost use Rattle.file_tree.specs.Disk.{IsUntouched};
ghost use Rattle.file_tree.specs.ObjectValue.{ObjectValue};
ghost use Rattle.tree_mem.specs.MemTree.{mem_fails, mem_holds, mem_story};
ghost use Rattle.load_gen.specs.Loads.{ebuild_file, entry_file, load_files, plain_file};
ghost use Rattle.load_gen.specs.Loads.{profile_file};

use crate::entries::entry_text;
use file_tree::{Kind, Object, Path};
use std::alloc::{AllocError, Global};
use tree_mem::MemTree;

/// The tree of a load of so many packages: the profile, and of each package its ebuild and its entry
/// in the cache. Nothing is installed, nothing is touched, and no call is to fail.
pub fn load_tree(alloc: Global, count: u32) -> Result<MemTree, AllocError>
    ensures held { IfOk result (λ t. (p : List ℕ) (x : ObjectValue) →
        Contains (load_files count) (p, x) ↔ (mem_holds t p ≡ Some x)) }
    ensures untouched { IfOk result (λ t. IsUntouched (mem_story t).now) }
    ensures fails { IfOk result (λ t. (n : ℕ) → mem_fails t n ≡ false) }
{
    let files = load_files(alloc, count)?;
    match MemTree::new(alloc, files) {
        Ok(tree) => Ok(tree),
        Err(_) => Err(AllocError),
    }
}

/// The files of the tree.
fn load_files(alloc: Global, count: u32) -> Result<Vec<(Path, Object)>, AllocError>
    ensures { IfOk result (λ files. files.items ≡ load_files count) }
{
    let mut files = Vec::new(alloc);
    files.push(profile_file(alloc)?)?;
    for number in 0..count {
        files.push(ebuild_file(alloc, number)?)?;
        files.push(entry_file(alloc, count, number)?)?;
    }
    Ok(files)
}

/// The profile: the machine, and the keyword that is accepted.
fn profile_file(alloc: Global) -> Result<(Path, Object), AllocError>
    ensures { IfOk result (λ f. f ≡ profile_file) }
{
    let text = "ARCH=\"amd64\"\nACCEPT_KEYWORDS=\"amd64\"\n";
    plain_file(alloc, "etc/portage/make.profile/make.defaults", text)
}

/// The ebuild of a package, which is empty.
fn ebuild_file(alloc: Global, number: u32) -> Result<(Path, Object), AllocError>
    ensures { IfOk result (λ f. f ≡ ebuild_file number) }
{
    let path = format!(in alloc; "var/db/repos/gentoo/load/p{number}/p{number}-1.ebuild")?;
    plain_file(alloc, path.as_str(), "")
}

/// The entry of one of so many packages in the cache.
fn entry_file(alloc: Global, count: u32, number: u32) -> Result<(Path, Object), AllocError>
    ensures { IfOk result (λ f. f ≡ entry_file count number) }
{
    let path = format!(in alloc; "var/db/repos/gentoo/metadata/md5-cache/load/p{number}-1")?;
    let text = entry_text(alloc, count, number)?;
    plain_file(alloc, path.as_str(), text.as_str())
}

/// A file at a path. The text of each path of a load is one, so that only memory can be wanting.
fn plain_file(alloc: Global, path: &str, text: &str) -> Result<(Path, Object), AllocError>
    ensures { IfOk result (λ f. f ≡ plain_file path.now text.now) }
{
    let Ok(path) = Path::parse(alloc, path) else {
        return Err(AllocError);
    };
    let bytes = text.as_bytes().to_vec(alloc)?;
    let object = Object {
        kind: Kind::Plain,
        bytes,
    };
    Ok((path, object))
}
