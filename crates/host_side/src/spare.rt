ghost use Rattle.std.specs.Prelude.{◌≡◌, ◌++◌, ℕ, List, true, bytes_eq};
ghost use Rattle.file_tree.specs.Paths.{is_path};
ghost use Rattle.host_side.specs.Spare.{spare_name};

/// The name that an object has until it is renamed over its target.
pub const SPARE: &str = ".emerge ->new";

/// A law: no path has the name of a spare object in it, so no call on a tree is about one.
pub fn no_path_is_spare()
    ensures { (a b : List ℕ) → ¬ (is_path (a ++ (spare_name ++ b)) ≡ true) }
{}

/// Whether a name is that of a spare object.
#[tactic(auto, unfolding(crate::specs::Spare::spare_name))]
pub fn is_spare(name: &str) -> bool
    ensures { result ≡ bytes_eq name.now spare_name }
{
    name == SPARE
}
