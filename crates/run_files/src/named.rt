ghost use Rattle.std.specs.List.{AllByRecursion};
ghost use Rattle.file_tree.specs.Paths.{IsPathText};
ghost use Rattle.run_files.specs.Made.{IsNamed};

use crate::newcomer::Newcomer;
use file_tree::{Entry, Path};
use vdb_files::facts_are_named;
use vdb_paths::id_is_one;

/// A law: the packages that come are named as their types promise.
pub fn newcomers_are_named(newcomers: &[Newcomer])
    ensures { AllByRecursion IsNamed newcomers.now }
{
    for newcomer in newcomers {
        newcomer_is_named(newcomer);
    }
}

fn newcomer_is_named(newcomer: &Newcomer)
    ensures { IsNamed newcomer.now }
{
    facts_are_named(&newcomer.pkg.facts);
    id_is_one(&newcomer.pkg.facts.id);
    paths_are_texts(&newcomer.image);
}

fn paths_are_texts(image: &[Entry])
    ensures { AllByRecursion (λ e. IsPathText e.path) image.now }
{
    for entry in image {
        path_is_text(&entry.path);
    }
}

fn path_is_text(path: &Path)
    ensures { IsPathText path.now }
{
    let _text = path.text();
}
