ghost use Rattle.std.specs.Prelude.{◌≡◌, ◌⊎◌, ◌<◌, ◌≤◌, ◌^◌, [], ℕ, Err, List, length};
ghost use Rattle.std.specs.Prelude.{IfErr, IfOk, IsErrOf, IsOk, IsTrue, OnOk};
ghost use Rattle.file_tree.specs.Disk.{Rose};
ghost use Rattle.file_tree.specs.Faults.{IsOfMachine};
ghost use Rattle.merge_core.specs.Trail.{IsAtRest};
ghost use Rattle.merge_group.specs.Runs.{IsOver, IsUnderWay};
ghost use Rattle.merge_group.specs.Turns.{AreFirst};
ghost use Rattle.merge_group.specs.Went.{WentWith};
ghost use Rattle.merge_group.specs.declared.turn.Turn.{Turn};

use crate::clearing::clear;
use crate::stop::Stop;
use file_tree::{Sink, Tree, TreeFault};
use merge_core::Core;
use merge_site::{Site, SiteGroup};
use owner_book::OwnerBook;
use std::alloc::Global;

/// What a run gives back that was closed.
#[derive(Drop)]
pub struct Closed<T, S> {
    pub tree: T,
    pub sink: S,
    /// The machine as the run left it.
    pub machine: Core,
    pub end: Result<(), Stop>,
}

/// Opens a site for a run of these groups over a tree at rest. Where memory runs out, the tree and
/// the sink come back.
pub fn open_run<T: Tree, S: Sink>(
    alloc: Global,
    tree: T,
    sink: S,
    book: OwnerBook,
    groups: Vec<SiteGroup>,
) -> Result<Site<T, S>, (T, S)>
    requires rest { IsTrue T.tells → IsAtRest (T.story tree).now.holds (T.story tree).now }
    requires small { length groups.items < 2 ^ 32 }
    requires unclaimed { book.claims ≡ [] }
    ensures under_way { IfOk result
        (IsUnderWay T.tells (T.story tree).now.holds [] [] []) }
    ensures opened { IfOk result (λ s. s.opened ≡ tree) }
    ensures book { IfOk result (λ s. s.opened_book ≡ book) }
    ensures groups { IfOk result (λ s. s.groups ≡ groups.items) }
    ensures tree { IfOk result (λ s. s.tree ≡ tree) }
    ensures sink { IfOk result (λ s. s.sink ≡ sink) }
    ensures back { IfErr result (λ r. (r.0 ≡ tree) × (r.1 ≡ sink)) }
{
    match Site::open(alloc, tree, sink, book, groups) {
        Ok(site) => {
            site.promise();
            Ok(site)
        }
        Err((_, tree, sink)) => Err((tree, sink)),
    }
}

/// Clears the journal of a run that ended so, and gives back what its site was opened with.
pub fn close_run<T: Tree, S: Sink>(
    alloc: Global,
    site: Site<T, S>,
    end: Result<(), Stop>,
) -> Closed<T, S>
    ensures went { (turns : List Turn) (history acknowledged : List ℕ) → IsOver T.tells
        (T.story site.opened).now.holds turns history acknowledged end site → IsTrue T.tells →
        WentWith (AreFirst (T.story site.opened).now.holds site.opened_book site.groups turns)
        (T.story site.opened) (T.story result.tree) history result.end }
    ensures machine { result.machine ≡ site.keeping }
    ensures sink { result.sink ≡ site.sink }
    ensures ok { OnOk result.end (IsOk end) }
    ensures told { IfErr result.end (λ e. IsOfMachine Stop.Tree e ⊎ (end ≡ Err e)) }
    ensures output { IsErrOf result.end Stop.Output → IsErrOf end Stop.Output }
    ensures device { IsErrOf end (Stop.Tree TreeFault.Failed) →
        IsErrOf result.end (Stop.Tree TreeFault.Failed) }
    ensures count { T.faults site.tree ≤ T.faults result.tree }
    ensures rose { IsErrOf result.end (Stop.Tree TreeFault.Failed) →
        (¬ IsErrOf end (Stop.Tree TreeFault.Failed)) →
        Rose (T.faults site.tree) (T.faults result.tree) }
{
    site.promise();
    let (mut tree, sink, machine) = site.into_parts();
    let end = clear(alloc, &mut tree, end);
    Closed {
        tree,
        sink,
        machine,
        end,
    }
}
