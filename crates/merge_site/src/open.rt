ghost use Rattle.std.specs.Prelude.{◌≡◌, ◌<◌, ◌^◌, [], IfErr, IfOk, IsTrue, length, replicate};
ghost use Rattle.merge_journal.specs.Group.{token};
ghost use Rattle.merge_core.specs.CoreValue.{at_rest, machine_of};
ghost use Rattle.merge_core.specs.Roll.{idle};
ghost use Rattle.merge_core.specs.Trail.{IsAtRest};
ghost use Rattle.merge_site.specs.Booking.{lists_of};
ghost use Rattle.merge_site.specs.Site.{IsOpened, new_payloads};

use crate::group::SiteGroup;
use crate::job::Job;
use crate::site::Site;
use crate::wishes::new_wishes;
use file_tree::{Kind, Object, Sink, Tree};
use http_server::Log;
use merge_core::Core;
use owner_book::{OwnerBook, Wish};
use std::alloc::{AllocError, Global};
use std::snapshot::Snapshot;

fn new_jobs(alloc: Global, count: u32) -> Result<Vec<Job>, AllocError>
    ensures { IfOk result (λ v. v.items ≡ new_payloads count) }
{
    let mut jobs = Vec::with_capacity(alloc, count as usize)?;
    for group in 0..count {
        jobs.push(Job::new(alloc, group)?)?;
    }
    Ok(jobs)
}

fn new_mark(alloc: Global) -> Result<Object, AllocError>
    ensures { IfOk result (λ o. o ≡ token) }
{
    let mut bytes = Vec::new(alloc);
    bytes.push(1)?;
    let kind = Kind::Plain;
    Ok(Object { kind, bytes })
}

/// What a site is made of, but for the tree and the sink.
#[derive(Drop)]
struct Parts {
    core: Core,
    jobs: Vec<Job>,
    wishes: Vec<Vec<Wish>>,
    mark: Object,
}

fn new_parts(alloc: Global, count: u32) -> Result<Parts, AllocError>
    ensures rest { IfOk result (λ p. p.core ≡ at_rest count) }
    ensures machine { IfOk result (λ p. machine_of p.core ≡ idle) }
    ensures jobs { IfOk result (λ p. p.jobs.items ≡ new_payloads count) }
    ensures wishes { IfOk result (λ p. lists_of p.wishes.items ≡ replicate count []) }
    ensures mark { IfOk result (λ p. p.mark ≡ token) }
{
    let core = Core::new(alloc, count)?;
    let jobs = new_jobs(alloc, count)?;
    let wishes = new_wishes(alloc, count)?;
    let mark = new_mark(alloc)?;
    Ok(Parts {
        core,
        jobs,
        wishes,
        mark,
    })
}

impl<T: Tree, S: Sink> Site<T, S> {
    /// Opens a site over a tree at rest and the book of its packages. Where memory runs out, the
    /// tree and the sink come back.
    pub fn open(
        alloc: Global,
        tree: T,
        sink: S,
        book: OwnerBook,
        groups: Vec<SiteGroup>,
    ) -> Result<Site<T, S>, (AllocError, T, S)>
        requires small { length groups.items < 2 ^ 32 }
        requires rest { IsTrue T.tells → IsAtRest (T.story tree).now.holds (T.story tree).now }
        requires unclaimed { book.claims ≡ [] }
        ensures opened { IfOk result (λ s. IsOpened s book groups.items) }
        ensures tree { IfOk result (λ s. s.tree ≡ tree) }
        ensures sink { IfOk result (λ s. s.sink ≡ sink) }
        ensures back { IfErr result (λ r. (r.1 ≡ tree) × (r.2 ≡ sink)) }
    {
        let parts = match new_parts(alloc, groups.len() as u32) {
            Ok(parts) => parts,
            Err(failed) => return Err((failed, tree, sink)),
        };
        let Parts {
            core,
            jobs,
            wishes,
            mark,
        } = parts;
        let opened_book = Snapshot::of(&book);
        let opened = Snapshot::of(&tree);
        let log = Log::new();
        Ok(Site {
            alloc,
            tree,
            sink,
            core,
            groups,
            jobs,
            wishes,
            book,
            opened_book,
            mark,
            opened,
            log,
        })
    }
}
