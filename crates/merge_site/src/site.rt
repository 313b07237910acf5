ghost use Rattle.std.specs.Prelude.{◌≡◌, ◌<◌, ◌≤◌, ◌^◌, ◌++◌, ◌∷◌, ◌+◌, [], ℕ, true, false};
ghost use Rattle.std.specs.Prelude.{Ok, Some, IfOk, IfErr, IsErr, IsTrue, OnErr, OnOk};
ghost use Rattle.std.specs.Prelude.{is_ok, length};
ghost use Rattle.file_tree.specs.Disk.{CountsFault};
ghost use Rattle.file_tree.specs.ObjectValue.{plain};
ghost use Rattle.merge_journal.specs.Judging.{IsStaged};
ghost use Rattle.merge_journal.specs.Names.{stage_path};
ghost use Rattle.merge_record.specs.Spelling.{IsSpellable, spelling};
ghost use Rattle.merge_core.specs.Core.{standing_in};
ghost use Rattle.merge_core.specs.Event.{Admits, Claim, PutRecord, PutStage, answered};
ghost use Rattle.merge_core.specs.Event.{needs_sync, put_content};
ghost use Rattle.merge_core.specs.CoreValue.{machine_of};
ghost use Rattle.merge_core.specs.Payloads.{IsApart, IsAt};
ghost use Rattle.merge_core.specs.Site.{Performs};
ghost use Rattle.merge_core.specs.Steps.{IsTaken, event_of, is_sync};

use crate::calls;
use crate::group::SiteGroup;
use crate::history::Happened;
use crate::job::Job;
use file_tree::{Failed, Object, Path, Sink, Tree};
use http_server::Log;
use merge_core::{Core, Phase, Refusal, Step};
use merge_record::Placement;
use owner_book::{OwnerBook, Wish};
use std::alloc::{AllocError, Global};
use std::marker::Model;
use std::snapshot::Snapshot;

/// A tree on which groups are merged through the journal, event by event. In clauses, its account:
/// the machine, the events so far, what each group wishes, the book and the tree at the beginning
/// and now, and the sink.
#[derive(Drop)]
pub struct Site<T: Tree, S: Sink> {
    pub(crate) alloc: Global,
    pub(crate) tree: T,
    pub(crate) sink: S,
    pub(crate) core: Core,
    pub(crate) groups: Vec<SiteGroup>,
    pub(crate) jobs: Vec<Job>,
    pub(crate) wishes: Vec<Vec<Wish>>,
    pub(crate) book: OwnerBook,
    pub(crate) opened_book: Snapshot<OwnerBook>,
    pub(crate) mark: Object,
    pub(crate) opened: Snapshot<T>,
    pub(crate) log: Log<Happened, bool>,
}

impl<T: Tree, S: Sink> Model for Site<T, S> {
    ghost use Rattle.merge_site.specs.Booking.{IsBooked, lists_of};
    ghost use Rattle.merge_site.specs.Site.{SiteValue, IsSiteInOrder};

    ghost Value = { SiteValue T S };

    ghost view = { λ s. record {
      keeping = s.core;
      events = s.log.items;
      groups = s.groups.items;
      wishes = lists_of s.wishes.items;
      opened_book = s.opened_book.value;
      book = s.book;
      opened = s.opened.value;
      tree = s.tree;
      sink = s.sink;
    } };

    ghost invariant = { λ s. IsSiteInOrder T.tells s.core s.log.items s.groups.items
        s.jobs.items (T.story s.opened.value) (T.story s.tree) s.mark ×
        IsBooked s.core s.log.items (lists_of s.wishes.items) s.opened_book.value s.book };
}

/// Takes a step that may come into the machine and the log. It takes no memory.
pub(crate) fn enter(
    core: &mut Core,
    log: &mut Log<Happened, bool>,
    alloc: Global,
    group: u32,
    step: Step,
    ok: bool,
)
    requires taken { IsTaken core.old group step }
    ensures machine { machine_of core.new ≡
        answered (machine_of core.old) (event_of group step) ok }
    ensures groups { length core.new.standings ≡ length core.old.standings }
    ensures log { log.new.items ≡ log.old.items ++ (event_of group step, ok) ∷ [] }
{
    if core.step(alloc, group, step, ok).is_err() {
        unreachable!();
    }
    let event = Happened::step(group, step);
    *log = log.and(&event, &ok);
}

/// Syncs the tree where the group needs that, and takes the step that asks for it into the machine
/// and the log.
pub(crate) fn sync_step<T: Tree>(
    tree: &mut T,
    core: &mut Core,
    log: &mut Log<Happened, bool>,
    alloc: Global,
    group: u32,
    step: Step,
) -> Result<(), Failed>
    requires sync { IsTrue (is_sync step) }
    requires taken { IsTaken core.old group step }
    ensures machine { machine_of core.new ≡
        answered (machine_of core.old) (event_of group step) (is_ok result) }
    ensures groups { length core.new.standings ≡ length core.old.standings }
    ensures log { log.new.items ≡ log.old.items ++ (event_of group step, is_ok result) ∷ [] }
    ensures performs { IsTrue T.tells → Performs (machine_of core.old) (event_of group step)
        (is_ok result) (T.story tree.old) (T.story tree.new) }
    ensures idle { needs_sync (machine_of core.old) group ≡ false → tree.new ≡ tree.old }
    ensures faults { CountsFault (IsErr result) (T.faults tree.old) (T.faults tree.new) }
{
    let needs = core.needs_sync(group);
    let answer = calls::sync_group(tree, group, needs);
    enter(core, log, alloc, group, step, answer.is_ok());
    answer
}

/// Takes the claim of a sealed group into the machine and the log. It takes no memory.
pub(crate) fn enter_claim(core: &mut Core, log: &mut Log<Happened, bool>, group: u32)
    requires at { IsAt core.old group Phase.Sealed }
    requires apart { IsApart (machine_of core.old).roll group }
    ensures admitted { Admits (machine_of core.old) (Claim group) }
    ensures machine { machine_of core.new ≡ answered (machine_of core.old) (Claim group) true }
    ensures groups { length core.new.standings ≡ length core.old.standings }
    ensures log { log.new.items ≡ log.old.items ++ (Claim group, true) ∷ [] }
{
    if core.claim(group, true).is_err() {
        unreachable!();
    }
    let event = Happened::claim(group);
    *log = log.and(&event, &true);
}

/// Takes the record of a group, whose call was answered, into the machine and the log. It takes no
/// memory.
pub(crate) fn enter_record(
    core: &mut Core,
    log: &mut Log<Happened, bool>,
    group: u32,
    removals: Vec<Path>,
    body: &Object,
    ok: bool,
)
    requires at { IsAt core.old group Phase.Building }
    requires fits { IsSpellable (put_content (machine_of core.old) group removals.items) }
    requires body { body.now ≡
        plain (spelling (put_content (machine_of core.old) group removals.items)) }
    ensures admitted { Admits (machine_of core.old) (PutRecord group removals.items) }
    ensures machine { machine_of core.new ≡
        answered (machine_of core.old) (PutRecord group removals.items) ok }
    ensures groups { length core.new.standings ≡ length core.old.standings }
    ensures log { log.new.items ≡ log.old.items ++ (PutRecord group removals.items, ok) ∷ [] }
{
    let event = Happened::record(group, &removals);
    core.take_record(group, removals, body, ok);
    *log = log.and(&event, &ok);
}

/// Puts the object as the group's next stage, takes that into the machine and the log, and tells
/// whether the device did. Where memory runs out, nothing is done.
pub(crate) fn enter_stage<T: Tree>(
    tree: &mut T,
    core: &mut Core,
    log: &mut Log<Happened, bool>,
    group: u32,
    place: &Path,
    placement: Placement,
    object: &Object,
) -> Result<bool, AllocError>
    requires at { IsAt core.old group Phase.Building }
    requires room { length (standing_in core.old.standings group).objects < 2 ^ 32 }
    requires staged { IsStaged (Some object.now) placement }
    requires place { place.now ≡
        stage_path group (length (standing_in core.old.standings group).objects) }
    ensures admitted { OnOk result (Admits (machine_of core.old)
        (PutStage group placement object.now)) }
    ensures machine { IfOk result (λ ok. machine_of core.new ≡
        answered (machine_of core.old) (PutStage group placement object.now) ok) }
    ensures groups { length core.new.standings ≡ length core.old.standings }
    ensures log { IfOk result (λ ok. log.new.items ≡
        log.old.items ++ (PutStage group placement object.now, ok) ∷ []) }
    ensures performs { IsTrue T.tells → IfOk result (λ ok. Performs (machine_of core.old)
        (PutStage group placement object.now) ok (T.story tree.old) (T.story tree.new)) }
    ensures kept { OnErr result (core.new ≡ core.old) }
    ensures none { OnErr result (log.new.items ≡ log.old.items) }
    ensures same { IsTrue T.tells → OnErr result (T.story tree.new ≡ T.story tree.old) }
    ensures faults { CountsFault (result ≡ Ok false) (T.faults tree.old) (T.faults tree.new) }
{
    let event = Happened::stage(group, &placement, object);
    match core.stage_on(tree, group, place, placement, object) {
        Ok(ok) => {
            *log = log.and(&event, &ok);
            Ok(ok)
        }
        Err(Refusal::Memory) => Err(AllocError),
        Err(_) => unreachable!(),
    }
}
