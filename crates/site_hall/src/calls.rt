ghost use Rattle.std.specs.Prelude.{◌≡◌, ◌⊎◌, ◌<◌, ℕ, false, [], ◌∷◌};
ghost use Rattle.std.specs.Prelude.{IfErr, IfOk, IsSome, Some};
ghost use Rattle.basics.specs.Members.{Has};
ghost use Rattle.site_hall.specs.Events.{IsCalm, IsCalmTurn, MayLeave, events_of};
ghost use Rattle.site_hall.specs.Passes.{HasTurn, HoldsAsBefore, IsOf, IsOpened, KnowsAsMuch};
ghost use Rattle.site_hall.specs.Passes.{Rests, Waits, got_by, keeps_going, opening_of, parts_of};
ghost use Rattle.site_hall.specs.Passes.{view_of};
ghost use Rattle.site_hall.specs.Steps.{Got};
ghost use Rattle.site_hall.specs.Views.{GoesOnFrom, after_turn, first_view, given_part, joined};
ghost use Rattle.site_hall.specs.Views.{kept_part};

use crate::hall::{Hall, Pass, Turn};
use crate::rule::{Both, Look, OnePart, PassOn, Ticket};
use crate::views::About;
use atomic_table::{Refused, Table};
use merge_core::Logged;
use std::alloc::{AllocError, AllocFailed, Global};
use std::snapshot::Snapshot;
use std::sync::Wait;

/// The word of the next ticket.
const NEXT: usize = 0;

/// The word of the ticket that is served.
const SERVING: usize = 1;

/// The slot of the value.
const PLACE: usize = 0;

impl<X: Logged> Hall<X> {
    /// Opens a hall for a value with an empty history. The pass has all parts, and no group.
    pub fn open(
        alloc: Global,
        value: X,
        parts: u32,
        keep_going: bool,
    ) -> Result<(Hall<X>, Pass<X>), (AllocError, X)>
        requires parts { 0 < parts }
        requires empty { X.log value ≡ [] }
        requires same { X.same value value }
        ensures opened { IfOk result (λ r. IsOpened value parts keep_going r.0) }
        ensures own { IfOk result (λ r. IsOf r.0 r.1) }
        ensures rests { IfOk result (λ r. Rests r.1) }
        ensures knows { IfOk result (λ r. view_of r.1 ≡ first_view (opening_of r.0) parts) }
        ensures refused { IfErr result (λ r. r.1 ≡ value) }
    {
        let about = About {
            first: Snapshot::of(&value),
            parts,
            keep_going,
        };
        let mut slots = Vec::new(alloc);
        if let Err(AllocFailed { value }) = slots.push(Some(value)) {
            slots.destroy_empty();
            return Err((AllocError, taken_back(value)));
        }
        match Table::new(alloc, &[0, 0], slots, &about) {
            Ok((table, seat)) => Ok((Hall { table }, Pass { seat })),
            Err(Refused { slots }) => Err((AllocError, only_value(slots))),
        }
    }

    /// Gives one part of a pass to a new pass, which has no group, and has seen what this one has.
    pub fn split(&self, pass: &mut Pass<X>) -> Pass<X>
        requires own { IsOf self.now pass.old }
        requires parts { 1 < (view_of pass.old).parts }
        ensures own { IsOf self.now pass.new × IsOf self.now result }
        ensures knows { view_of pass.new ≡ kept_part (view_of pass.old) }
        ensures holds { HoldsAsBefore pass.old pass.new }
        ensures given { view_of result ≡ given_part (view_of pass.old) }
        ensures rests { Rests result }
    {
        let seat = self.table.shared.split_seat::<OnePart>(&mut pass.seat);
        Pass { seat }
    }

    /// Takes another pass in, with its parts and its groups.
    pub fn join(&self, pass: &mut Pass<X>, other: Pass<X>)
        requires own { IsOf self.now pass.old × IsOf self.now other }
        requires rests { Rests pass.old × Rests other }
        ensures own { IsOf self.now pass.new }
        ensures rests { Rests pass.new }
        ensures knows { view_of pass.new ≡ joined (view_of pass.old) (view_of other) }
    {
        let Pass { seat } = other;
        self.table.shared.join_seat::<Both>(&mut pass.seat, seat);
    }

    /// Waits for a turn, and takes the value out.
    pub fn enter<R: Wait>(&self, rt: &R, pass: &mut Pass<X>) -> Turn<X>
        requires own { IsOf self.now pass.old }
        requires rests { Rests pass.old }
        ensures own { IsOf self.now pass.new }
        ensures turn { HasTurn pass.new }
        ensures got { got_by pass.new ≡ X.log result.value }
        ensures same { X.same result.value (opening_of self.now).value }
        ensures goes_on { GoesOnFrom (view_of pass.old) (X.log result.value) }
        ensures knows { KnowsAsMuch (view_of pass.old) (view_of pass.new) }
    {
        let shared = &self.table.shared;
        let mine = shared.fetch_add::<Ticket>(&mut pass.seat, NEXT, 1);
        self.await_ticket(rt, pass, mine);
        let found = shared.exchange(&mut pass.seat, PLACE, None);
        let Some(value) = found else { unreachable!() };
        Turn { value }
    }

    /// Waits until the ticket is served. Who is woken for another's ticket wakes the next one.
    fn await_ticket<R: Wait>(&self, rt: &R, pass: &mut Pass<X>, mine: u64)
        requires own { IsOf self.now pass.old }
        requires waits { Waits mine pass.old }
        ensures own { IsOf self.now pass.new }
        ensures turn { (x : X) × Got X.log X.same (view_of pass.old) x pass.new.seat.me }
    {
        let shared = &self.table.shared;
        let mut has_parked = false;
        for _ in rt.forever() {
            let serving = shared.load::<Look>(&mut pass.seat, SERVING);
            if serving == mine {
                return;
            }
            if has_parked {
                shared.wake_one(SERVING);
            }
            shared.park(rt, SERVING, (serving % (1 << 32)) as u32);
            has_parked = true;
        }
        unreachable!()
    }

    /// Puts the value back as it is now, and passes the turn on. A turn makes one event at most.
    pub fn leave(&self, pass: &mut Pass<X>, turn: Turn<X>)
        requires own { IsOf self.now pass.old }
        requires turn { HasTurn pass.old }
        requires same { X.same turn.value (opening_of self.now).value }
        requires step { MayLeave (view_of pass.old).groups (got_by pass.old) (X.log turn.value) }
        requires calm { keeps_going self.now ≡ false →
            IsCalmTurn (got_by pass.old) (X.log turn.value) }
        ensures own { IsOf self.now pass.new }
        ensures rests { Rests pass.new }
        ensures knows { view_of pass.new ≡
            after_turn (view_of pass.old) (got_by pass.old) (X.log turn.value) }
    {
        let Turn { value } = turn;
        let shared = &self.table.shared;
        let gone = shared.exchange(&mut pass.seat, PLACE, Some(value));
        let None = gone else { unreachable!() };
        shared.fetch_add::<PassOn>(&mut pass.seat, SERVING, 1);
        shared.wake_one(SERVING);
    }

    /// Closes the hall, by a pass with all parts, and gives the value.
    pub fn close(self, pass: Pass<X>) -> X
        requires own { IsOf self pass }
        requires rests { Rests pass }
        requires all { (view_of pass).parts ≡ parts_of self }
        ensures same { X.same result (opening_of self).value }
        ensures goes_on { GoesOnFrom (view_of pass) (X.log result) }
        ensures others { (g : ℕ) → (events_of g (X.log result) ≡ []) ⊎ Has (view_of pass).groups g }
        ensures calm { keeps_going self ≡ false → IsCalm (X.log result) }
    {
        let Pass { seat } = pass;
        let Hall { table } = self;
        let mut closed = table.close_with(seat);
        let found = closed.take(PLACE);
        closed.free();
        let Some(value) = found else { unreachable!() };
        value
    }
}

/// The value that was to be put in.
fn taken_back<X>(value: Option<X>) -> X
    requires { IsSome value }
    ensures { value ≡ Some result }
{
    let Some(value) = value else { unreachable!() };
    value
}

/// The only one of a list.
fn only_value<X>(mut slots: Vec<Option<X>>) -> X
    requires { (x : X) × (slots.items ≡ Some x ∷ []) }
    ensures { slots.items ≡ Some result ∷ [] }
{
    let Some(found) = slots.pop() else {
        unreachable!()
    };
    slots.destroy_empty();
    taken_back(found)
}
