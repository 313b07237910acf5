ghost use Rattle.std.specs.Prelude.{◌≡◌, ◌++◌, [], ◌∷◌, All, IsTrue, true, false};
ghost use Rattle.basics.specs.Members.{Has};
ghost use Rattle.merge_core.specs.Event.{Begin};
ghost use Rattle.site_hall.specs.Events.{events_of};
ghost use Rattle.site_hall.specs.Passes.{IsOf, Rests, keeps_going, parts_of, view_of};

use crate::hall::{Hall, Pass};
use merge_core::Logged;
use std::alloc::Global;
use std::sync::Wait;
use std::test::Fail;
use std::thread;
use std::thread::Threads;

/// How many turns a worker takes.
const TURNS: u32 = 1_000;

/// A value that keeps which group had each turn.
#[derive(Drop)]
struct Tally {
    name: u32,
    groups: Vec<u32>,
}

impl Logged for Tally {
    ghost use Rattle.std.specs.Prelude.{◌≡◌, map, true};
    ghost use Rattle.merge_core.specs.Event.{Begin};

    ghost log = { λ t. map (λ g. (Begin g, true)) t.groups.items };

    ghost same = { λ t u. t.name ≡ u.name };
}

impl Tally {
    ghost use Rattle.std.specs.Prelude.{map, OnErr, OnOk};

    /// Notes a turn of the group, if there is memory.
    fn note(&mut self, group: u32) -> Result<(), ()>
        ensures noted { OnOk result (self.new.groups.items ≡ self.old.groups.items ++ group ∷ []) }
        ensures kept { OnErr result (self.new.groups.items ≡ self.old.groups.items) }
        ensures name { self.new.name ≡ self.old.name }
    {
        self.groups.push(group).map_err(|_| ())
    }

    /// Whether the group had no turn.
    fn is_idle(&self, group: u32) -> bool
        ensures { IsTrue result →
            events_of group (map (λ g. (Begin g, true)) self.now.groups.items) ≡ [] }
    {
        for found in self.groups.iter() {
            if *found == group {
                return false;
            }
        }
        true
    }

    /// How many turns the group had.
    fn turns_of(&self, group: u32) -> usize {
        self.groups.iter().filter(|found| **found == group).count()
    }
}

/// What a thread works with.
#[derive(Drop)]
struct Worker<X> {
    pass: Pass<X>,
    group: u32,
}

/// Takes a turn of each worker, which changes nothing. It is proved only where a pass may be handed
/// to a thread and a hall be shared, whatever the value is.
fn visit_all<X: Logged + Send, R: Threads + Wait + Sync>(
    rt: &R,
    hall: &Hall<X>,
    workers: &mut [Worker<X>],
)
    requires ready { All (λ w. IsOf hall.now w.pass × Rests w.pass) workers.old }
    requires parts { All (λ w. (view_of w.pass).parts ≡ 1) workers.old }
    ensures ready { All (λ w. IsOf hall.now w.pass × Rests w.pass) workers.new }
    ensures parts { All (λ w. (view_of w.pass).parts ≡ 1) workers.new }
{
    thread::for_each_mut(
        rt,
        workers,
        4,
        &|_, worker| visit(rt, hall, &mut worker.pass),
    );
}

fn visit<X: Logged, R: Wait>(rt: &R, hall: &Hall<X>, pass: &mut Pass<X>)
    requires ready { IsOf hall.now pass.old × Rests pass.old }
    ensures ready { IsOf hall.now pass.new × Rests pass.new }
    ensures parts { (view_of pass.new).parts ≡ (view_of pass.old).parts }
{
    let turn = hall.enter(rt, pass);
    hall.leave(pass, turn);
}

/// Takes a turn for a group that had none, which begins it.
fn begin<R: Wait>(rt: &R, hall: &Hall<Tally>, pass: &mut Pass<Tally>, group: u32) -> bool
    requires ready { IsOf hall.now pass.old × Rests pass.old }
    requires going { keeps_going hall.now ≡ true }
    ensures ready { IsOf hall.now pass.new × Rests pass.new }
    ensures parts { (view_of pass.new).parts ≡ (view_of pass.old).parts }
    ensures begun { IsTrue result → Has (view_of pass.new).groups group }
{
    let mut turn = hall.enter(rt, pass);
    let begins = turn.value.is_idle(group) && turn.value.note(group).is_ok();
    hall.leave(pass, turn);
    begins
}

/// Takes one more turn for a group.
fn take_turn<R: Wait>(rt: &R, hall: &Hall<Tally>, pass: &mut Pass<Tally>, group: u32) -> bool
    requires ready { IsOf hall.now pass.old × Rests pass.old }
    requires going { keeps_going hall.now ≡ true }
    requires own { Has (view_of pass.old).groups group }
    ensures ready { IsOf hall.now pass.new × Rests pass.new }
    ensures parts { (view_of pass.new).parts ≡ (view_of pass.old).parts }
    ensures own { Has (view_of pass.new).groups group }
{
    let mut turn = hall.enter(rt, pass);
    let noted = turn.value.note(group).is_ok();
    hall.leave(pass, turn);
    noted
}

fn work<R: Wait>(rt: &R, hall: &Hall<Tally>, worker: &mut Worker<Tally>)
    requires ready { IsOf hall.now worker.old.pass × Rests worker.old.pass }
    requires going { keeps_going hall.now ≡ true }
    ensures ready { IsOf hall.now worker.new.pass × Rests worker.new.pass }
    ensures parts { (view_of worker.new.pass).parts ≡ (view_of worker.old.pass).parts }
{
    let group = worker.group;
    if !begin(rt, hall, &mut worker.pass, group) {
        return;
    }
    for _ in 1..TURNS {
        if !take_turn(rt, hall, &mut worker.pass, group) {
            return;
        }
    }
}

fn work_all<R: Threads + Wait + Sync>(rt: &R, hall: &Hall<Tally>, workers: &mut [Worker<Tally>])
    requires going { keeps_going hall.now ≡ true }
    requires ready { All (λ w. IsOf hall.now w.pass × Rests w.pass) workers.old }
    requires parts { All (λ w. (view_of w.pass).parts ≡ 1) workers.old }
    ensures ready { All (λ w. IsOf hall.now w.pass × Rests w.pass) workers.new }
    ensures parts { All (λ w. (view_of w.pass).parts ≡ 1) workers.new }
{
    thread::for_each_mut(rt, workers, 4, &|_, worker| work(rt, hall, worker));
}

fn empty_tally(alloc: Global) -> Tally
    ensures { result.groups.items ≡ [] }
{
    Tally {
        name: 7,
        groups: Vec::new(alloc),
    }
}

/// The tally once four workers took their turns.
fn tallied<R: Threads + Wait + Sync>(rt: &R, hall: Hall<Tally>, pass: Pass<Tally>) -> Tally
    requires own { IsOf hall pass }
    requires rests { Rests pass }
    requires parts { ((view_of pass).parts ≡ 4) × (parts_of hall ≡ 4) }
    requires going { keeps_going hall ≡ true }
{
    let mut pass = pass;
    let second = hall.split(&mut pass);
    let third = hall.split(&mut pass);
    let fourth = hall.split(&mut pass);
    let mut workers = [
        Worker { pass, group: 1 },
        Worker {
            pass: second,
            group: 2,
        },
        Worker {
            pass: third,
            group: 3,
        },
        Worker {
            pass: fourth,
            group: 4,
        },
    ];
    visit_all(rt, &hall, &mut workers);
    work_all(rt, &hall, &mut workers);
    let [mut first, second, third, fourth] = workers;
    hall.join(&mut first.pass, second.pass);
    hall.join(&mut first.pass, third.pass);
    hall.join(&mut first.pass, fourth.pass);
    hall.close(first.pass)
}

#[test]
fn each_turn_is_there_once(rt: HostRuntime) -> Result<(), Fail> {
    let tally = empty_tally(rt.alloc());
    let Ok((hall, pass)) = Hall::open(rt.alloc(), tally, 4, true) else {
        return Err("no memory".into());
    };
    let tally = tallied(&rt, hall, pass);
    for group in 1..5 {
        assert_eq!(rt; tally.turns_of(group), TURNS as usize);
    }
    assert_eq!(rt; tally.groups.len(), 4 * TURNS as usize);
    Ok(())
}
