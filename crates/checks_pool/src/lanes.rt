ghost use Rattle.std.specs.Prelude.{◌≡◌, All, length};

use build_pool::{BuildPool, Builder};
use std::thread;
use std::thread::Threads;

/// What a thread has to itself, and what it found there.
#[derive(Drop)]
pub struct Lane<X> {
    pub own: X,
    pub found: usize,
}

/// Counts the builders at rest of each pool, in threads. It is proved only where a pool may be
/// handed to a thread, whatever its builders are.
pub fn count_builders<B: Builder + Send, R: Threads + Sync>(
    rt: &R,
    lanes: &mut [Lane<BuildPool<B>>],
)
    ensures { All (λ l. l.found ≡ length l.own.resting) lanes.new }
{
    thread::for_each_mut(rt, lanes, 4, &|_, lane| count(lane));
}

fn count<B: Builder>(lane: &mut Lane<BuildPool<B>>)
    ensures { lane.new.found ≡ length lane.new.own.resting }
{
    lane.found = lane.own.resting();
}
