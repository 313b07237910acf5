ghost use Rattle.std.specs.Prelude.{◌≡◌, All};

use file_tree::{Sink, Tree};
use merge_site::Site;
use std::thread;
use std::thread::Threads;

/// A site that a thread has to itself, and whether it was found stopped there.
#[derive(Drop)]
pub struct Watch<X> {
    pub own: X,
    pub stopped: bool,
}

/// Looks at each site, in threads. It is proved only where a site may be handed to a thread,
/// whatever its tree and its sink are.
pub fn watch_sites<T: Tree + Send, S: Sink + Send, R: Threads + Sync>(
    rt: &R,
    watches: &mut [Watch<Site<T, S>>],
)
    ensures { All (λ w. w.stopped ≡ w.own.keeping.stopped) watches.new }
{
    thread::for_each_mut(rt, watches, 4, &|_, watch| look(watch));
}

fn look<T: Tree, S: Sink>(watch: &mut Watch<Site<T, S>>)
    ensures { watch.new.stopped ≡ watch.new.own.keeping.stopped }
{
    watch.stopped = watch.own.is_stopped();
}
