ghost use Rattle.std.specs.Prelude.{◌≡◌, ◌<◌, ◌^◌, ◌+◌, [], length};
ghost use Rattle.merge_group.specs.Runs.{IsUnderWay};
ghost use Rattle.merge_group.specs.Through.{HasRoom};
ghost use Rattle.run_turns.specs.Plans.{AreJobs};
ghost use Rattle.run_plan.specs.Courses.{MergesGroups};

use crate::newcomers::newcomers_of;
use crate::preparing::Progress;
use crate::stop::PlanStop;
use build_pool::{BuildPool, Builder};
use file_tree::{Sink, Tree};
use merge_group::merge_next;
use merge_site::Site;
use plan_lives::Group;
use run_files::Places;
use run_turns::{Job, make_turn};
use std::alloc::Global;

/// Merges the groups of a plan one after another, until one is stopped.
pub(crate) fn merge_groups<T: Tree, S: Sink, B: Builder>(
    alloc: Global,
    site: &mut Site<T, S>,
    pool: &mut BuildPool<B>,
    plan: &[Group],
    jobs: &[Job],
    places: &Places,
    progress: &mut Progress,
) -> Result<(), PlanStop>
    requires begun { IsUnderWay T.tells (T.story site.old.opened).now.holds []
        progress.old.history.items progress.old.acknowledged.items site.old }
    requires groups { length site.old.groups ≡ length plan.now + 1 }
    requires jobs { AreJobs plan.now jobs.now }
    requires small { length plan.now < 2 ^ 31 }
    requires resting { 0 < length pool.old.resting }
    requires room { HasRoom (length plan.now) progress.old.history }
    requires more { HasRoom (length plan.now) progress.old.acknowledged }
    ensures { MergesGroups T.Tree S.Sink B.Builder plan.now jobs.now places.now site.old site.new
        pool.old pool.new progress.old progress.new result }
{
    for (place, group) in plan.iter().enumerate() {
        let newcomers = newcomers_of(alloc, pool, &group.additions, &jobs[place].orders)?;
        let number = place as u32 + 1;
        let held = &mut progress.held;
        let turn = make_turn(alloc, places, held, group, number, newcomers)?;
        merge_next(
            site,
            turn,
            &mut progress.history,
            &mut progress.acknowledged,
        )?;
    }
    Ok(())
}
