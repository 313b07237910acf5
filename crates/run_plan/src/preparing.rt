ghost use Rattle.std.specs.Prelude.{◌≡◌, IfOk, IsErrOf, IsTrue, length};
ghost use Rattle.file_tree.specs.Disk.{CountsFault};
ghost use Rattle.run_plan.specs.Courses.{IsCourse};

use file_tree::{Tree, TreeFault};
use merge_site::SiteGroup;
use plan_lives::Group;
use run_files::Places;
use run_turns::{Held, Job, held_paths, plan_places, site_groups};
use std::alloc::Global;
use vdb_record::Installed;

/// What the run of a plan takes, made before the first change of the tree.
#[derive(Drop)]
pub(crate) struct Course {
    pub(crate) places: Places,
    pub(crate) groups: Vec<SiteGroup>,
    pub(crate) progress: Progress,
}

/// How far the run of a plan has come.
#[derive(Drop)]
pub(crate) struct Progress {
    pub(crate) held: Held,
    pub(crate) history: Vec<u32>,
    pub(crate) acknowledged: Vec<u32>,
}

/// Makes what the run of a plan takes. The tree is only read.
pub(crate) fn course_of<T: Tree>(
    alloc: Global,
    tree: &mut T,
    installed: &[Installed],
    plan: &[Group],
    jobs: &[Job],
) -> Result<Course, TreeFault>
    requires count { length jobs.now ≡ length plan.now }
    ensures course { IfOk result
        (IsCourse T.tells (T.story tree.old).now.holds installed.now plan.now jobs.now) }
    ensures same { IsTrue T.tells → T.story tree.new ≡ T.story tree.old }
    ensures faults { CountsFault (IsErrOf result TreeFault.Failed) (T.faults tree.old)
        (T.faults tree.new) }
{
    let places = plan_places(alloc, installed, plan)?;
    let groups = site_groups(alloc, &places, plan, jobs)?;
    let history = Vec::with_capacity(alloc, plan.len())?;
    let acknowledged = Vec::with_capacity(alloc, plan.len())?;
    let held = held_paths(alloc, tree, installed, plan)?;
    let progress = Progress {
        held,
        history,
        acknowledged,
    };
    Ok(Course {
        places,
        groups,
        progress,
    })
}
