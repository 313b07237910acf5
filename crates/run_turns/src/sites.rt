ghost use Rattle.std.specs.Prelude.{◌≡◌, List, IfOk, length};
ghost use Rattle.vdb_law.specs.Packages.{Installed as InstalledValue};
ghost use Rattle.run_files.specs.Keys.{folders_with};
ghost use Rattle.run_files.specs.Places.{ArePlaces};
ghost use Rattle.run_turns.specs.Plans.{AreSiteGroups, coming, bytes_of_job, key_of_id};
ghost use Rattle.std.specs.Prelude.{map};
ghost use Rattle.plan_law.specs.Plans.{Group as GroupValue};

use crate::job::Job;
use crate::keys::removed_keys;
use merge_record::OwnerKey;
use merge_site::SiteGroup;
use plan_lives::Group;
use run_files::Places;
use std::alloc::{AllocError, Global};

/// What a site is opened for that merges the groups of the plan in their order.
pub fn site_groups(
    alloc: Global,
    places: &Places,
    plan: &[Group],
    jobs: &[Job],
) -> Result<Vec<SiteGroup>, AllocError>
    requires count { length jobs.now ≡ length plan.now }
    ensures { (ps : List InstalledValue) →
        ArePlaces (folders_with ps (coming plan.now)) places.now →
        IfOk result (λ v. AreSiteGroups ps plan.now jobs.now v.items) }
{
    let mut groups = Vec::with_capacity(alloc, plan.len())?;
    groups.push(site_group(alloc, Vec::new(alloc), Vec::new(alloc)))?;
    for (place, group) in plan.iter().enumerate() {
        groups.push(group_of(alloc, places, group, &jobs[place])?)?;
    }
    Ok(groups)
}

/// What a site is opened for of one group.
fn group_of(
    alloc: Global,
    places: &Places,
    group: &Group,
    job: &Job,
) -> Result<SiteGroup, AllocError>
    ensures dying { (ps : List InstalledValue) (plan : List GroupValue) →
        ArePlaces (folders_with ps (coming plan)) places.now →
        IfOk result (λ x. x.dying.items ≡ map (λ r. key_of_id ps plan r.id) group.now.removals) }
    ensures line { IfOk result (λ x. x.line.items ≡ bytes_of_job job.now) }
{
    let dying = removed_keys(alloc, places, &group.removals)?;
    let line = job.line.to_vec(alloc)?;
    Ok(site_group(alloc, dying, line))
}

/// A group that waits for none: they come in their order.
fn site_group(alloc: Global, dying: Vec<OwnerKey>, line: Vec<u8>) -> SiteGroup
    ensures dying { result.dying.items ≡ dying.items }
    ensures line { result.line.items ≡ line.items }
{
    SiteGroup {
        after: Vec::new(alloc),
        dying,
        line,
    }
}
