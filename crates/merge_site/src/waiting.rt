ghost use Rattle.std.specs.Prelude.{◌≡◌, ◌<◌, ℕ, true, false, IsTrue, MatchOption, length};
ghost use Rattle.merge_core.specs.Phase.{Idle};
ghost use Rattle.merge_site.specs.Waiting.{HasRunning, IsFirstReady, IsReady, are_told};
ghost use Rattle.merge_site.specs.Waiting.{is_told, is_under_way, phase_in};

use crate::group::SiteGroup;
use crate::site::Site;
use file_tree::{Sink, Tree};
use merge_core::{Core, Phase};

fn is_told(core: &Core, group: u32) -> bool
    ensures { result ≡ is_told (phase_in core.now group) }
{
    matches!(core.phase(group), Some(Phase::Told))
}

/// Whether a group hasn't begun, where there is such a group.
fn rests(core: &Core, group: u32) -> bool
    requires { group < length core.now.standings }
    ensures rests { IsTrue result → phase_in core.now group ≡ Idle }
    ensures not { result ≡ false → ¬ (phase_in core.now group ≡ Idle) }
{
    matches!(core.phase(group), Some(Phase::Idle))
}

fn is_under_way(core: &Core, group: u32) -> bool
    ensures { result ≡ is_under_way (phase_in core.now group) }
{
    match core.phase(group) {
        Some(Phase::Idle | Phase::Told | Phase::Abandoned) | None => false,
        Some(_) => true,
    }
}

fn are_told(core: &Core, groups: &[u32]) -> bool
    ensures { result ≡ are_told core.now groups.now }
{
    groups.iter().all(|group| is_told(core, *group))
}

fn is_ready(core: &Core, groups: &[SiteGroup], group: u32) -> bool
    requires core { group < length core.now.standings }
    requires there { group < length groups.now }
    ensures ready { IsTrue result → IsReady core.now groups.now group }
    ensures not { result ≡ false → ¬ IsReady core.now groups.now group }
{
    rests(core, group) && are_told(core, &groups[group as usize].after)
}

/// The lowest group that may begin.
fn first_ready(core: &Core, groups: &[SiteGroup]) -> Option<u32>
    requires { length groups.now ≡ length core.now.standings }
    ensures { MatchOption result ((g : ℕ) → ¬ IsReady core.now groups.now g)
        (IsFirstReady core.now groups.now) }
{
    for group in 0..core.groups() {
        if is_ready(core, groups, group) {
            return Some(group);
        }
    }
    None
}

fn has_running(core: &Core) -> bool
    ensures running { IsTrue result → HasRunning core.now }
    ensures none { result ≡ false → ¬ HasRunning core.now }
{
    for group in 0..core.groups() {
        if is_under_way(core, group) {
            return true;
        }
    }
    false
}

impl<T: Tree, S: Sink> Site<T, S> {
    /// The lowest group that hasn't begun and waits for none that isn't told.
    pub fn ready(&self) -> Option<u32>
        ensures { MatchOption result ((g : ℕ) → ¬ IsReady self.now.keeping self.now.groups g)
            (IsFirstReady self.now.keeping self.now.groups) }
    {
        first_ready(&self.core, &self.groups)
    }

    /// Whether a group has begun that is neither told nor given up.
    pub fn is_running(&self) -> bool
        ensures running { IsTrue result → HasRunning self.now.keeping }
        ensures none { result ≡ false → ¬ HasRunning self.now.keeping }
    {
        has_running(&self.core)
    }
}
