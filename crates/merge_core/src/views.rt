ghost use Rattle.std.specs.Prelude.{◌≡◌, ◌<◌, ◌-◌, length, slice_get};
ghost use Rattle.std.specs.Option.{option_copied};
ghost use Rattle.merge_core.specs.Core.{standing_in};

use crate::machine::Core;
use file_tree::Path;
use merge_record::Placement;

impl Core {
    pub fn groups(&self) -> u32
        ensures { result ≡ length self.now.standings }
    {
        self.standings.len() as u32
    }

    /// Whether the call of an event failed.
    pub fn is_stopped(&self) -> bool
        ensures { result ≡ self.now.stopped }
    {
        self.stopped
    }

    /// How many objects the group has staged.
    pub fn staged(&self, group: u32) -> usize
        requires { group < length self.now.standings }
        ensures { result ≡ length (standing_in self.now.standings group).objects }
    {
        self.standings[group as usize].objects.len()
    }

    /// How many of its placements the group has made.
    pub fn placed(&self, group: u32) -> usize
        requires { group < length self.now.standings }
        ensures { result ≡ (standing_in self.now.standings group).placed }
    {
        self.standings[group as usize].placed
    }

    /// The placement that the group makes next.
    pub fn next_placement(&self, group: u32) -> Option<&Placement>
        requires { group < length self.now.standings }
        ensures { option_copied result ≡ slice_get
            (standing_in self.now.standings group).placements
            (standing_in self.now.standings group).placed }
    {
        let standing = &self.standings[group as usize];
        standing.placements.get(standing.placed)
    }

    /// The path that the group removes next.
    pub fn next_removal(&self, group: u32) -> Option<&Path>
        requires { group < length self.now.standings }
        ensures { option_copied result ≡ slice_get
            (standing_in self.now.standings group).removals
            (standing_in self.now.standings group).removed }
    {
        let standing = &self.standings[group as usize];
        standing.removals.get(standing.removed)
    }

    /// The paths that the group's record removes.
    pub fn removals(&self, group: u32) -> &[Path]
        requires { group < length self.now.standings }
        ensures { result.now ≡ (standing_in self.now.standings group).removals }
    {
        &self.standings[group as usize].removals
    }

    /// How many placements and how many removals of the group aren't made yet.
    pub fn left(&self, group: u32) -> (usize, usize)
        requires { group < length self.now.standings }
        ensures placements { result.0 ≡
            length (standing_in self.now.standings group).placements -
            (standing_in self.now.standings group).placed }
        ensures removals { result.1 ≡
            length (standing_in self.now.standings group).removals -
            (standing_in self.now.standings group).removed }
    {
        let standing = &self.standings[group as usize];
        let placements = standing.placements.len().saturating_sub(standing.placed);
        let removals = standing.removals.len().saturating_sub(standing.removed);
        (placements, removals)
    }
}
