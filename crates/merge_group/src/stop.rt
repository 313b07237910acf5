use file_tree::{Failed, TreeFault};
use merge_fit::ImageBad;
use merge_site::{ClaimStop, SiteFault, StageFault};

/// Why a run of groups ended before all of them were told.
#[derive(Debug, Drop)]
pub enum Stop {
    Output,
    /// A file of a package whose object may not be placed.
    Image(ImageBad),
    /// What refused the claim of the group's paths, but for a fault of the tree.
    Claim(ClaimStop),
    /// Too many files, or a record past a limit.
    Limit,
    /// The device failed, or memory ran out.
    Tree(TreeFault),
}

impl From<Failed> for Stop {
    ghost use Rattle.std.specs.Prelude.{◌≡◌};
    ghost use Rattle.file_tree.specs.declared.fault.TreeFault.TheVariants as trees;
    ghost use Rattle.merge_group.specs.declared.stop.Stop.TheVariants as stops;

    ghost from_gives = { λ _ e. e ≡ stops.Tree trees.Failed };

    fn from(_: Failed) -> Stop {
        Stop::Tree(TreeFault::Failed)
    }
}

impl From<TreeFault> for Stop {
    ghost use Rattle.std.specs.Prelude.{◌≡◌};
    ghost use Rattle.merge_group.specs.declared.stop.Stop.TheVariants as stops;

    ghost from_gives = { λ f e. e ≡ stops.Tree f };

    fn from(fault: TreeFault) -> Stop {
        Stop::Tree(fault)
    }
}

impl From<SiteFault> for Stop {
    ghost use Rattle.std.specs.Prelude.{◌≡◌};
    ghost use Rattle.merge_group.specs.Stops.{stop_of_site};

    ghost from_gives = { λ f e. e ≡ stop_of_site f };

    fn from(fault: SiteFault) -> Stop {
        match fault {
            SiteFault::Limit => Stop::Limit,
            SiteFault::Tree(fault) => Stop::Tree(fault),
        }
    }
}

impl From<StageFault> for Stop {
    ghost use Rattle.std.specs.Prelude.{◌≡◌};
    ghost use Rattle.merge_group.specs.Stops.{stop_of_stage};

    ghost from_gives = { λ f e. e ≡ stop_of_stage f };

    fn from(fault: StageFault) -> Stop {
        match fault {
            StageFault::Image(bad) => Stop::Image(bad),
            StageFault::Limit => Stop::Limit,
            StageFault::Tree(fault) => Stop::Tree(fault),
        }
    }
}

impl From<ClaimStop> for Stop {
    ghost use Rattle.std.specs.Prelude.{◌≡◌};
    ghost use Rattle.merge_group.specs.Stops.{stop_of_claim};

    ghost from_gives = { λ f e. e ≡ stop_of_claim f };

    fn from(stop: ClaimStop) -> Stop {
        match stop {
            ClaimStop::Tree(fault) => Stop::Tree(fault),
            refusal => Stop::Claim(refusal),
        }
    }
}
