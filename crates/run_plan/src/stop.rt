use dep_atom::PackageId;
use file_tree::TreeFault;
use merge_group::Stop;
use std::alloc::AllocError;

/// Why the run of a plan ended before all of its groups were told.
#[derive(Debug, Drop)]
pub enum PlanStop {
    /// The merge of the next group, or the device, the output or want of memory.
    Merge(Stop),
    /// The builder of this package's image failed.
    Build(PackageId),
    /// The image of this package has too many entries.
    Image(PackageId),
}

impl From<Stop> for PlanStop {
    ghost use Rattle.std.specs.Prelude.{◌≡◌};
    ghost use Rattle.run_plan.specs.declared.stop.PlanStop.TheVariants as stops;

    ghost from_gives = { λ stop e. e ≡ stops.Merge stop };

    fn from(stop: Stop) -> PlanStop {
        PlanStop::Merge(stop)
    }
}

impl From<AllocError> for PlanStop {
    ghost use Rattle.std.specs.Prelude.{◌≡◌};
    ghost use Rattle.file_tree.specs.declared.fault.TreeFault.TheVariants as trees;
    ghost use Rattle.merge_group.specs.declared.stop.Stop.TheVariants as merges;
    ghost use Rattle.run_plan.specs.declared.stop.PlanStop.TheVariants as stops;

    ghost from_gives = { λ _ e. e ≡ stops.Merge (merges.Tree trees.Memory) };

    fn from(_: AllocError) -> PlanStop {
        PlanStop::Merge(Stop::Tree(TreeFault::Memory))
    }
}
