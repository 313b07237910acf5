ghost use Rattle.std.specs.Prelude.{◌≡◌, IfOk, length};
ghost use Rattle.recovery.specs.Stages.{stages_from};

use file_tree::Path;
use merge_journal::stage_path;
use std::alloc::{AllocError, Global};
use std::marker::Model;

/// The paths of one group's stages.
#[derive(Debug, Drop)]
pub struct StagePaths {
    group: u32,
    pub(crate) stages: Vec<Path>,
}

impl Model for StagePaths {
    ghost use Rattle.std.specs.Prelude.{◌≡◌, ◌<◌, ◌^◌, length};
    ghost use Rattle.recovery.specs.Stages.{StagePathsValue, stages_from};

    ghost Value = { StagePathsValue };

    ghost view = { λ s. record { group = s.group; count = length s.stages.items } };

    ghost invariant = { λ s. (s.group < 2 ^ 32) × (length s.stages.items < 2 ^ 32) ×
        (s.stages.items ≡ stages_from s.group 0 (length s.stages.items)) };
}

impl StagePaths {
    ghost use Rattle.std.specs.Prelude.{◌≡◌, IfOk};

    /// The paths of so many stages of a group of this number.
    pub(crate) fn new(alloc: Global, group: u32, count: u32) -> Result<StagePaths, AllocError>
        ensures group { IfOk result (λ s. s.group ≡ group) }
        ensures count { IfOk result (λ s. s.count ≡ count) }
    {
        let stages = stage_paths(alloc, group, count)?;
        Ok(StagePaths { group, stages })
    }
}

/// The stages of a group, in order.
fn stage_paths(alloc: Global, group: u32, count: u32) -> Result<Vec<Path>, AllocError>
    ensures paths { IfOk result (λ v. v.items ≡ stages_from group 0 count) }
    ensures count { IfOk result (λ v. length v.items ≡ count) }
{
    let mut paths = Vec::new(alloc);
    for index in 0..count {
        paths.push(stage_path(alloc, group, index)?)?;
    }
    Ok(paths)
}
