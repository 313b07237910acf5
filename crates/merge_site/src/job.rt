ghost use Rattle.std.specs.Prelude.{◌≡◌, ◌<◌, ◌≤◌, IfOk, OnOk};

use file_tree::Path;
use merge_journal::{gate_path, record_path, stage_path, token_path};
use std::alloc::{AllocError, Global};
use std::marker::Model;

/// What a site keeps of one group: the paths of its files, and what comes with its events.
#[derive(Drop)]
pub(crate) struct Job {
    group: u32,
    gate: Path,
    changes: Path,
    token: Path,
    stages: Vec<Path>,
}

impl Model for Job {
    ghost use Rattle.std.specs.Prelude.{length};
    ghost use Rattle.merge_site.specs.Site.{AreFilesOf, JobValue};

    ghost Value = { JobValue };

    ghost view = { λ j. record {
      group = j.group;
      staged = length j.stages.items;
    } };

    ghost invariant = { λ j. AreFilesOf j.group j.gate j.changes j.token j.stages.items };
}

impl Job {
    ghost use Rattle.merge_journal.specs.Names.{gate_path, record_path, stage_path, token_path};
    ghost use Rattle.merge_site.specs.Site.{new_payload};

    pub(crate) fn new(alloc: Global, group: u32) -> Result<Job, AllocError>
        ensures { IfOk result (λ j. j ≡ new_payload group) }
    {
        let gate = gate_path(alloc, group)?;
        let changes = record_path(alloc, group)?;
        let token = token_path(alloc, group)?;
        Ok(Job {
            group,
            gate,
            changes,
            token,
            stages: Vec::new(alloc),
        })
    }

    pub(crate) fn gate(&self) -> &Path
        ensures { result.now ≡ gate_path self.now.group }
    {
        &self.gate
    }

    pub(crate) fn changes(&self) -> &Path
        ensures { result.now ≡ record_path self.now.group }
    {
        &self.changes
    }

    pub(crate) fn token(&self) -> &Path
        ensures { result.now ≡ token_path self.now.group }
    {
        &self.token
    }

    /// Where the object of this placement is staged.
    pub(crate) fn stage(&self, index: usize) -> &Path
        requires { index < self.now.staged }
        ensures { result.now ≡ stage_path self.now.group index }
    {
        &self.stages[index]
    }

    /// Makes the path of the stage with this index, unless there is one.
    pub(crate) fn make_stage(&mut self, alloc: Global, index: u32) -> Result<(), AllocError>
        requires { index ≤ self.old.staged }
        ensures group { self.new.group ≡ self.old.group }
        ensures made { OnOk result (index < self.new.staged) }
        ensures more { self.old.staged ≤ self.new.staged }
    {
        if (index as usize) < self.stages.len() {
            return Ok(());
        }
        let path = stage_path(alloc, self.group, index)?;
        self.stages.push(path)?;
        Ok(())
    }
}
