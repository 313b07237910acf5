ghost use Rattle.std.specs.Prelude.{◌≡◌, ◌++◌, [], IfOk, OnOk};
ghost use Rattle.std.specs.List.{filter_map};
ghost use Rattle.std.specs.Option.{option_copied, option_to_list};
ghost use Rattle.visible_verdicts.specs.Candidates.{IsJudged, hidden_of, id_of, visible_of};

use crate::judging::judge;
use crate::reason::{Reason, Refusal};
use crate::rules::VisibleRules;
use dep_atom::PackageId;
use md5_cache::CacheEntry;
use std::alloc::{AllocError, Global};

/// A candidate that isn't visible.
#[derive(Debug, Drop)]
pub struct Hidden {
    pub id: PackageId,
    pub reason: Reason,
}

/// What is told of a candidate.
#[derive(Debug, Drop)]
pub enum Verdict {
    Visible(CacheEntry),
    Hidden(Hidden),
}

/// The candidates of the repository, each list in their order.
#[derive(Debug, Drop)]
pub struct Candidates {
    pub visible: Vec<CacheEntry>,
    pub hidden: Vec<Hidden>,
}

impl Candidates {
    pub(crate) fn new(alloc: Global) -> Candidates
        ensures visible { result.visible.items ≡ [] }
        ensures hidden { result.hidden.items ≡ [] }
    {
        Candidates {
            visible: Vec::new(alloc),
            hidden: Vec::new(alloc),
        }
    }

    /// Adds what is told of one more package, if something is.
    pub(crate) fn add(&mut self, verdict: Option<Verdict>) -> Result<(), AllocError>
        ensures visible { OnOk result (self.new.visible.items ≡
            self.old.visible.items ++ filter_map visible_of (option_to_list verdict)) }
        ensures hidden { OnOk result (self.new.hidden.items ≡
            self.old.hidden.items ++ filter_map hidden_of (option_to_list verdict)) }
    {
        match verdict {
            Some(Verdict::Visible(entry)) => self.visible.push(entry)?,
            Some(Verdict::Hidden(hidden)) => self.hidden.push(hidden)?,
            None => {}
        }
        Ok(())
    }
}

/// The verdict on a package with this entry and this ebuild.
pub(crate) fn verdict_on(
    alloc: Global,
    rules: &VisibleRules,
    id: PackageId,
    entry: &[u8],
    ebuild: Option<&[u8]>,
) -> Result<Verdict, AllocError>
    ensures judged { IfOk result
        (IsJudged rules.now id entry.now (option_copied ebuild.entry)) }
    ensures named { IfOk result (λ v. id_of v ≡ id) }
{
    let own = id.try_clone()?;
    match judge(alloc, rules, id, entry, ebuild) {
        Ok(entry) => Ok(Verdict::Visible(entry)),
        Err(Refusal::Hidden(reason)) => Ok(Verdict::Hidden(Hidden { id: own, reason })),
        Err(Refusal::Memory) => Err(AllocError),
    }
}
