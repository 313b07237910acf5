ghost use Rattle.std.specs.Prelude.{◌≡◌, ◌<◌, ◌^◌, ◌↔◌, [], ℕ, filter, not, IfErr, IfOk, IsErrOf};
ghost use Rattle.std.specs.Prelude.{IsTrue};
ghost use Rattle.basics.specs.Members.{AreDistinct, Has};
ghost use Rattle.file_tree.specs.Disk.{CountsFault};
ghost use Rattle.merge_journal.specs.Judging.{AreApplicable};
ghost use Rattle.merge_journal.specs.Names.{gate_path};
ghost use Rattle.merge_journal.specs.Open.{IsRising, is_open};
ghost use Rattle.recovery.specs.Found.{AreGates, IsFound};
ghost use Rattle.recovery.specs.Promise.{IsFaultOf};

use crate::fault::RecoverFault;
use crate::limits::MOST_GATES;
use file_tree::{Path, Tree, TreeFault};
use merge_journal::{gate_path, group_of_gate, is_open_gate, jobs_folder, judge_all};
use merge_record::Record;
use std::alloc::{AllocError, Global};
use std::marker::Model;

/// What recovery finds in a journal: the open groups, the record of each, the groups whose gate holds
/// an object, and those of them that aren't open.
#[derive(Debug, Drop)]
pub struct Journal {
    pub opened: Vec<u32>,
    pub records: Vec<Record>,
    pub gates: Vec<u32>,
    pub odd: Vec<u32>,
}

impl Model for Journal {
    ghost use Rattle.recovery.specs.Found.{JournalValue};

    ghost Value = { JournalValue };

    ghost view = { λ j. record {
      opened = j.opened.items;
      records = j.records.items;
      gates = j.gates.items;
      odd = j.odd.items;
    } };
}

/// The groups whose gate is among the paths.
fn gates_among(alloc: Global, paths: &[Path]) -> Result<Vec<u32>, AllocError>
    requires { AreDistinct paths.now }
    ensures gates { IfOk result (λ v. (h : ℕ) →
        Has v.items h ↔ ((h < 2 ^ 32) × Has paths.now (gate_path h))) }
    ensures distinct { IfOk result (λ v. AreDistinct v.items) }
{
    let mut groups = Vec::new(alloc);
    for path in paths {
        if let Some(group) = group_of_gate(alloc, path)? {
            groups.push(group)?;
        }
    }
    Ok(groups)
}

/// The groups in rising order.
fn rising(mut groups: Vec<u32>) -> Result<Vec<u32>, AllocError>
    requires { AreDistinct groups.items }
    ensures same { IfOk result (λ v. (h : ℕ) → Has v.items h ↔ Has groups.items h) }
    ensures rising { IfOk result (λ v. IsRising v.items) }
{
    groups.sort()?;
    Ok(groups)
}

/// The groups whose gate holds an object, in rising order.
fn find_gates<T: Tree>(alloc: Global, tree: &mut T) -> Result<Vec<u32>, TreeFault>
    ensures gates { IsTrue T.tells → IfOk result
        (λ v. AreGates (T.story tree.old).now.holds v.items) }
    ensures same { IsTrue T.tells → T.story tree.new ≡ T.story tree.old }
    ensures faults { CountsFault (IsErrOf result TreeFault.Failed) (T.faults tree.old)
        (T.faults tree.new) }
{
    let jobs = jobs_folder(alloc)?;
    let paths = tree.list(&jobs)?;
    let groups = gates_among(alloc, &paths)?;
    Ok(rising(groups)?)
}

/// Whether the group is open.
fn is_group_open<T: Tree>(alloc: Global, tree: &mut T, group: u32) -> Result<bool, TreeFault>
    ensures answer { IsTrue T.tells → IfOk result
        (λ is_it. is_it ≡ is_open ((T.story tree.old).now.holds (gate_path group))) }
    ensures same { IsTrue T.tells → T.story tree.new ≡ T.story tree.old }
    ensures faults { CountsFault (IsErrOf result TreeFault.Failed) (T.faults tree.old)
        (T.faults tree.new) }
{
    let gate = gate_path(alloc, group)?;
    match tree.read(&gate)? {
        Some(object) => Ok(is_open_gate(&object)),
        None => Ok(false),
    }
}

/// Those of the groups that are open, and then those that aren't.
fn parted<T: Tree>(
    alloc: Global,
    tree: &mut T,
    groups: &[u32],
) -> Result<(Vec<u32>, Vec<u32>), TreeFault>
    ensures open { IsTrue T.tells → IfOk result
        (λ x. x.0.items ≡ filter
        (λ h. is_open ((T.story tree.old).now.holds (gate_path h))) groups.now) }
    ensures odd { IsTrue T.tells → IfOk result
        (λ x. x.1.items ≡ filter
        (λ h. not (is_open ((T.story tree.old).now.holds (gate_path h)))) groups.now) }
    ensures same { IsTrue T.tells → T.story tree.new ≡ T.story tree.old }
    ensures faults { CountsFault (IsErrOf result TreeFault.Failed) (T.faults tree.old)
        (T.faults tree.new) }
{
    let mut opened = Vec::new(alloc);
    let mut odd = Vec::new(alloc);
    for group in groups {
        if is_group_open(alloc, tree, *group)? {
            opened.push(*group)?;
        } else {
            odd.push(*group)?;
        }
    }
    Ok((opened, odd))
}

/// Judges the journal, and finds what there is to do.
pub(crate) fn read_journal<T: Tree>(alloc: Global, tree: &mut T) -> Result<Journal, RecoverFault>
    ensures found { IsTrue T.tells → IfOk result (IsFound (T.story tree.old).now.holds) }
    ensures applicable { IfOk result (λ f. AreApplicable f.records) }
    ensures refused { IsTrue T.tells → IfErr result
        (λ e. IsFaultOf e (T.story tree.old).now.holds) }
    ensures same { IsTrue T.tells → T.story tree.new ≡ T.story tree.old }
    ensures faults { CountsFault (IsErrOf result (RecoverFault.Tree TreeFault.Failed))
        (T.faults tree.old) (T.faults tree.new) }
{
    let gates = find_gates(alloc, tree)?;
    if gates.len() > MOST_GATES {
        return Err(RecoverFault::Limit);
    }
    let (opened, odd) = parted(alloc, tree, &gates)?;
    let records = judge_all(alloc, tree, &opened)?;
    Ok(Journal {
        opened,
        records,
        gates,
        odd,
    })
}
