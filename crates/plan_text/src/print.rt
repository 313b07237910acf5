ghost use Rattle.std.specs.Prelude.{◌≡◌, [], ◌++◌, ◌∷◌, IfOk, OnOk, string_bytes};
ghost use Rattle.std.specs.List.{flat_map};
ghost use Rattle.dep_atom.specs.Ids.{id_text};
ghost use Rattle.plan_text.specs.Plans.{group_value, plan_value};
ghost use Rattle.plan_text.specs.Printed.{addition_text, after_text, bind_text, entry_text};
ghost use Rattle.plan_text.specs.Printed.{group_text, groups_text, number_text, removal_text};
ghost use Rattle.plan_text.specs.Printed.{spaced};
ghost use Rattle.plan_text.specs.Texts.{plan_text};
ghost use Rattle.plan_text.specs.Words.{slots_word};

use crate::plan::{Group, Plan, Removal};
use build_pool::Order;
use dep_atom::{Bind, PackageId};
use itoa::Buffer;
use pms_names::{Flags, SlotName};
use std::alloc::{AllocError, Global};

impl Plan {
    /// The text of the plan, with a newline behind each line.
    pub fn print(&self, alloc: Global) -> Result<String, AllocError>
        ensures { IfOk result (λ text. string_bytes text ≡ plan_text (plan_value self.now)) }
    {
        let mut out = String::new(alloc);
        out.push_str("plan 1\n")?;
        for (at, group) in self.groups.iter().enumerate() {
            push_group(&mut out, alloc, at + 1, group)?;
        }
        Ok(out)
    }
}

fn push_group(
    out: &mut String,
    alloc: Global,
    number: usize,
    group: &Group,
) -> Result<(), AllocError>
    ensures { OnOk result (string_bytes out.new ≡
        string_bytes out.old ++ group_text number (group_value group.now)) }
{
    out.push_str("group")?;
    push_number(out, number)?;
    out.push_str("\n")?;
    push_after(out, &group.after)?;
    push_removals(out, alloc, &group.removals)?;
    push_additions(out, alloc, &group.additions)
}

fn push_after(out: &mut String, numbers: &[u32]) -> Result<(), AllocError>
    ensures { OnOk result (string_bytes out.new ≡
        string_bytes out.old ++ after_text numbers.now) }
{
    if numbers.is_empty() {
        return Ok(());
    }
    out.push_str("after")?;
    push_numbers(out, numbers)?;
    out.push_str("\n")
}

fn push_numbers(out: &mut String, numbers: &[u32]) -> Result<(), AllocError>
    ensures { OnOk result (string_bytes out.new ≡
        string_bytes out.old ++ flat_map number_text numbers.now) }
{
    for number in numbers {
        push_number(out, *number as usize)?;
    }
    Ok(())
}

fn push_number(out: &mut String, number: usize) -> Result<(), AllocError>
    ensures { OnOk result (string_bytes out.new ≡ string_bytes out.old ++ number_text number) }
{
    let mut buffer = Buffer::new();
    out.push_str(" ")?;
    out.push_str(buffer.format(number))
}

fn push_removals(out: &mut String, alloc: Global, removals: &[Removal]) -> Result<(), AllocError>
    ensures { OnOk result (string_bytes out.new ≡
        string_bytes out.old ++ flat_map removal_text removals.now) }
{
    for removal in removals {
        push_removal(out, alloc, removal)?;
    }
    Ok(())
}

fn push_removal(out: &mut String, alloc: Global, removal: &Removal) -> Result<(), AllocError>
    ensures { OnOk result (string_bytes out.new ≡
        string_bytes out.old ++ removal_text removal.now) }
{
    out.push_str("remove ")?;
    push_id(out, alloc, &removal.id)?;
    out.push_str(removal.slot.text())?;
    out.push_str("\n")
}

fn push_additions(out: &mut String, alloc: Global, additions: &[Order]) -> Result<(), AllocError>
    ensures { OnOk result (string_bytes out.new ≡
        string_bytes out.old ++ flat_map addition_text additions.now) }
{
    for addition in additions {
        push_entry(out, alloc, addition)?;
        push_binds(out, addition.binds.list())?;
    }
    Ok(())
}

fn push_entry(out: &mut String, alloc: Global, addition: &Order) -> Result<(), AllocError>
    ensures { OnOk result (string_bytes out.new ≡
        string_bytes out.old ++ entry_text addition.now) }
{
    out.push_str("add ")?;
    push_id(out, alloc, &addition.id)?;
    push_slots(out, &addition.slot, &addition.subslot)?;
    push_flags(out, &addition.enabled)?;
    out.push_str("\n")
}

/// Puts each of the flags behind the text, with a space before it.
pub fn push_flags(out: &mut String, flags: &Flags) -> Result<(), AllocError>
    ensures { OnOk result (string_bytes out.new ≡
        string_bytes out.old ++ flat_map spaced flags.now) }
{
    for flag in flags.list() {
        out.push_str(" ")?;
        out.push_str(flag.text())?;
    }
    Ok(())
}

fn push_binds(out: &mut String, binds: &[Bind]) -> Result<(), AllocError>
    ensures { OnOk result (string_bytes out.new ≡
        string_bytes out.old ++ flat_map bind_text binds.now) }
{
    for bind in binds {
        out.push_str("bind ")?;
        push_slots(out, &bind.slot, &bind.subslot)?;
        out.push_str("\n")?;
    }
    Ok(())
}

fn push_id(out: &mut String, alloc: Global, id: &PackageId) -> Result<(), AllocError>
    ensures { OnOk result (string_bytes out.new ≡
        string_bytes out.old ++ (id_text id.now ++ (58 ∷ []))) }
{
    let text = id.print(alloc)?;
    out.push_str(&text)?;
    out.push_str(":")
}

fn push_slots(out: &mut String, slot: &SlotName, subslot: &SlotName) -> Result<(), AllocError>
    ensures { OnOk result (string_bytes out.new ≡
        string_bytes out.old ++ slots_word slot.now subslot.now) }
{
    out.push_str(slot.text())?;
    out.push_str("/")?;
    out.push_str(subslot.text())
}
