ghost use Rattle.std.specs.Prelude.{◌≡◌, ◌∷◌, ◌++◌, IfOk, MatchOption, string_bytes};
ghost use Rattle.pms_names.specs.Names.{IsName};
ghost use Rattle.pms_names.specs.declared.kind.Kind.TheVariants.{Slot};
ghost use Rattle.pms_slot.specs.Reading.{IsSlotName, ReadsSlots, ReadsWritten};
ghost use Rattle.pms_slot.specs.Slots.{LacksSlash, IsFirstSlash, slot_text};

use pms_names::{NameFault, SlotName};
use std::alloc::{AllocError, Global};

/// The slot and the subslot of a package (PMS 7.2).
#[derive(Debug, Drop)]
pub struct SlotValue {
    pub slot: SlotName,
    pub subslot: SlotName,
}

/// What is written of a slot, in SLOT as in an atom: only the text tells whether a subslot stands
/// there.
#[derive(Debug, Drop)]
pub struct WrittenSlot {
    pub slot: SlotName,
    pub subslot: Option<SlotName>,
}

impl WrittenSlot {
    /// What the whole text writes, if it is `slot` or `slot/subslot`.
    pub fn read(alloc: Global, text: &[u8]) -> Result<Option<WrittenSlot>, AllocError>
        ensures { ReadsWritten text.now result }
    {
        match first_slash(text) {
            None => read_alone(alloc, text),
            Some(at) => read_both(alloc, &text[..at], &text[at + 1..]),
        }
    }
}

impl SlotValue {
    /// What the whole text says, if it is a value of SLOT: `slot` or `slot/subslot`.
    pub fn read(alloc: Global, text: &[u8]) -> Result<Option<SlotValue>, AllocError>
        ensures { ReadsSlots text.now result }
    {
        let Some(written) = WrittenSlot::read(alloc, text)? else {
            return Ok(None);
        };
        let WrittenSlot { slot, subslot } = written;
        let subslot = match subslot {
            Some(subslot) => subslot,
            None => slot.try_clone()?,
        };
        Ok(Some(SlotValue { slot, subslot }))
    }
}

/// The slot, with the subslot behind a slash exactly where it differs.
pub fn print_slots(alloc: Global, slot: &SlotName, subslot: &SlotName) -> Result<String, AllocError>
    ensures { IfOk result (λ t. string_bytes t ≡ slot_text slot.now subslot.now) }
{
    let mut text = String::new(alloc);
    text.push_str(slot.text())?;
    if slot != subslot {
        text.push_str("/")?;
        text.push_str(subslot.text())?;
    }
    Ok(text)
}

fn first_slash(text: &[u8]) -> Option<usize>
    ensures { MatchOption result (LacksSlash text.now) (IsFirstSlash text.now) }
{
    text.iter().position(|b| *b == b'/')
}

// What a text without a slash writes.
fn read_alone(alloc: Global, slot: &[u8]) -> Result<Option<WrittenSlot>, AllocError>
    requires { LacksSlash slot.now }
    ensures { ReadsWritten slot.now result }
{
    let Some(slot) = read_name(alloc, slot)? else {
        return Ok(None);
    };
    Ok(Some(WrittenSlot {
        slot,
        subslot: None,
    }))
}

// What these write with a slash between them, which is the first one.
fn read_both(alloc: Global, slot: &[u8], subslot: &[u8]) -> Result<Option<WrittenSlot>, AllocError>
    requires { LacksSlash slot.now }
    ensures { ReadsWritten (slot.now ++ (47 ∷ subslot.now)) result }
{
    let Some(slot) = read_name(alloc, slot)? else {
        return Ok(None);
    };
    let Some(subslot) = read_name(alloc, subslot)? else {
        return Ok(None);
    };
    Ok(Some(WrittenSlot {
        slot,
        subslot: Some(subslot),
    }))
}

fn read_name(alloc: Global, bytes: &[u8]) -> Result<Option<SlotName>, AllocError>
    ensures { IfOk result (λ r. MatchOption r (¬ IsName Slot bytes.now) (IsSlotName bytes.now)) }
{
    match SlotName::from_bytes(alloc, bytes) {
        Ok(name) => Ok(Some(name)),
        Err(NameFault::Memory) => Err(AllocError),
        Err(_) => Ok(None),
    }
}
