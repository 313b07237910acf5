ghost use Rattle.std.specs.Prelude.{◌≡◌, ◌++◌, IfOk, OnOk, string_bytes};

use pms_names::SlotName;
use std::alloc::AllocError;

/// The part of an atom behind the colon (PMS 8.3.3).
#[derive(Debug, Drop)]
pub enum SlotPart {
    /// Nothing is written.
    Free,
    /// `:*`
    Star,
    /// `:=`
    Equals,
    /// `:slot`, `:slot/subslot`, and either with `=` behind it.
    Given {
        slot: SlotName,
        subslot: Option<SlotName>,
        equals: bool,
    },
}

/// The slot and the subslot to which an equals operator is bound.
#[derive(Debug, Drop)]
pub struct Bind {
    pub slot: SlotName,
    pub subslot: SlotName,
}

impl SlotPart {
    ghost use Rattle.dep_atom.specs.Match.{accepts_slot};
    ghost use Rattle.dep_atom.specs.Text.{slot_text, keeps_equals};

    pub(crate) fn accepts(&self, slot: &SlotName, subslot: &SlotName) -> bool
        ensures { result ≡ accepts_slot self.now slot.now subslot.now }
    {
        match self {
            SlotPart::Free | SlotPart::Star | SlotPart::Equals => true,
            SlotPart::Given {
                slot: written,
                subslot: sub,
                ..
            } => {
                written == slot
                    && match sub {
                        Some(sub) => sub == subslot,
                        None => true,
                    }
            }
        }
    }

    pub(crate) fn keeps_equals(&self) -> bool
        ensures { result ≡ keeps_equals self.now }
    {
        match self {
            SlotPart::Free | SlotPart::Star => false,
            SlotPart::Equals => true,
            SlotPart::Given { equals, .. } => *equals,
        }
    }

    pub(crate) fn try_clone(&self) -> Result<SlotPart, AllocError>
        ensures { IfOk result (λ slot. slot ≡ self.now) }
    {
        match self {
            SlotPart::Free => Ok(SlotPart::Free),
            SlotPart::Star => Ok(SlotPart::Star),
            SlotPart::Equals => Ok(SlotPart::Equals),
            SlotPart::Given {
                slot,
                subslot: None,
                equals,
            } => Ok(SlotPart::Given {
                slot: slot.try_clone()?,
                subslot: None,
                equals: *equals,
            }),
            SlotPart::Given {
                slot,
                subslot: Some(subslot),
                equals,
            } => Ok(SlotPart::Given {
                slot: slot.try_clone()?,
                subslot: Some(subslot.try_clone()?),
                equals: *equals,
            }),
        }
    }

    /// Writes the slot part of an atom behind the text.
    pub(crate) fn write(&self, text: &mut String) -> Result<(), AllocError>
        ensures { OnOk result (string_bytes text.new ≡
            string_bytes text.old ++ slot_text self.now) }
    {
        match self {
            SlotPart::Free => Ok(()),
            SlotPart::Star => text.push_str(":*"),
            SlotPart::Equals => text.push_str(":="),
            SlotPart::Given {
                slot,
                subslot,
                equals,
            } => {
                text.push_str(":")?;
                text.push_str(slot.text())?;
                if let Some(subslot) = subslot {
                    text.push_str("/")?;
                    text.push_str(subslot.text())?;
                }
                text.push_str(if *equals { "=" } else { "" })
            }
        }
    }
}
