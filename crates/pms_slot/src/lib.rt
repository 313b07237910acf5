//! The value of SLOT: a slot, and a subslot that is written where it differs.
//!
//! **A contract sees** the value as the bytes of its two names.
//!
//! **Proved**: a text is read exactly where it is such a value, no text says two slots or two
//! subslots, and what is printed says what it was printed from.
//!
//! **Only tested**: that with ample memory a value is read.
//!
//! ```
//! let value = SlotValue::read(alloc, b"0/2")?;
//! ```
#![tactic(auto)]

mod laws;
mod value;

pub use laws::one_slot_value;
pub use value::{SlotValue, WrittenSlot, print_slots};
