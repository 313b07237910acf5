ghost use Rattle.std.specs.Prelude.{◌≡◌, ℕ, List};
ghost use Rattle.pms_names.specs.Names.{IsName};
ghost use Rattle.pms_names.specs.declared.kind.Kind.TheVariants.{Slot};
ghost use Rattle.pms_slot.specs.Slots.{IsSlotValue, slot_text};

/// A law: a text says one slot and one subslot, and what is printed says what it was printed from.
pub fn one_slot_value()
    ensures one { (t a b c d : List ℕ) → IsSlotValue t a b → IsSlotValue t c d → (a ≡ c) × (b ≡ d) }
    ensures printed { (a b : List ℕ) → IsName Slot a → IsName Slot b →
        IsSlotValue (slot_text a b) a b }
{}
