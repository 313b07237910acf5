ghost use Rattle.std.specs.Prelude.{◌≡◌, ℕ, List};
ghost use Rattle.std.specs.Str.{IsUtf8};
ghost use Rattle.config_text.specs.AssignFaults.{FirstFault};
ghost use Rattle.config_text.specs.Assignments.{Says};
ghost use Rattle.config_text.specs.declared.assignment.Assignment.{Assignment};
ghost use Rattle.config_text.specs.declared.fault.TextFault.{TextFault};
ghost use Rattle.config_text.specs.declared.fault.TextFault.TheVariants.{Memory};

/// A law: a text says one list of assignments at most, and where it says one it has no fault but
/// want of memory.
pub fn one_reading()
    ensures one { (known : List Assignment) (bytes : List ℕ) (xs ys : List Assignment) →
        Says known bytes xs → Says known bytes ys → xs ≡ ys }
    ensures none { (known : List Assignment) (bytes : List ℕ) (xs : List Assignment)
        (fault : TextFault) → IsUtf8 bytes → Says known bytes xs → FirstFault bytes fault →
        fault ≡ Memory }
{}
