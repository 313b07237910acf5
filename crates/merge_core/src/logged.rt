ghost use Rattle.std.specs.Prelude.{List};
ghost use Rattle.merge_core.specs.Trail.{Entry};

/// A value that keeps its history: what shares such values between threads need know nothing else
/// of them.
pub trait Logged {
    /// The events so far, each with whether its device answered Ok.
    ghost log: { Self → List Entry };

    /// Two values have all that no event changes in common.
    ghost same: { Self → Self → Type 0 };
}
