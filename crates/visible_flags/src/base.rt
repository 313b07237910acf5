ghost use Rattle.std.specs.Prelude.{◌≡◌, ℕ, IfOk, List};
ghost use Rattle.pms_names.specs.Flags.{has};
ghost use Rattle.use_flags.specs.Changes.{changed, has_after};
ghost use Rattle.visible_flags.specs.Settings.{after_layers, is_base, is_set};

use pms_names::{Flag, Flags};
use std::alloc::AllocError;
use use_flags::Change;

/// What the configuration says of the flags of one candidate.
#[derive(Clone, Copy, Debug)]
pub struct FlagRules<'a> {
    /// Changes of what is on by default, layer by layer in their order.
    pub layers: &'a [&'a [Change]],
    pub forced: &'a Flags,
    pub masked: &'a Flags,
    /// The flags that are on for every package.
    pub implicit: &'a Flags,
}

/// The flags that are on where nobody chooses otherwise, of a candidate that knows these flags and
/// has those on by default. A flag that is forced and masked is off.
pub fn base_flags(known: &Flags, on: &Flags, rules: &FlagRules) -> Result<Flags, AllocError>
    ensures { IfOk result (λ set. (flag : List ℕ) →
        has set flag ≡ is_base rules.now known.now on.now flag) }
{
    let mut flags = rules.implicit.try_clone()?;
    for flag in known.list() {
        if is_set(rules, on, flag) {
            let _ = flags.insert(flag.try_clone()?)?;
        }
    }
    Ok(flags)
}

fn is_set(rules: &FlagRules, on: &Flags, flag: &Flag) -> bool
    ensures { result ≡ is_set rules.now on.now flag.now }
{
    !rules.masked.has(flag)
        && (rules.forced.has(flag) || after_layers(rules.layers, flag, on.has(flag)))
}

fn after_layers(layers: &[&[Change]], flag: &Flag, on: bool) -> bool
    ensures { result ≡ after_layers layers.now flag.now on }
{
    let mut on = on;
    for layer in layers {
        on = after_changes(layer, flag, on);
    }
    on
}

fn after_changes(changes: &[Change], flag: &Flag, on: bool) -> bool
    ensures { result ≡ has_after changes.now flag.now on }
{
    let mut on = on;
    for change in changes {
        on = changed(change, flag, on);
    }
    on
}

fn changed(change: &Change, flag: &Flag, on: bool) -> bool
    ensures { result ≡ changed flag.now on change.now }
{
    match change {
        Change::Add(added) => flag == added || on,
        Change::Take(taken) => flag != taken && on,
        Change::Clear => false,
    }
}
