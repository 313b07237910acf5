use dep_atom::Facts;
use pms_names::Flag;
use std::alloc::{AllocError, Global};

/// The flags that a package which comes has otherwise than the one in its place, or that are on where
/// there is none: each behind a space, with a plus where it is on and a hyphen where it is off.
pub(crate) fn changed_flags(
    alloc: Global,
    facts: &Facts,
    before: Option<&Facts>,
) -> Result<String, AllocError> {
    let mut text = String::new(alloc);
    for flag in facts.iuse.list() {
        let is_on = facts.enabled.has(flag);
        if is_on != was_on(before, flag) {
            text.push_str(if is_on { " +" } else { " -" })?;
            text.push_str(flag.text())?;
        }
    }
    Ok(text)
}

fn was_on(before: Option<&Facts>, flag: &Flag) -> bool {
    match before {
        Some(there) => there.enabled.has(flag),
        None => false,
    }
}
