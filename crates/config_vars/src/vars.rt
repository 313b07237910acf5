ghost use Rattle.std.specs.Prelude.{◌≡◌, ◌∷◌, []};
ghost use Rattle.std.specs.Option.{option_map};
ghost use Rattle.config_vars.specs.Values.{is_of, last_value, value_in};

use config_text::Assignment;
use file_tree::Path;

/// What a file of the configuration, such as make.conf, assigns to variables.
#[derive(Debug, Drop)]
pub struct FileVars {
    pub path: Path,
    /// In the order of the file.
    pub assigned: Vec<Assignment>,
}

/// The value that these assignments of a file give the variable, if one does: that of the last.
pub fn value_in<'a>(assigned: &'a [Assignment], key: &str) -> Option<&'a str>
    ensures { option_map (λ v. v.now) result ≡ value_in key.now assigned.now }
{
    let mut value = None;
    for assignment in assigned {
        value = value_of(assignment, key).or(value);
    }
    value
}

/// The value of the assignment, where it is one of the variable.
fn value_of<'a>(assignment: &'a Assignment, key: &str) -> Option<&'a str>
    ensures { option_map (λ v. v.now) result ≡ value_in key.now (assignment.now ∷ []) }
{
    if is_of(assignment, key) {
        Some(assignment.value.as_str())
    } else {
        None
    }
}

/// Whether the assignment is one of the variable.
pub(crate) fn is_of(assignment: &Assignment, key: &str) -> bool
    ensures { result ≡ is_of key.now assignment.now }
{
    assignment.key.as_str() == key
}

/// The value of a variable that each file replaces, such as ARCH: that of the last of these files, in
/// the order in which they are read, that sets it.
pub fn last_value<'a>(files: &'a [FileVars], key: &str) -> Option<&'a str>
    ensures { option_map (λ v. v.now) result ≡ last_value key.now files.now }
{
    let mut value = None;
    for file in files {
        value = value_in(&file.assigned, key).or(value);
    }
    value
}
