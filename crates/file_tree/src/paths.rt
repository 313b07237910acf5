ghost use Rattle.std.specs.Prelude.{◌≡◌, ◌≤◌, ◌==◌, ◌&&◌, ◌||◌, drop, false, length, true};
ghost use Rattle.std.specs.Prelude.{IfOk, MatchOption, slice_index, nat_eq};
ghost use Rattle.std.specs.List.{starts_with};
ghost use Rattle.std.specs.Str.{is_utf8};
ghost use Rattle.file_tree.specs.Paths.{FaultAt, FirstFault, bad_at, begins_badly, first_part};
ghost use Rattle.file_tree.specs.Paths.{is_bad_part, is_below, is_path};

use crate::fault::PathFault;
use crate::limits::MOST_PATH_BYTES;
use basics::Text;
use std::alloc::{AllocError, Global};
use std::marker::Model;
use std::str::from_utf8;

/// A place in a tree: a relative path with `/` between its parts, none of which is empty, `.` or
/// `..`. It has at most 4,095 bytes and no newline, no NUL byte and no ` ->`.
#[derive(Debug, PartialEq, Eq, PartialOrd, Ord, Drop)]
pub struct Path {
    text: Text,
}

impl Model for Path {
    ghost use Rattle.std.specs.Prelude.{◌≡◌, List, true, ℕ};
    ghost use Rattle.file_tree.specs.Paths.{is_path};

    ghost Value = { List ℕ };

    ghost view = { λ p. p.text };

    ghost invariant = { λ p. is_path p.text ≡ true };

    ghost inverse = { λ v. record { text = v } };
}

/// Whether the second of two texts of paths is strictly below the first.
pub fn is_below(top: &[u8], path: &[u8]) -> bool
    ensures { result ≡ is_below top.now path.now }
{
    path.len() > top.len() && path.starts_with(top) && path[top.len()] == b'/'
}

impl Path {
    ghost use Rattle.std.specs.Prelude.{◌≡◌, ◌≢◌, ◌<◌, ◌++◌, ◌∷◌, true, List, ℕ, IfErr, IfOk};
    ghost use Rattle.std.specs.Prelude.{MatchOption, length, slice_index, take};
    ghost use Rattle.file_tree.specs.Paths.{FirstFault, is_below, is_path};
    ghost use Rattle.file_tree.specs.declared.fault.PathFault.TheVariants as faults;

    /// Reads a path. The faults are tried in the order Empty, TooLong, and then the first place at
    /// which a part or a byte is bad.
    pub fn parse(alloc: Global, text: &str) -> Result<Path, PathFault>
        ensures found { IfOk result (λ p. (p ≡ text.now) × (is_path text.now ≡ true)) }
        ensures refused { is_path text.now ≡ true → IfErr result (λ e. e ≡ faults.Memory) }
        ensures fault { IfErr result (FirstFault text.now) }
    {
        match first_fault(text.as_bytes()) {
            Some(fault) => Err(fault),
            None => match Text::new(alloc, text) {
                Ok(text) => Ok(Path { text }),
                Err(_) => Err(PathFault::Memory),
            },
        }
    }

    /// The path of a text that is known to be one, as that of a fixed place.
    pub fn of(alloc: Global, text: &str) -> Result<Path, AllocError>
        requires { is_path text.now ≡ true }
        ensures { IfOk result (λ p. p ≡ text.now) }
    {
        let text = Text::new(alloc, text)?;
        Ok(Path { text })
    }

    /// Whether the other path is strictly below this one.
    pub fn is_above(&self, other: &Path) -> bool
        ensures { result ≡ is_below self.now other.now }
    {
        is_below(self.text().as_bytes(), other.text().as_bytes())
    }

    /// What stands behind a folder in the text of a path below it.
    pub fn behind(&self, folder: &str) -> Option<&str>
        ensures { MatchOption result ((rest : List ℕ) → self.now ≢ folder.now ++ 47 ∷ rest)
            (λ rest. self.now ≡ folder.now ++ 47 ∷ rest.now) }
    {
        let rest = self.text().strip_prefix(folder)?;
        rest.strip_prefix('/')
    }

    /// What stands before a place of the path, where a slash stands there. It is a path again.
    pub fn above(&self, alloc: Global, at: usize) -> Result<Option<Path>, AllocError>
        requires { at < length self.now }
        ensures { IfOk result (λ r. MatchOption r (slice_index self.now at ≢ 47)
            (λ p. (slice_index self.now at ≡ 47) × (p ≡ take at self.now))) }
    {
        let text = self.text();
        if text.as_bytes()[at] != b'/' {
            return Ok(None);
        }
        let Some(front) = text.get(..at) else {
            return Err(AllocError);
        };
        Ok(Some(Path::of(alloc, front)?))
    }

    pub fn text(&self) -> &str
        ensures text { result.now ≡ self.now }
        ensures form { is_path self.now ≡ true }
    {
        self.text.as_str()
    }

    pub fn try_clone(&self) -> Result<Path, AllocError>
        ensures { IfOk result (λ p. p ≡ self.now) }
    {
        let text = self.text.try_clone()?;
        Ok(Path { text })
    }
}

/// The path that the bytes spell, if they spell one.
pub fn path_from(alloc: Global, text: &[u8]) -> Result<Option<Path>, AllocError>
    ensures { IfOk result (λ found.
        MatchOption found (is_utf8 text.now && is_path text.now ≡ false)
        (λ p. (p ≡ text.now) × (is_utf8 text.now && is_path text.now ≡ true))) }
{
    let Ok(text) = from_utf8(text) else {
        return Ok(None);
    };
    match Path::parse(alloc, text) {
        Ok(path) => Ok(Some(path)),
        Err(PathFault::Memory) => Err(AllocError),
        Err(_) => Ok(None),
    }
}

/// The first fault of a text, if it is no path. Want of memory is none.
fn first_fault(bytes: &[u8]) -> Option<PathFault>
    ensures { MatchOption result (is_path bytes.now ≡ true)
        (λ f. (is_path bytes.now ≡ false) × FirstFault bytes.now f) }
{
    if bytes.is_empty() {
        return Some(PathFault::Empty);
    }
    if bytes.len() > MOST_PATH_BYTES {
        return Some(PathFault::TooLong);
    }
    first_bad_place(bytes)
}

fn first_bad_place(bytes: &[u8]) -> Option<PathFault>
    requires some { 1 ≤ length bytes.now }
    requires short { length bytes.now ≤ MOST_PATH_BYTES }
    ensures { MatchOption result (is_path bytes.now ≡ true)
        (λ f. (is_path bytes.now ≡ false) × FirstFault bytes.now f) }
{
    for at in 0..bytes.len() {
        if let Some(fault) = fault_at(bytes, at) {
            return Some(fault);
        }
    }
    fault_at(bytes, bytes.len())
}

fn fault_at(bytes: &[u8], at: usize) -> Option<PathFault>
    requires { at ≤ length bytes.now }
    ensures { MatchOption result (bad_at bytes.now at ≡ false) (FaultAt bytes.now at) }
{
    let rest = &bytes[at..];
    if (at == 0 || bytes[at - 1] == b'/') && begins_bad_part(rest) {
        return Some(PathFault::BadPart { at });
    }
    if begins_bad_char(rest) {
        return Some(PathFault::BadChar { at });
    }
    None
}

/// Whether the part with which the text begins is empty, `.` or `..`.
fn begins_bad_part(rest: &[u8]) -> bool
    ensures { result ≡ is_bad_part (first_part rest.now) }
{
    ends_part(rest, 0)
        || rest[0] == b'.' && (ends_part(rest, 1) || rest[1] == b'.' && ends_part(rest, 2))
}

/// Whether no part goes on at this place.
fn ends_part(rest: &[u8], at: usize) -> bool
    requires { at ≤ length rest.now }
    ensures { result ≡ ((at == length rest.now) || (slice_index rest.now at == 47)) }
{
    at == rest.len() || rest[at] == b'/'
}

/// Whether a byte that no path has, or ` ->`, stands first.
fn begins_bad_char(rest: &[u8]) -> bool
    ensures { result ≡ begins_badly rest.now }
{
    rest.starts_with(b"\n") || rest.starts_with(b"\0") || rest.starts_with(b" ->")
}
