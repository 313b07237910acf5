ghost use Rattle.std.specs.Prelude.{◌≡◌, ◌++◌, ◌↔◌, ◌∷◌, IfNone, IfSome, IsTrue, List, ℕ};
ghost use Rattle.pms_grammar.specs.Grammar.{IsVersion, IsVersionText, StopsAt, VersionValue};
ghost use Rattle.pms_grammar.specs.Grammar.{spelling};

use crate::place::Place;

/// Is the text a version's? Without limits on its length or on its numbers. It stops at the first
/// byte that none goes on with.
pub fn is_version(bytes: &[u8]) -> bool
    ensures { IsTrue result ↔ IsVersionText bytes.now }
{
    version_stop(bytes).is_none()
}

/// The place of the first byte with which the text stops beginning any version, or its length where
/// it only ends too early; `None` for a version's text.
pub fn version_stop(bytes: &[u8]) -> Option<usize>
    ensures version { IfNone result (IsVersionText bytes.now) }
    ensures stop { IfSome result (StopsAt bytes.now) }
{
    let mut place = Place::Number;
    for (at, byte) in bytes.iter().enumerate() {
        let next = place.next(*byte);
        if next.is_nowhere() {
            return Some(at);
        }
        place = next;
    }
    if place.may_end() {
        None
    } else {
        Some(bytes.len())
    }
}

/// A law: a version is spelled in one way.
pub fn one_spelling()
    ensures { (p q : VersionValue) → IsVersion p → IsVersion q → spelling p ≡ spelling q → p ≡ q }
{}

/// A law: what a name, a hyphen and a version make together comes apart in one way.
pub fn one_name_and_version()
    ensures { (p q v w : List ℕ) → IsVersionText v → IsVersionText w →
        p ++ (45 ∷ v) ≡ q ++ (45 ∷ w) → (p ≡ q) × (v ≡ w) }
{}
