ghost use Rattle.std.specs.Prelude.{◌≡◌, ◌<◌, ◌^◌, ◌++◌, ◌∷◌, ℕ, List, Some, true, codes};
ghost use Rattle.std.specs.Prelude.{string_bytes, IfOk, MatchOption};
ghost use Rattle.file_tree.specs.Paths.{is_below, is_path};
ghost use Rattle.merge_journal.specs.Names.{IsPart, Part, digits, gate_path, named, part_path};
ghost use Rattle.file_tree.specs.Fixed.{jobs};
ghost use Rattle.merge_journal.specs.Names.{record_path, stage_path, token_path};

use byteorder::{BigEndian, ByteOrder};
use file_tree::{JOBS, Path};
use std::alloc::{AllocError, Global};

/// The number as eight hex digits in lower case.
#[tactic(auto, unfolding(crate::specs::Names::digits, merge_record::specs::Spelling::number_text))]
fn digits_of(alloc: Global, number: u32) -> Result<String, AllocError>
    ensures { IfOk result (λ t. string_bytes t ≡ digits number) }
{
    let mut bytes = [0u8; 4];
    BigEndian::write_u32(&mut bytes, number);
    hex::encode(alloc, bytes)
}

#[tactic(auto, unfolding(crate::specs::Names::named, crate::specs::Names::folder))]
fn named(alloc: Global, group: u32, name: &str) -> Result<Path, AllocError>
    requires { is_path (named group name.now) ≡ true }
    ensures { IfOk result (λ p. p ≡ named group name.now) }
{
    let mut text = String::from_str(alloc, JOBS)?;
    text.push_str("/")?;
    text.push_str(&digits_of(alloc, group)?)?;
    text.push_str("/")?;
    text.push_str(name)?;
    Path::of(alloc, &text)
}

fn stage_name(alloc: Global, index: u32) -> Result<String, AllocError>
    ensures { IfOk result (λ t. string_bytes t ≡ codes "stage/" ++ digits index) }
{
    let mut name = String::from_str(alloc, "stage/")?;
    name.push_str(&digits_of(alloc, index)?)?;
    Ok(name)
}

/// The folder of all groups' journals.
#[tactic(auto, unfolding(file_tree::specs::Paths::is_path))]
pub fn jobs_folder(alloc: Global) -> Result<Path, AllocError>
    ensures { IfOk result (λ p. p ≡ jobs) }
{
    Path::of(alloc, JOBS)
}

/// Where a group is open: it holds the one byte 1 then.
pub fn gate_path(alloc: Global, group: u32) -> Result<Path, AllocError>
    ensures { IfOk result (λ p. p ≡ gate_path group) }
{
    named(alloc, group, "gate")
}

/// The number that eight hex digits in lower case tell.
#[tactic(auto, unfolding(crate::specs::Names::digits, merge_record::specs::Spelling::number_text))]
fn number_in(text: &[u8]) -> Option<u32>
    ensures { (n : ℕ) → n < 2 ^ 32 → text.now ≡ digits n → result ≡ Some n }
{
    let mut bytes = [0u8; 4];
    match hex::decode_to_slice(text, &mut bytes) {
        Ok(()) => Some(BigEndian::read_u32(&bytes)),
        Err(_) => None,
    }
}

/// The group whose gate the path is, if it is one.
pub fn group_of_gate(alloc: Global, path: &Path) -> Result<Option<u32>, AllocError>
    ensures { IfOk result (λ found.
        MatchOption found ((g : ℕ) → g < 2 ^ 32 → ¬ (path.now ≡ gate_path g))
        (λ g. (g < 2 ^ 32) × (path.now ≡ gate_path g))) }
{
    let text = path.text().as_bytes();
    if text.len() < 29 {
        return Ok(None);
    }
    let Some(group) = number_in(&text[21..29]) else {
        return Ok(None);
    };
    let gate = gate_path(alloc, group)?;
    if gate == *path {
        return Ok(Some(group));
    }
    Ok(None)
}

/// Where the record of a group stands.
pub fn record_path(alloc: Global, group: u32) -> Result<Path, AllocError>
    ensures { IfOk result (λ p. p ≡ record_path group) }
{
    named(alloc, group, "record")
}

/// Where the one byte 1 stands with which the gate is opened.
pub fn token_path(alloc: Global, group: u32) -> Result<Path, AllocError>
    ensures { IfOk result (λ p. p ≡ token_path group) }
{
    named(alloc, group, "token")
}

/// Where the object of the placement with this index is staged.
pub fn stage_path(alloc: Global, group: u32, index: u32) -> Result<Path, AllocError>
    ensures { IfOk result (λ p. p ≡ stage_path group index) }
{
    let name = stage_name(alloc, index)?;
    named(alloc, group, &name)
}

/// The files of the journal: no two have one path, each has one, and it is below the folder of all groups.
pub fn names_differ()
    ensures apart { (g h : ℕ) (p q : Part) → g < 2 ^ 32 → h < 2 ^ 32 → IsPart p → IsPart q →
        part_path g p ≡ part_path h q → (g ≡ h) × (p ≡ q) }
    ensures paths { (g : ℕ) (p : Part) → is_path (part_path g p) ≡ true }
    ensures below { (g : ℕ) (p : Part) → is_below jobs (part_path g p) ≡ true }
{}
