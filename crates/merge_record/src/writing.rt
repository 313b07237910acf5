ghost use Rattle.std.specs.Prelude.{◌≡◌, ◌⊎◌, ◌<◌, ◌^◌, ◌++◌, ◌≤◌, false, length, All, Any, IfErr};
ghost use Rattle.std.specs.Prelude.{IfOk, IsErrOf, IsTrue, OnOk};
ghost use Rattle.std.specs.List.{AllByRecursion, flat_map};
ghost use Rattle.merge_record.specs.Spelling.{IsSpellable, PassesLimit, byte_of, counted};
ghost use Rattle.file_tree.specs.Paths.{IsPathText};
ghost use Rattle.merge_record.specs.Spelling.{lead, number_text, path_text, placement_text};
ghost use Rattle.merge_record.specs.Spelling.{spelling};

use crate::fault::DecodeFault;
use crate::limits::{LEAD, MOST_FILE_BYTES, MOST_GROUP_PATHS, MOST_RECORD_BYTES};
use crate::reading::decode;
use crate::record::{Placement, Record};
use byteorder::{BigEndian, ByteOrder};
use file_tree::{Kind, Path};
use std::alloc::{AllocError, Global};

fn put_u16(out: &mut Vec<u8>, number: u16) -> Result<(), AllocError>
    ensures { OnOk result (out.new.items ≡ out.old.items ++ number_text 2 number) }
{
    let mut bytes = [0u8; 2];
    BigEndian::write_u16(&mut bytes, number);
    out.extend_from_slice(&bytes)
}

fn put_u32(out: &mut Vec<u8>, number: u32) -> Result<(), AllocError>
    ensures { OnOk result (out.new.items ≡ out.old.items ++ number_text 4 number) }
{
    let mut bytes = [0u8; 4];
    BigEndian::write_u32(&mut bytes, number);
    out.extend_from_slice(&bytes)
}

fn put_u64(out: &mut Vec<u8>, number: u64) -> Result<(), AllocError>
    ensures { OnOk result (out.new.items ≡ out.old.items ++ number_text 8 number) }
{
    let mut bytes = [0u8; 8];
    BigEndian::write_u64(&mut bytes, number);
    out.extend_from_slice(&bytes)
}

/// The byte that stands for a kind in a record: 0 for a plain file, 1 for an executable one, 2 for a
/// link.
pub fn byte_of(kind: Kind) -> u8
    ensures { result ≡ byte_of kind }
{
    match kind {
        Kind::Plain => 0,
        Kind::Exec => 1,
        Kind::Link => 2,
    }
}

#[tactic(auto, unfolding(crate::specs::Spelling::path_text))]
fn put_path(out: &mut Vec<u8>, path: &Path) -> Result<(), AllocError>
    ensures text { OnOk result (out.new.items ≡ out.old.items ++ path_text path.now) }
    ensures form { IsPathText path.now }
{
    let text = path.text();
    put_u16(out, text.len() as u16)?;
    out.extend_from_slice(text.as_bytes())
}

#[tactic(auto, unfolding(crate::specs::Spelling::placement_text))]
fn put_placement(out: &mut Vec<u8>, placement: &Placement) -> Result<(), AllocError>
    ensures text { OnOk result (out.new.items ≡ out.old.items ++ placement_text placement.now) }
    ensures form { OnOk result (IsPathText placement.now.path × (length placement.now.md5 ≡ 16)) }
{
    out.push(byte_of(placement.kind))?;
    put_u64(out, placement.length)?;
    out.extend_from_slice(&placement.md5)?;
    put_path(out, &placement.path)
}

fn put_paths(out: &mut Vec<u8>, paths: &[Path]) -> Result<(), AllocError>
    ensures text { OnOk result (out.new.items ≡ out.old.items ++ flat_map path_text paths.now) }
    ensures form { OnOk result (AllByRecursion IsPathText paths.now) }
{
    for path in paths {
        put_path(out, path)?;
    }
    Ok(())
}

fn put_placements(out: &mut Vec<u8>, placements: &[Placement]) -> Result<(), AllocError>
    ensures text { OnOk result (out.new.items ≡
        out.old.items ++ flat_map placement_text placements.now) }
    ensures form { OnOk result (AllByRecursion
        (λ p. IsPathText p.path × (length p.md5 ≡ 16)) placements.now) }
{
    for placement in placements {
        put_placement(out, placement)?;
    }
    Ok(())
}

/// The spelling, however large it is.
fn spelled(
    alloc: Global,
    group: u32,
    removals: &[Path],
    placements: &[Placement],
) -> Result<Vec<u8>, AllocError>
    requires removed { length removals.now < 2 ^ 32 }
    requires placed { length placements.now < 2 ^ 32 }
    ensures text { IfOk result (λ v. v.items ≡
        lead ++ (number_text 4 group ++ (counted path_text removals.now ++
        counted placement_text placements.now))) }
    ensures group { group < 2 ^ 32 }
    ensures removals { OnOk result (AllByRecursion IsPathText removals.now) }
    ensures placements { OnOk result (AllByRecursion
        (λ p. IsPathText p.path × (length p.md5 ≡ 16)) placements.now) }
{
    let mut out = Vec::new(alloc);
    out.extend_from_slice(&LEAD)?;
    put_u32(&mut out, group)?;
    put_u32(&mut out, removals.len() as u32)?;
    put_paths(&mut out, removals)?;
    put_u32(&mut out, placements.len() as u32)?;
    put_placements(&mut out, placements)?;
    Ok(out)
}

/// Whether some file is too long.
fn has_long(placements: &[Placement]) -> bool
    ensures some { IsTrue result → Any (λ p. MOST_FILE_BYTES < p.length) placements.now }
    ensures none { result ≡ false → All (λ p. p.length ≤ MOST_FILE_BYTES) placements.now }
{
    placements.iter().any(|p| p.length > MOST_FILE_BYTES)
}

/// The one spelling of the record. It is spelled before its size is known.
pub fn encode(alloc: Global, value: &Record) -> Result<Vec<u8>, DecodeFault>
    ensures ok { IfOk result (λ v. (v.items ≡ spelling value.now) × IsSpellable value.now) }
    ensures limit { IsErrOf result DecodeFault.Limit → PassesLimit value.now }
    ensures only { IfErr result (λ e. (e ≡ DecodeFault.Limit) ⊎ (e ≡ DecodeFault.Memory)) }
{
    let removals = value.removals.as_slice();
    let placements = value.placements.as_slice();
    if removals.len().saturating_add(placements.len()) > MOST_GROUP_PATHS {
        return Err(DecodeFault::Limit);
    }
    if has_long(placements) {
        return Err(DecodeFault::Limit);
    }
    let out = spelled(alloc, value.group, removals, placements)?;
    if out.len() > MOST_RECORD_BYTES {
        return Err(DecodeFault::Limit);
    }
    Ok(out)
}

/// A record that is spelled and read is the same record.
pub fn decode_encode(alloc: Global, value: &Record) -> Result<Record, DecodeFault>
    ensures same { IfOk result (λ r. r ≡ value.now) }
    ensures limit { IsErrOf result DecodeFault.Limit → PassesLimit value.now }
    ensures only { IfErr result (λ e. (e ≡ DecodeFault.Limit) ⊎ (e ≡ DecodeFault.Memory)) }
{
    let bytes = encode(alloc, value)?;
    decode(alloc, &bytes)
}
