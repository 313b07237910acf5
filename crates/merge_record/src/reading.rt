ghost use Rattle.std.specs.Prelude.{◌≡◌, ◌&&◌, false, true, IfOk, MatchOption, Ok};
ghost use Rattle.std.specs.Str.{is_utf8};
ghost use Rattle.file_tree.specs.Paths.{is_path};
ghost use Rattle.merge_record.specs.RecordValue.{RecordValue};
ghost use Rattle.merge_record.specs.Spelling.{lead, IsSpellable, spelling};
ghost use Rattle.merge_record.specs.Reading.{Gives, byte_at, bytes_at, count_at, counted_at};
ghost use Rattle.merge_record.specs.Reading.{fields_at, kind_at, lead_at, many_at, number_at};
ghost use Rattle.merge_record.specs.Reading.{path_at, placement_at, record_of, size_at};

use crate::fault::DecodeFault;
use crate::limits::{LEAD, MOST_FILE_BYTES, MOST_GROUP_PATHS, MOST_RECORD_BYTES};
use crate::record::{Placement, Record};
use byteorder::{BigEndian, ByteOrder};
use file_tree::{Kind, Path, path_from};
use std::alloc::{AllocError, Global};

#[tactic(auto, unfolding(crate::specs::Reading::byte_at))]
fn after_byte(size: usize, want: u8, bytes: &[u8]) -> Result<&[u8], DecodeFault>
    ensures { Gives (λ x. x.now) result (byte_at size want bytes.now) }
{
    match bytes {
        [] => Err(DecodeFault::Short),
        [byte, rest @ ..] if *byte == want => Ok(rest),
        [_, ..] => Err(DecodeFault::Tag {
            at: size.saturating_sub(bytes.len()),
        }),
    }
}

#[tactic(auto, unfolding(crate::specs::Reading::lead_at))]
fn after_lead(size: usize, bytes: &[u8]) -> Result<&[u8], DecodeFault>
    ensures { Gives (λ x. x.now) result (lead_at size lead bytes.now) }
{
    let rest = after_byte(size, LEAD[0], bytes)?;
    let rest = after_byte(size, LEAD[1], rest)?;
    let rest = after_byte(size, LEAD[2], rest)?;
    let rest = after_byte(size, LEAD[3], rest)?;
    after_byte(size, LEAD[4], rest)
}

#[tactic(auto, unfolding(crate::specs::Reading::number_at))]
fn u16_of(bytes: &[u8]) -> Result<(u16, &[u8]), DecodeFault>
    ensures { Gives (λ x. (x.0, x.1.now)) result (number_at 2 bytes.now) }
{
    if bytes.len() < 2 {
        return Err(DecodeFault::Short);
    }
    Ok((BigEndian::read_u16(bytes), &bytes[2..]))
}

#[tactic(auto, unfolding(crate::specs::Reading::number_at))]
fn u32_of(bytes: &[u8]) -> Result<(u32, &[u8]), DecodeFault>
    ensures { Gives (λ x. (x.0, x.1.now)) result (number_at 4 bytes.now) }
{
    if bytes.len() < 4 {
        return Err(DecodeFault::Short);
    }
    Ok((BigEndian::read_u32(bytes), &bytes[4..]))
}

#[tactic(auto, unfolding(crate::specs::Reading::number_at))]
fn u64_of(bytes: &[u8]) -> Result<(u64, &[u8]), DecodeFault>
    ensures { Gives (λ x. (x.0, x.1.now)) result (number_at 8 bytes.now) }
{
    if bytes.len() < 8 {
        return Err(DecodeFault::Short);
    }
    Ok((BigEndian::read_u64(bytes), &bytes[8..]))
}

#[tactic(auto, unfolding(crate::specs::Reading::bytes_at))]
fn bytes_of(count: usize, bytes: &[u8]) -> Result<(&[u8], &[u8]), DecodeFault>
    ensures { Gives (λ x. (x.0.now, x.1.now)) result (bytes_at count bytes.now) }
{
    if bytes.len() < count {
        return Err(DecodeFault::Short);
    }
    Ok(bytes.split_at(count))
}

#[tactic(auto, unfolding(crate::specs::Reading::bytes_at))]
fn digest_of(bytes: &[u8]) -> Result<([u8; 16], &[u8]), DecodeFault>
    ensures { Gives (λ x. (x.0, x.1.now)) result (bytes_at 16 bytes.now) }
{
    if bytes.len() < 16 {
        return Err(DecodeFault::Short);
    }
    let (front, rest) = bytes.split_at(16);
    let mut digest = [0u8; 16];
    digest.copy_from_slice(front);
    Ok((digest, rest))
}

#[tactic(auto, unfolding(crate::specs::Reading::count_at))]
fn count_of(before: usize, bytes: &[u8]) -> Result<(u32, &[u8]), DecodeFault>
    ensures { Gives (λ x. (x.0, x.1.now)) result (count_at before bytes.now) }
{
    let (count, rest) = u32_of(bytes)?;
    if before.saturating_add(count as usize) > MOST_GROUP_PATHS {
        return Err(DecodeFault::Limit);
    }
    Ok((count, rest))
}

#[tactic(auto, unfolding(crate::specs::Reading::size_at))]
fn size_of(bytes: &[u8]) -> Result<(u64, &[u8]), DecodeFault>
    ensures { Gives (λ x. (x.0, x.1.now)) result (size_at bytes.now) }
{
    let (size, rest) = u64_of(bytes)?;
    if size > MOST_FILE_BYTES {
        return Err(DecodeFault::Limit);
    }
    Ok((size, rest))
}

#[tactic(auto, unfolding(crate::specs::Reading::kind_at))]
fn kind_of(size: usize, bytes: &[u8]) -> Result<(Kind, &[u8]), DecodeFault>
    ensures { Gives (λ x. (x.0, x.1.now)) result (kind_at size bytes.now) }
{
    match bytes {
        [] => Err(DecodeFault::Short),
        [0, rest @ ..] => Ok((Kind::Plain, rest)),
        [1, rest @ ..] => Ok((Kind::Exec, rest)),
        [2, rest @ ..] => Ok((Kind::Link, rest)),
        [_, ..] => Err(DecodeFault::Tag {
            at: size.saturating_sub(bytes.len()),
        }),
    }
}

#[tactic(auto, unfolding(crate::specs::Reading::path_at))]
fn path_of(alloc: Global, size: usize, bytes: &[u8]) -> Result<(Path, &[u8]), DecodeFault>
    ensures { Gives (λ x. (x.0, x.1.now)) result (path_at size bytes.now) }
{
    let (count, body) = u16_of(bytes)?;
    let (text, rest) = bytes_of(usize::from(count), body)?;
    match path_from(alloc, text)? {
        Some(path) => Ok((path, rest)),
        None => Err(DecodeFault::Path {
            at: size.saturating_sub(body.len()),
        }),
    }
}

#[tactic(auto, unfolding(crate::specs::Reading::placement_at))]
fn placement_of(alloc: Global, size: usize, bytes: &[u8]) -> Result<(Placement, &[u8]), DecodeFault>
    ensures { Gives (λ x. (x.0, x.1.now)) result (placement_at size bytes.now) }
{
    let (kind, rest) = kind_of(size, bytes)?;
    let (length, rest) = size_of(rest)?;
    let (md5, rest) = digest_of(rest)?;
    let (path, rest) = path_of(alloc, size, rest)?;
    let placement = Placement {
        path,
        kind,
        length,
        md5,
    };
    Ok((placement, rest))
}

fn paths_of(
    alloc: Global,
    size: usize,
    count: u32,
    bytes: &[u8],
) -> Result<(Vec<Path>, &[u8]), DecodeFault>
    ensures { Gives (λ x. (x.0.items, x.1.now)) result (many_at (path_at size) count bytes.now) }
{
    let mut paths = Vec::new(alloc);
    let mut rest = bytes;
    for _ in 0..count {
        let (path, after) = path_of(alloc, size, rest)?;
        paths.push(path)?;
        rest = after;
    }
    Ok((paths, rest))
}

fn placements_of(
    alloc: Global,
    size: usize,
    count: u32,
    bytes: &[u8],
) -> Result<(Vec<Placement>, &[u8]), DecodeFault>
    ensures { Gives (λ x. (x.0.items, x.1.now)) result
        (many_at (placement_at size) count bytes.now) }
{
    let mut placements = Vec::new(alloc);
    let mut rest = bytes;
    for _ in 0..count {
        let (placement, after) = placement_of(alloc, size, rest)?;
        placements.push(placement)?;
        rest = after;
    }
    Ok((placements, rest))
}

#[tactic(auto, unfolding(crate::specs::Reading::counted_at))]
fn removals_of(alloc: Global, size: usize, bytes: &[u8]) -> Result<(Vec<Path>, &[u8]), DecodeFault>
    ensures { Gives (λ x. (x.0.items, x.1.now)) result (counted_at 0 (path_at size) bytes.now) }
{
    let (count, rest) = count_of(0, bytes)?;
    paths_of(alloc, size, count, rest)
}

#[tactic(auto, unfolding(crate::specs::Reading::counted_at))]
fn placed_of(
    alloc: Global,
    size: usize,
    before: usize,
    bytes: &[u8],
) -> Result<(Vec<Placement>, &[u8]), DecodeFault>
    ensures { Gives (λ x. (x.0.items, x.1.now)) result
        (counted_at before (placement_at size) bytes.now) }
{
    let (count, rest) = count_of(before, bytes)?;
    placements_of(alloc, size, count, rest)
}

#[tactic(auto, unfolding(crate::specs::Reading::fields_at))]
fn fields_of(alloc: Global, size: usize, bytes: &[u8]) -> Result<(Record, &[u8]), DecodeFault>
    ensures { Gives (λ x. (x.0, x.1.now)) result (fields_at size bytes.now) }
{
    let rest = after_lead(size, bytes)?;
    let (group, rest) = u32_of(rest)?;
    let (removals, rest) = removals_of(alloc, size, rest)?;
    let (placements, rest) = placed_of(alloc, size, removals.len(), rest)?;
    let read = Record {
        group,
        removals,
        placements,
    };
    Ok((read, rest))
}

#[tactic(auto, unfolding(crate::specs::Reading::record_of))]
fn whole(alloc: Global, bytes: &[u8]) -> Result<Record, DecodeFault>
    ensures { Gives (λ r. r) result (record_of bytes.now) }
{
    if bytes.len() > MOST_RECORD_BYTES {
        return Err(DecodeFault::Limit);
    }
    let (read, rest) = fields_of(alloc, bytes.len(), bytes)?;
    if !rest.is_empty() {
        return Err(DecodeFault::Trailing);
    }
    Ok(read)
}

/// The record that the bytes spell, all of the bytes.
pub fn decode(alloc: Global, bytes: &[u8]) -> Result<Record, DecodeFault>
    // What is read is spelled so.
    ensures found { IfOk result (λ r. IsSpellable r × (bytes.now ≡ spelling r)) }
    // What is spelled so is read, unless memory runs out.
    ensures only { (r : RecordValue) → IsSpellable r → bytes.now ≡ spelling r →
        Gives (λ x. x) result (Ok r) }
    // Which fault it is.
    ensures fault { Gives (λ r. r) result (record_of bytes.now) }
{
    whole(alloc, bytes)
}
