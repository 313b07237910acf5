//! The journal's records, their names and digests.

use ask_lines::{
    bytes_of, cut, kind_of, letter_of, not_in_form, number_of, path_of, push_hex, small_number_of,
};
use file_tree::Path;
use merge_journal::{gate_path, jobs_folder, record_path, stage_path, token_path};
use merge_record::{DecodeFault, Placement, Record, decode, decode_encode, digest_of, encode};
use std::alloc::{AllocError, Global};
use std::io;

/// The digest of bytes.
pub fn digest(alloc: Global, field: &str) -> io::Result<String> {
    let mut text = String::new(alloc);
    push_hex(&mut text, &digest_of(&bytes_of(alloc, field)?))?;
    Ok(text)
}

/// A path of the journal.
pub fn name(alloc: Global, fields: &str) -> io::Result<String> {
    let (name, rest) = cut(fields, '\t');
    let (group, index) = cut(rest, '\t');
    let group = small_number_of(group)?;
    let index = small_number_of(index)?;
    let path = named(alloc, name, group, index)?;
    Ok(String::from_str(alloc, path.text())?)
}

fn named(alloc: Global, name: &str, group: u32, index: u32) -> Result<Path, AllocError> {
    match name {
        "gate" => gate_path(alloc, group),
        "record" => record_path(alloc, group),
        "token" => token_path(alloc, group),
        "stage" => stage_path(alloc, group, index),
        _ => jobs_folder(alloc),
    }
}

/// The record that bytes spell, or the first fault.
pub fn decoded(alloc: Global, field: &str) -> io::Result<String> {
    let bytes = bytes_of(alloc, field)?;
    Ok(told(alloc, decode(alloc, &bytes))?)
}

/// The bytes of a record.
pub fn encoded(alloc: Global, fields: &str) -> io::Result<String> {
    let record = record_of(alloc, fields)?;
    let mut text = String::new(alloc);
    match encode(alloc, &record) {
        Ok(bytes) => push_hex(&mut text, &bytes)?,
        Err(_) => text.push_str("refused")?,
    }
    Ok(text)
}

/// What is read of the bytes of a record.
pub fn recoded(alloc: Global, fields: &str) -> io::Result<String> {
    let record = record_of(alloc, fields)?;
    Ok(told(alloc, decode_encode(alloc, &record))?)
}

/// The record that these fields tell.
fn record_of(alloc: Global, fields: &str) -> io::Result<Record> {
    let (group, rest) = cut(fields, '\t');
    let removals = removals_of(alloc, rest)?;
    let placements = placements_of(alloc, rest)?;
    Ok(Record {
        group: small_number_of(group)?,
        removals,
        placements,
    })
}

fn removals_of(alloc: Global, fields: &str) -> io::Result<Vec<Path>> {
    let mut removals = Vec::new(alloc);
    for field in fields.split('\t') {
        if let ("remove", path) = cut(field, ' ') {
            removals.push(path_of(alloc, path)?)?;
        }
    }
    Ok(removals)
}

fn placements_of(alloc: Global, fields: &str) -> io::Result<Vec<Placement>> {
    let mut placements = Vec::new(alloc);
    for field in fields.split('\t') {
        if let ("place", rest) = cut(field, ' ') {
            placements.push(placement_of(alloc, rest)?)?;
        }
    }
    Ok(placements)
}

fn placement_of(alloc: Global, text: &str) -> io::Result<Placement> {
    let (kind, rest) = cut(text, ' ');
    let (length, rest) = cut(rest, ' ');
    let (md5, path) = cut(rest, ' ');
    let kind = kind_of(kind)?;
    let length = number_of(length)?;
    Ok(Placement {
        path: path_of(alloc, path)?,
        kind,
        length,
        md5: md5_of(md5)?,
    })
}

fn md5_of(text: &str) -> io::Result<[u8; 16]> {
    let mut md5 = [0u8; 16];
    match hex::decode_to_slice(text, &mut md5) {
        Ok(()) => Ok(md5),
        Err(_) => Err(not_in_form()),
    }
}

fn told(alloc: Global, read: Result<Record, DecodeFault>) -> Result<String, AllocError> {
    match read {
        Ok(record) => told_record(alloc, &record),
        Err(DecodeFault::Short) => String::from_str(alloc, "short"),
        Err(DecodeFault::Tag { at }) => format!(in alloc; "tag {at}"),
        Err(DecodeFault::Path { at }) => format!(in alloc; "path {at}"),
        Err(DecodeFault::Trailing) => String::from_str(alloc, "trailing"),
        Err(DecodeFault::Limit) => String::from_str(alloc, "limit"),
        Err(DecodeFault::Memory) => Err(AllocError),
    }
}

fn told_record(alloc: Global, record: &Record) -> Result<String, AllocError> {
    let mut text = format!(in alloc; "{}", record.group)?;
    for path in &record.removals {
        text.push_str("\tremove ")?;
        text.push_str(path.text())?;
    }
    for placement in &record.placements {
        text.push_str("\tplace ")?;
        push_placement(&mut text, placement)?;
    }
    Ok(text)
}

fn push_placement(text: &mut String, placement: &Placement) -> Result<(), AllocError> {
    let letter = letter_of(placement.kind);
    write!(text, "{letter} {} ", placement.length)?;
    push_hex(text, &placement.md5)?;
    text.push(' ')?;
    text.push_str(placement.path.text())
}
