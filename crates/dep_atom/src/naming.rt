ghost use Rattle.std.specs.Prelude.{◌≡◌, ◌<◌, length, slice_index, IsTrue, ◌↔◌, MatchOption};
ghost use Rattle.basics.specs.Bytes.{is_digit};
ghost use Rattle.pms_grammar.specs.Grammar.{IsVersionText, spelling};
ghost use Rattle.pms_version.specs.Limits.{IsReadable};
ghost use Rattle.pms_names.specs.Names.{IsName};
ghost use Rattle.dep_atom.specs.Form.{IsNameForm};
ghost use Rattle.dep_atom.specs.Naming.{BeginsNumber, HasNoCategory, IsInCategory, IsNameText};
ghost use Rattle.dep_atom.specs.Naming.{IsNameVersion, IsNumberAt, IsPackageVersion};
ghost use Rattle.dep_atom.specs.Naming.{IsReadableText};
ghost use Rattle.dep_atom.specs.Naming.{NameThen, PackageThen};
ghost use Rattle.dep_atom.specs.Promises.{FindsWhere};
ghost use Rattle.dep_atom.specs.Text.{name_text};

use crate::package::version_hyphen;
use crate::reading::{split_before, take_byte};
use basics::is_digit;
use pms_names::{Category, Name, NameFault, NameKind, NameOf, PackageName};
use pms_version::{Version, VersionFault};
use std::alloc::{AllocError, Global};

// The category with which the text begins, and what stands behind its slash.
fn split_category(text: &[u8]) -> Option<(&[u8], &[u8])>
    ensures { MatchOption result (HasNoCategory text.now)
        (λ r. IsInCategory text.now r.0.now r.1.now) }
{
    let (category, rest) = split_before(text, b'/', b'/');
    let Some(rest) = take_byte(rest, b'/') else {
        return None;
    };
    if Category::is_one(category) {
        Some((category, rest))
    } else {
        None
    }
}

// The whole text as a name of this kind, if it is one.
fn read_part<K: NameKind>(alloc: Global, text: &[u8]) -> Result<Option<NameOf<K>>, AllocError>
    ensures { FindsWhere (IsName K.kind text.now) (λ n. IsName K.kind n × (n ≡ text.now)) result }
{
    match NameOf::from_bytes(alloc, text) {
        Ok(name) => Ok(Some(name)),
        Err(NameFault::Memory) => Err(AllocError),
        Err(_) => Ok(None),
    }
}

fn read_version(alloc: Global, text: &[u8]) -> Result<Option<Version>, AllocError>
    ensures { FindsWhere (IsReadableText text.now)
        (λ v. IsReadable v × (text.now ≡ spelling v)) result }
{
    let Ok(text) = str::from_utf8(text) else {
        return Ok(None);
    };
    match Version::parse(alloc, text) {
        Ok(version) => Ok(Some(version)),
        Err(VersionFault::Memory) => Err(AllocError),
        Err(_) => Ok(None),
    }
}

/// The whole text as a category, a slash and a package's name.
pub(crate) fn read_name(alloc: Global, text: &[u8]) -> Result<Option<Name>, AllocError>
    ensures { FindsWhere (IsNameText text.now) (λ n. IsNameForm n ×
        (text.now ≡ name_text n)) result }
{
    let Some((category, package)) = split_category(text) else {
        return Ok(None);
    };
    let Some(category) = read_part(alloc, category)? else {
        return Ok(None);
    };
    let Some(package) = read_part(alloc, package)? else {
        return Ok(None);
    };
    Ok(Some(Name { category, package }))
}

/// The whole text as a package's name, a hyphen and a version.
pub(crate) fn read_package_version(
    alloc: Global,
    text: &[u8],
) -> Result<Option<(PackageName, Version)>, AllocError>
    ensures { FindsWhere (PackageThen IsReadableText text.now)
        (λ p. IsPackageVersion text.now p.0 p.1) result }
{
    let Some(at) = version_hyphen(text) else {
        return Ok(None);
    };
    let (package, _) = text.split_at(at);
    let (_, version) = text.split_at(at + 1);
    let Some(package) = read_part(alloc, package)? else {
        return Ok(None);
    };
    let Some(version) = read_version(alloc, version)? else {
        return Ok(None);
    };
    Ok(Some((package, version)))
}

/// The whole text as a name, a hyphen and a version.
pub(crate) fn read_name_version(
    alloc: Global,
    text: &[u8],
) -> Result<Option<(Name, Version)>, AllocError>
    ensures { FindsWhere (NameThen IsReadableText text.now)
        (λ p. IsNameVersion text.now p.0 p.1) result }
{
    let Some((category, rest)) = split_category(text) else {
        return Ok(None);
    };
    let Some(category) = read_part(alloc, category)? else {
        return Ok(None);
    };
    let Some((package, version)) = read_package_version(alloc, rest)? else {
        return Ok(None);
    };
    Ok(Some((Name { category, package }, version)))
}

/// Is the whole text a category, a slash and a package's name?
pub(crate) fn is_name(text: &[u8]) -> bool
    ensures { IsTrue result ↔ IsNameText text.now }
{
    match split_category(text) {
        Some((_, package)) => PackageName::is_one(package),
        None => false,
    }
}

/// Is the whole text a name, a hyphen and a version of any size?
pub(crate) fn is_name_version(text: &[u8]) -> bool
    ensures { IsTrue result ↔ NameThen IsVersionText text.now }
{
    match split_category(text) {
        Some((_, rest)) => is_package_version(rest),
        None => false,
    }
}

fn is_package_version(text: &[u8]) -> bool
    ensures { IsTrue result ↔ PackageThen IsVersionText text.now }
{
    match version_hyphen(text) {
        Some(at) => {
            let (package, _) = text.split_at(at);
            PackageName::is_one(package)
        }
        None => false,
    }
}

/// Does the text begin with a name, a hyphen and a digit?
pub(crate) fn begins_name_number(text: &[u8]) -> bool
    ensures { IsTrue result ↔ NameThen BeginsNumber text.now }
{
    match split_category(text) {
        Some((_, rest)) => begins_package_number(rest),
        None => false,
    }
}

/// Does the text begin with a package's name, a hyphen and a digit?
pub(crate) fn begins_package_number(text: &[u8]) -> bool
    ensures { IsTrue result ↔ PackageThen BeginsNumber text.now }
{
    for at in 0..text.len() {
        if is_number_at(text, at) {
            return true;
        }
    }
    false
}

// Does this byte stand as a hyphen between a package's name and a digit?
fn is_number_at(text: &[u8], at: usize) -> bool
    requires { at < length text.now }
    ensures { IsTrue result ↔ IsNumberAt text.now at }
{
    let (package, rest) = text.split_at(at);
    let (_, behind) = text.split_at(at + 1);
    rest[0] == b'-' && begins_number(behind) && PackageName::is_one(package)
}

fn begins_number(text: &[u8]) -> bool
    ensures { result ≡ is_digit (slice_index text.now 0) }
{
    match text {
        [first, ..] => is_digit(*first),
        [] => false,
    }
}
