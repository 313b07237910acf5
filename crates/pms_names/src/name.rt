ghost use Rattle.std.specs.Prelude.{◌≡◌, ◌≢◌, ◌↔◌, IfOk, IfErr, OnOk, IfNone, IfSome, IsTrue};
ghost use Rattle.std.specs.Prelude.{MatchOption};
ghost use Rattle.pms_names.specs.Bytes.{is_name_byte, may_contain, begins_badly};
ghost use Rattle.pms_names.specs.Names.{AreNameBytes, IsFirstBadByte, IsName, EndsInVersion};
ghost use Rattle.pms_names.specs.Names.{FirstFault};
ghost use Rattle.pms_names.specs.declared.fault.NameFault.TheVariants.{Memory};

use crate::fault::NameFault;
use crate::kind::{Kind, NameKind, OfCategory, OfFlag, OfPackage, OfSlot};
use crate::limits::MOST_BYTES;
use basics::Text;
use std::alloc::{AllocError, Global};
use std::marker::{Model, PhantomData};

/// A name of the kind that `K` marks. It is equal and ordered as its bytes are.
#[derive(Debug, Drop, PartialEq, Eq, PartialOrd, Ord)]
pub struct NameOf<K: NameKind> {
    text: Text,
    marker: PhantomData<K>,
}

/// The name of a category, such as `dev-libs`.
pub type Category = NameOf<OfCategory>;

/// The name of a package within its category, such as `icu`.
pub type PackageName = NameOf<OfPackage>;

/// The name of a slot or a subslot, such as `0`.
pub type SlotName = NameOf<OfSlot>;

/// The name of a USE flag, such as `doc`.
pub type Flag = NameOf<OfFlag>;

impl<K: NameKind> Model for NameOf<K> {
    ghost use Rattle.std.specs.Prelude.{List, ℕ};

    ghost Value = { List ℕ };

    ghost use Rattle.pms_names.specs.Names.{IsName};

    ghost view = { λ n. n.text };

    ghost invariant = { λ n. IsName K.kind n.text };

    ghost inverse = { λ bytes. record { text = bytes; marker = record {} } };
}

impl<K: NameKind> NameOf<K> {
    /// Reads the whole text as one name.
    pub fn parse(alloc: Global, text: &str) -> Result<NameOf<K>, NameFault>
        ensures found { IfOk result (λ n. n ≡ text.now) }
        ensures name { OnOk result (IsName K.kind text.now) }
        ensures only { IsName K.kind text.now → IfErr result (λ e. e ≡ Memory) }
        ensures fault { IfErr result (FirstFault K.kind text.now) }
    {
        NameOf::from_bytes(alloc, text.as_bytes())
    }

    /// Reads all the bytes as one name, as [`NameOf::parse`] does; a name is ASCII.
    pub fn from_bytes(alloc: Global, bytes: &[u8]) -> Result<NameOf<K>, NameFault>
        ensures found { IfOk result (λ n. n ≡ bytes.now) }
        ensures name { OnOk result (IsName K.kind bytes.now) }
        ensures only { IsName K.kind bytes.now → IfErr result (λ e. e ≡ Memory) }
        ensures fault { IfErr result (FirstFault K.kind bytes.now) }
    {
        if let Some(fault) = fault_of(K::kind(), bytes) {
            return Err(fault);
        }
        let Ok(text) = str::from_utf8(bytes) else {
            unreachable!()
        };
        let text = Text::new(alloc, text)?;
        Ok(NameOf {
            text,
            marker: PhantomData,
        })
    }

    /// Are all the bytes one name? It takes no memory.
    pub fn is_one(bytes: &[u8]) -> bool
        ensures { IsTrue result ↔ IsName K.kind bytes.now }
    {
        fault_of(K::kind(), bytes).is_none()
    }

    pub fn text(&self) -> &str
        ensures text { result.now ≡ self.now }
        ensures name { IsName K.kind self.now }
    {
        self.text.as_str()
    }

    pub fn try_clone(&self) -> Result<NameOf<K>, AllocError>
        ensures { IfOk result (λ n. n ≡ self.now) }
    {
        let text = self.text.try_clone()?;
        Ok(NameOf {
            text,
            marker: PhantomData,
        })
    }
}

impl<K: NameKind> Clone for NameOf<K> {
    ghost is_clone = { λ name copy. copy ≡ name };

    fn clone(&self) -> Result<NameOf<K>, AllocError> {
        self.try_clone()
    }
}

/// A package's full name, written `category/package`. It has no order of its own: that of its
/// parts isn't that of its text, in which `a-b/x` stands before `a/x`.
#[derive(Debug, Drop, PartialEq, Eq)]
pub struct Name {
    pub category: Category,
    pub package: PackageName,
}

impl Name {
    pub fn try_clone(&self) -> Result<Name, AllocError>
        ensures { IfOk result (λ n. n ≡ self.now) }
    {
        let category = self.category.try_clone()?;
        let package = self.package.try_clone()?;
        Ok(Name { category, package })
    }
}

fn fault_of(kind: Kind, bytes: &[u8]) -> Option<NameFault>
    ensures none { IfNone result (IsName kind bytes.now) }
    ensures first { IfSome result (FirstFault kind bytes.now) }
    ensures not_memory { IfSome result (λ fault. fault ≢ Memory) }
{
    if bytes.is_empty() {
        return Some(NameFault::Empty);
    }
    if bytes.len() > MOST_BYTES {
        return Some(NameFault::TooLong);
    }
    if begins_badly(kind, bytes[0]) {
        return Some(NameFault::BadStart);
    }
    if let Some(at) = first_bad_byte(kind, bytes) {
        return Some(NameFault::BadChar { at });
    }
    match kind {
        Kind::Package if ends_in_version(bytes) => Some(NameFault::EndsLikeVersion),
        _ => None,
    }
}

fn first_bad_byte(kind: Kind, bytes: &[u8]) -> Option<usize>
    ensures { MatchOption result (AreNameBytes kind bytes.now) (IsFirstBadByte kind bytes.now) }
{
    bytes.iter().position(|b| !may_contain(kind, *b))
}

fn ends_in_version(bytes: &[u8]) -> bool
    ensures { IsTrue result ↔ EndsInVersion bytes.now }
{
    for (i, b) in bytes.iter().enumerate() {
        if *b == b'-' && pms_grammar::is_version(&bytes[i + 1..]) {
            return true;
        }
    }
    false
}

fn is_name_byte(b: u8) -> bool
    ensures { result ≡ is_name_byte b }
{
    b.is_ascii_alphanumeric() || b == b'+' || b == b'_' || b == b'-'
}

fn may_contain(kind: Kind, b: u8) -> bool
    ensures { result ≡ may_contain kind b }
{
    match kind {
        Kind::Category | Kind::Slot => is_name_byte(b) || b == b'.',
        Kind::Package => is_name_byte(b),
        Kind::Flag => is_name_byte(b) || b == b'@',
    }
}

fn begins_badly(kind: Kind, b: u8) -> bool
    ensures { result ≡ begins_badly kind b }
{
    match kind {
        Kind::Category | Kind::Slot => b == b'-' || b == b'.' || b == b'+',
        Kind::Package => b == b'-' || b == b'+',
        Kind::Flag => !b.is_ascii_alphanumeric(),
    }
}
