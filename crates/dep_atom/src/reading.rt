ghost use Rattle.std.specs.Prelude.{◌≡◌, ◌++◌, ◌∷◌, [], ◌-◌, ◌≤◌, ◌<◌, ℕ, Bool, true, false, List};
ghost use Rattle.std.specs.Prelude.{Option};
ghost use Rattle.std.specs.Prelude.{length, slice_index, IfOk, IfErr, IfNone, IfSome, MatchOption};
ghost use Rattle.std.specs.Prelude.{MatchResult};
ghost use Rattle.std.specs.List.{AllByRecursion};
ghost use Rattle.pms_names.specs.Names.{IsName};
ghost use Rattle.pms_names.specs.declared.kind.Kind.TheVariants as kinds;
ghost use Rattle.dep_atom.specs.Body.{IsBodyForm, IsVersionedBody, body_text};
ghost use Rattle.dep_atom.specs.Cuts.{is_either, Lacks, Starts, end_text};
ghost use Rattle.dep_atom.specs.Faults.{BodyFault, EndFault, IsSlotFault, IsUseFaultAt, ItemFault};
ghost use Rattle.dep_atom.specs.Faults.{NameVersionFault, PlainFault, VersionedFault};
ghost use Rattle.dep_atom.specs.Form.{IsNameForm, IsSlotForm, IsSubslotForm, IsUseForm};
ghost use Rattle.dep_atom.specs.Naming.{IsReadableText, NameThen};
ghost use Rattle.dep_atom.specs.Promises.{ReadsBack};
ghost use Rattle.dep_atom.specs.Reading.{block_at, op_at, use_kind_at};
ghost use Rattle.dep_atom.specs.Text.{before_flag, block_text, equals_text, name_text, op_text};
ghost use Rattle.dep_atom.specs.Text.{otherwise_text, slot_text, subslot_text, use_text, uses_text};
ghost use Rattle.dep_atom.specs.declared.fault.AtomFault.TheVariants.{Memory};
ghost use Rattle.dep_atom.specs.declared.slot.SlotPart.TheVariants.{Given};
ghost use Rattle.dep_atom.specs.declared.uses.UseDep.{UseDep as Use};

use crate::atom::{Block, Op};
use crate::fault::AtomFault;
use crate::naming::{begins_name_number, is_name, is_name_version, read_name, read_name_version};
use crate::package::name_fault;
use crate::slot::SlotPart;
use crate::uses::{UseDep, UseKind};
use pms_names::{Flag, Name};
use pms_slot::WrittenSlot;
use pms_version::Version;
use std::alloc::Global;

/// The block with which the text begins, and the rest.
pub(crate) fn take_block(text: &[u8]) -> (Block, &[u8])
    ensures parts { text.now ≡ block_text result.0 ++ result.1.now }
    ensures block { result.0 ≡ block_at (slice_index text.now 0) (slice_index text.now 1) }
{
    match text {
        [b'!', b'!', rest @ ..] => (Block::Strong, rest),
        [b'!', rest @ ..] => (Block::Weak, rest),
        _ => (Block::No, text),
    }
}

/// The operator with which the text begins, and the rest.
pub(crate) fn take_op(text: &[u8]) -> (Op, &[u8])
    ensures parts { text.now ≡ op_text result.0 ++ result.1.now }
    ensures op { result.0 ≡ op_at (slice_index text.now 0) (slice_index text.now 1) }
{
    match text {
        [b'<', b'=', rest @ ..] => (Op::LessEqual, rest),
        [b'<', rest @ ..] => (Op::Less, rest),
        [b'>', b'=', rest @ ..] => (Op::GreaterEqual, rest),
        [b'>', rest @ ..] => (Op::Greater, rest),
        [b'=', rest @ ..] => (Op::Equal, rest),
        [b'~', rest @ ..] => (Op::Similar, rest),
        _ => (Op::Any, text),
    }
}

// Where the first of two bytes stands.
fn first_of(text: &[u8], one: u8, other: u8) -> Option<usize>
    ensures none { IfNone result ((k : ℕ) → k < length text.now →
        is_either one other (slice_index text.now k) ≡ false) }
    ensures before { IfSome result (λ at. (k : ℕ) → k < at →
        is_either one other (slice_index text.now k) ≡ false) }
    ensures found { IfSome result (λ at. (at < length text.now) ×
        (is_either one other (slice_index text.now at) ≡ true)) }
{
    text.iter().position(|b| *b == one || *b == other)
}

/// The text up to the first of two bytes, and the rest.
pub(crate) fn split_before(text: &[u8], one: u8, other: u8) -> (&[u8], &[u8])
    ensures parts { text.now ≡ result.0.now ++ result.1.now }
    ensures shorter { length result.1.now ≤ length text.now }
    ensures lacks { Lacks one other result.0.now }
    ensures starts { Starts one other result.1.now }
{
    match first_of(text, one, other) {
        Some(at) => text.split_at(at),
        None => text.split_at(text.len()),
    }
}

/// What stands behind the byte, where the text begins with it.
pub(crate) fn take_byte(text: &[u8], byte: u8) -> Option<&[u8]>
    ensures { MatchOption result ((rest : List ℕ) → ¬ (text.now ≡ byte ∷ rest))
        (λ rest. text.now ≡ byte ∷ rest.now) }
{
    if text.is_empty() || text[0] != byte {
        return None;
    }
    let (_, rest) = text.split_at(1);
    Some(rest)
}

// The text without a byte at its end, and whether it stood there.
fn take_end(text: &[u8], end: u8) -> (&[u8], bool)
    ensures parts { text.now ≡ result.0.now ++ end_text end result.1 }
    ensures none { result.1 ≡ false → (front : List ℕ) → ¬ (text.now ≡ front ++ (end ∷ [])) }
{
    if text.is_empty() {
        return (text, false);
    }
    let at = text.len() - 1;
    let (front, _) = text.split_at(at);
    if text[at] == end {
        (front, true)
    } else {
        (text, false)
    }
}

/// What an atom says of its package: the name, the version, and whether an asterisk stands behind.
#[derive(Drop)]
pub(crate) struct Package {
    pub(crate) name: Name,
    pub(crate) version: Option<Version>,
    pub(crate) star: bool,
}

/// Reads what stands between the operator and the slot part.
pub(crate) fn read_package(alloc: Global, op: Op, text: &[u8]) -> Result<Package, AtomFault>
    ensures found { IfOk result (λ p. text.now ≡ body_text p) }
    ensures form { IfOk result (IsBodyForm op) }
    ensures only { ReadsBack (IsBodyForm op) body_text text.now result }
    ensures fault { IfErr result (BodyFault op text.now) }
{
    match op {
        Op::Any => match read_unversioned(alloc, text) {
            Ok(name) => Ok(Package {
                name,
                version: None,
                star: false,
            }),
            Err(fault) => Err(fault),
        },
        Op::Equal => read_versioned(alloc, true, text),
        _ => read_versioned(alloc, false, text),
    }
}

// A name and a version, with an asterisk where it may stand.
fn read_versioned(alloc: Global, may_star: bool, text: &[u8]) -> Result<Package, AtomFault>
    ensures found { IfOk result (λ p. text.now ≡ body_text p) }
    ensures form { IfOk result (IsVersionedBody may_star) }
    ensures only { ReadsBack (IsVersionedBody may_star) body_text text.now result }
    ensures fault { IfErr result (VersionedFault may_star text.now) }
{
    let (front, star) = take_end(text, b'*');
    let (name, version) = match read_name_version(alloc, front) {
        Ok(Some(both)) => both,
        Ok(None) => return Err(versioned_fault(front)),
        Err(_) => return Err(AtomFault::Memory),
    };
    if star && !may_star {
        return Err(AtomFault::BadStar);
    }
    Ok(Package {
        name,
        version: Some(version),
        star,
    })
}

// Why a text behind an operator is no name and version.
fn versioned_fault(text: &[u8]) -> AtomFault
    requires { ¬ NameThen IsReadableText text.now }
    ensures { NameVersionFault text.now result }
{
    if is_name(text) {
        AtomFault::OperatorWithoutVersion
    } else if begins_name_number(text) {
        AtomFault::Version
    } else {
        AtomFault::Name
    }
}

// A name alone: with a version behind it, it wants an operator.
fn read_unversioned(alloc: Global, text: &[u8]) -> Result<Name, AtomFault>
    ensures found { IfOk result (λ name. text.now ≡ name_text name) }
    ensures form { IfOk result IsNameForm }
    ensures only { ReadsBack IsNameForm name_text text.now result }
    ensures fault { IfErr result (PlainFault text.now) }
{
    match read_name(alloc, text) {
        Ok(Some(name)) => Ok(name),
        Ok(None) if is_name_version(text) => Err(AtomFault::VersionWithoutOperator),
        Ok(None) => Err(AtomFault::Name),
        Err(_) => Err(AtomFault::Memory),
    }
}

// What stands behind the colon, where it is neither an asterisk nor an equals sign alone.
fn read_given(alloc: Global, text: &[u8]) -> Result<SlotPart, AtomFault>
    ensures found { IfOk result (λ slot. 58 ∷ text.now ≡ slot_text slot) }
    ensures form { IfOk result IsSlotForm }
    ensures only { (slot : List ℕ) (subslot : Option (List ℕ)) (equals : Bool) →
        IsName kinds.Slot slot → IsSubslotForm subslot →
        text.now ≡ slot ++ (subslot_text subslot ++ equals_text equals) →
        MatchResult result (λ r. r ≡ Given slot subslot equals) (λ e. e ≡ Memory) }
    ensures fault { IfErr result IsSlotFault }
{
    let (text, equals) = take_end(text, b'=');
    match WrittenSlot::read(alloc, text) {
        Ok(Some(WrittenSlot { slot, subslot })) => Ok(SlotPart::Given {
            slot,
            subslot,
            equals,
        }),
        Ok(None) => Err(AtomFault::BadSlot),
        Err(_) => Err(AtomFault::Memory),
    }
}

/// Reads the whole slot part, with its colon.
pub(crate) fn read_slot(alloc: Global, text: &[u8]) -> Result<SlotPart, AtomFault>
    ensures found { IfOk result (λ slot. text.now ≡ slot_text slot) }
    ensures form { IfOk result IsSlotForm }
    ensures only { ReadsBack IsSlotForm slot_text text.now result }
    ensures fault { IfErr result IsSlotFault }
{
    if text.is_empty() {
        return Ok(SlotPart::Free);
    }
    let Some(rest) = take_byte(text, b':') else {
        return Err(AtomFault::BadSlot);
    };
    match rest {
        [b'*'] => Ok(SlotPart::Star),
        [b'='] => Ok(SlotPart::Equals),
        _ => read_given(alloc, rest),
    }
}

/// Reads the whole USE part. A fault's place counts from the beginning of a text of `total` bytes
/// that ends with it.
pub(crate) fn read_uses(alloc: Global, text: &[u8], total: usize) -> Result<Vec<UseDep>, AtomFault>
    ensures found { IfOk result (λ uses. text.now ≡ uses_text uses.items) }
    ensures form { IfOk result (λ uses. AllByRecursion IsUseForm uses.items) }
    ensures only { (us : List Use) → AllByRecursion IsUseForm us → text.now ≡ uses_text us →
        MatchResult result (λ r. r.items ≡ us) (λ e. e ≡ Memory) }
    ensures fault { IfErr result (λ e. Starts 91 91 text.now → EndFault total text.now e) }
{
    let Some(first) = take_byte(text, b'[') else {
        return if text.is_empty() {
            Ok(Vec::new(alloc))
        } else {
            Err(AtomFault::BadUse {
                at: total.saturating_sub(text.len()),
            })
        };
    };
    let mut uses = Vec::new(alloc);
    let (item, mut rest) = match read_first_use(alloc, first, total) {
        Ok(first) => first,
        Err(fault) => return Err(fault),
    };
    uses.push(item)?;
    while let Some(more) = take_byte(rest, b',') {
        let (item, behind) = match read_first_use(alloc, more, total) {
            Ok(first) => first,
            Err(fault) => return Err(fault),
        };
        uses.push(item)?;
        rest = behind;
    }
    let at = total.saturating_sub(rest.len());
    let Some(end) = take_byte(rest, b']') else {
        return Err(AtomFault::BadUse { at });
    };
    if end.is_empty() {
        Ok(uses)
    } else {
        Err(AtomFault::BadUse { at })
    }
}

// Reads the USE item with which the text begins, and gives what stands behind it.
fn read_first_use(alloc: Global, text: &[u8], total: usize) -> Result<(UseDep, &[u8]), AtomFault>
    ensures found { IfOk result (λ r. text.now ≡ use_text r.0 ++ r.1.now) }
    ensures form { IfOk result (λ r. IsUseForm r.0) }
    ensures shorter { IfOk result (λ r. length r.1.now ≤ length text.now) }
    ensures only { (u : Use) (rest : List ℕ) → IsUseForm u → Starts 44 93 rest →
        text.now ≡ use_text u ++ rest → MatchResult result (λ r. (r.0 ≡ u) × (r.1.now ≡ rest))
        (λ e. e ≡ Memory) }
    ensures starts { IfOk result (λ r. Starts 44 93 r.1.now) }
    ensures fault { IfErr result (ItemFault (total - length text.now) text.now) }
{
    let (item, rest) = split_before(text, b',', b']');
    match read_use(alloc, item, total.saturating_sub(text.len())) {
        Ok(item) => Ok((item, rest)),
        Err(fault) => Err(fault),
    }
}

// Reads one USE item, which begins `at` bytes behind the atom's beginning.
fn read_use(alloc: Global, item: &[u8], at: usize) -> Result<UseDep, AtomFault>
    ensures found { IfOk result (λ u. item.now ≡ use_text u) }
    ensures form { IfOk result IsUseForm }
    ensures only { ReadsBack IsUseForm use_text item.now result }
    ensures fault { IfErr result (IsUseFaultAt at) }
{
    let (front, has_equals) = take_end(item, b'=');
    let (front, has_question) = take_end(front, b'?');
    if has_equals && has_question {
        return Err(AtomFault::BadUse { at });
    }
    let (kind, rest) = take_kind(front, has_equals, has_question);
    let (flag, rest) = split_before(rest, b'(', b'(');
    let Some(otherwise) = read_otherwise(rest) else {
        return Err(AtomFault::BadUse { at });
    };
    match read_flag(alloc, flag, at) {
        Ok(flag) => Ok(UseDep {
            flag,
            kind,
            otherwise,
        }),
        Err(fault) => Err(fault),
    }
}

fn read_flag(alloc: Global, text: &[u8], at: usize) -> Result<Flag, AtomFault>
    ensures found { IfOk result (λ flag. flag ≡ text.now) }
    ensures form { IfOk result (λ _. IsName kinds.Flag text.now) }
    ensures only { IsName kinds.Flag text.now → IfErr result (λ e. e ≡ Memory) }
    ensures fault { IfErr result (IsUseFaultAt at) }
{
    match Flag::from_bytes(alloc, text) {
        Ok(flag) => Ok(flag),
        Err(fault) => match name_fault(fault) {
            AtomFault::Memory => Err(AtomFault::Memory),
            _ => Err(AtomFault::BadUse { at }),
        },
    }
}

// The kind of a USE item whose end is known, and what stands behind its sign.
fn take_kind(text: &[u8], has_equals: bool, has_question: bool) -> (UseKind, &[u8])
    ensures parts { text.now ≡ before_flag result.0 ++ result.1.now }
    ensures kind { result.0 ≡ use_kind_at (slice_index text.now 0) has_equals has_question }
{
    match text {
        [b'!', rest @ ..] if has_equals => (UseKind::Opposite, rest),
        _ if has_equals => (UseKind::Same, text),
        [b'!', rest @ ..] if has_question => (UseKind::OffIfOff, rest),
        _ if has_question => (UseKind::OnIfOn, text),
        [b'-', rest @ ..] => (UseKind::Off, rest),
        _ => (UseKind::On, text),
    }
}

// Reads `(+)`, `(-)` or nothing.
fn read_otherwise(text: &[u8]) -> Option<Option<bool>>
    ensures { MatchOption result ((o : Option Bool) → ¬ (text.now ≡ otherwise_text o))
        (λ o. text.now ≡ otherwise_text o) }
{
    match text {
        [] => Some(None),
        [b'(', b'+', b')'] => Some(Some(true)),
        [b'(', b'-', b')'] => Some(Some(false)),
        _ => None,
    }
}
