ghost use Rattle.std.specs.Prelude.{◌≡◌, ℕ, List, false, map, true};
ghost use Rattle.std.specs.Prelude.{IfErr, IfOk};
ghost use Rattle.std.specs.Prelude.{MatchOption, MatchResult, OnOk};
ghost use Rattle.std.specs.Str.{IsUtf8};
ghost use Rattle.vdb_contents.specs.Contents.{TellsOwned};
ghost use Rattle.vdb_contents.specs.declared.owned.Owned.{Owned as OwnedPath};
ghost use Rattle.pkg_state.specs.Eapis.{eapi_text, empty_holds};
ghost use Rattle.vdb_law.specs.Fields.{AreFlags, AreSlots, ReadsNeeds, bound_of, contents, flags};
ghost use Rattle.vdb_law.specs.Fields.{known, needs, needs_text, required, slots};
ghost use Rattle.dep_group.specs.Words.{words_of};
ghost use Rattle.dep_tree.specs.Texts.{Dependencies, Writes};
ghost use Rattle.dep_tree.specs.View.{trees};
ghost use Rattle.vdb_values.specs.Values.{IsAlone, SaysNoEapi};
ghost use Rattle.required_use.specs.Texts.{Expressions, Writes as WritesRequired};
ghost use Rattle.required_use.specs.View.{trees as required_trees};
ghost use Rattle.use_flags.specs.Items.{flag_of};
ghost use Rattle.vdb_record.specs.Faults.{IsFileFault, IsNotUtf8, dep_fault, flag_fault};
ghost use Rattle.vdb_record.specs.Faults.{required_place, tree_place};
ghost use Rattle.vdb_record.specs.Texts.{value};
ghost use Rattle.vdb_record.specs.declared.fault.RecordFault.TheVariants.{Memory};
ghost use Rattle.vdb_record.specs.declared.file.RecordFile.TheVariants as files;

use crate::fault::RecordFault;
use crate::file::RecordFile;
use crate::lines::{line_at, line_from, value_start};
use crate::texts::FileText;
use config_text::text_of;
use dep_tree::{DepTree, TreeTextFault};
use pkg_state::{Class, Eapi};
use pms_names::Flags;
use pms_slot::SlotValue;
use required_use::{RequiredFault, RequiredUse};
use std::alloc::{AllocError, Global};
use std::str::from_utf8;
use vdb_contents::{ContentsFault, Owned, read_contents};
use vdb_values::{FlagFault, read_eapi, read_flags, read_known, read_needs, read_slots};

/// The text of a file, or the fault at the first byte that isn't UTF-8.
fn utf8_of(file: RecordFile, text: &FileText) -> Result<&str, RecordFault>
    ensures text { IfOk result (λ s. s.now ≡ value text.now) }
    ensures utf8 { OnOk result (IsUtf8 (value text.now)) }
    ensures fault { IfErr result (IsNotUtf8 file (value text.now)) }
{
    match text_of(text.value()) {
        Ok(text) => Ok(text),
        Err(line) => Err(RecordFault::Text { file, line }),
    }
}

/// The edition that EAPI says, if it is one that is read.
pub(crate) fn edition_of(alloc: Global, text: &FileText) -> Result<Option<Eapi>, AllocError>
    ensures { IfOk result (λ r. MatchOption r (SaysNoEapi (value text.now))
        (λ e. IsAlone (value text.now) (eapi_text e))) }
{
    match from_utf8(text.value()) {
        Ok(text) => read_eapi(alloc, text),
        Err(_) => Ok(None),
    }
}

/// The paths that CONTENTS tells.
pub(crate) fn owned_of(alloc: Global, text: &FileText) -> Result<Vec<Owned>, RecordFault>
    ensures found { IfOk result (λ v. TellsOwned (value text.now) v.items) }
    ensures only { (owned : List OwnedPath) → TellsOwned (value text.now) owned →
        MatchResult result (λ v. v.items ≡ owned) (λ e. e ≡ Memory) }
    ensures fault { IfErr result (IsFileFault contents (value text.now)) }
{
    match read_contents(alloc, text.value()) {
        Ok(owned) => Ok(owned),
        Err(ContentsFault::Line { number }) => Err(RecordFault::Text {
            file: RecordFile::Contents,
            line: line_from(number),
        }),
        Err(ContentsFault::Memory) => Err(RecordFault::Memory),
    }
}

/// What SLOT tells.
pub(crate) fn slots_of(alloc: Global, text: &FileText) -> Result<SlotValue, RecordFault>
    ensures found { IfOk result (λ v. AreSlots (words_of (value text.now)) v.slot v.subslot) }
    ensures only { (slot subslot : List ℕ) → AreSlots (words_of (value text.now)) slot subslot →
        MatchResult result (λ v. (v.slot ≡ slot) × (v.subslot ≡ subslot)) (λ e. e ≡ Memory) }
    ensures fault { IfErr result (IsFileFault slots (value text.now)) }
{
    pms_slot::one_slot_value();
    let file = RecordFile::Slot;
    let value = utf8_of(file, text)?;
    match read_slots(alloc, value)? {
        Some(slots) => Ok(slots),
        None => {
            let start = value_start(value.as_bytes());
            let line = line_at(value.as_bytes(), start);
            Err(RecordFault::Text { file, line })
        }
    }
}

/// The flags of USE.
pub(crate) fn flags_of(alloc: Global, text: &FileText) -> Result<Flags, RecordFault>
    ensures found { IfOk result (λ s. AreFlags (words_of (value text.now)) s) }
    ensures only { (set : List (List ℕ)) → AreFlags (words_of (value text.now)) set →
        MatchResult result (λ s. s ≡ set) (λ e. e ≡ Memory) }
    ensures fault { IfErr result (IsFileFault flags (value text.now)) }
{
    let file = RecordFile::Use;
    let value = utf8_of(file, text)?;
    match read_flags(alloc, value) {
        Ok(flags) => Ok(flags),
        Err(fault) => Err(flag_fault(file, value.as_bytes(), fault)),
    }
}

/// The flags of IUSE, without the marks of their defaults.
pub(crate) fn known_of(alloc: Global, text: &FileText) -> Result<Flags, RecordFault>
    ensures found { IfOk result (λ s. AreFlags (map flag_of (words_of (value text.now))) s) }
    ensures only { (set : List (List ℕ)) → AreFlags (map flag_of (words_of (value text.now))) set →
        MatchResult result (λ s. s ≡ set) (λ e. e ≡ Memory) }
    ensures fault { IfErr result (IsFileFault known (value text.now)) }
{
    let file = RecordFile::Iuse;
    let value = utf8_of(file, text)?;
    match read_known(alloc, value) {
        Ok(flags) => Ok(flags),
        Err(fault) => Err(flag_fault(file, value.as_bytes(), fault)),
    }
}

fn flag_fault(file: RecordFile, text: &[u8], fault: FlagFault) -> RecordFault
    ensures { result ≡ flag_fault file text.now fault }
{
    match fault {
        FlagFault::Word { at } => RecordFault::Text {
            file,
            line: line_at(text, at),
        },
        FlagFault::Memory => RecordFault::Memory,
    }
}

/// What REQUIRED_USE tells.
pub(crate) fn required_of(
    alloc: Global,
    edition: Eapi,
    text: &FileText,
) -> Result<RequiredUse, RecordFault>
    ensures found { IfOk result (λ r.
        WritesRequired (empty_holds edition) (value text.now) (required_trees r)) }
    ensures only { (x : Expressions) → WritesRequired (empty_holds edition) (value text.now) x →
        MatchResult result (λ r. required_trees r ≡ x) (λ e. e ≡ Memory) }
    ensures fault { IfErr result (IsFileFault required (value text.now)) }
{
    let file = RecordFile::RequiredUse;
    let value = utf8_of(file, text)?;
    match RequiredUse::parse(alloc, value, edition.empty_holds()) {
        Ok(required) => Ok(required),
        Err(fault) => Err(dep_fault(file, value.as_bytes(), required_place(&fault))),
    }
}

/// What the file of a class tells in a record of the edition.
pub(crate) fn needs_of(
    alloc: Global,
    edition: Eapi,
    class: Class,
    text: &FileText,
) -> Result<DepTree, RecordFault>
    ensures found { IfOk result (λ t. ReadsNeeds edition class (value text.now) (trees t)) }
    ensures only { (x : Dependencies) →
        Writes (empty_holds edition) (needs_text edition class (value text.now)) x →
        MatchResult result (λ t. trees t ≡ bound_of x) (λ e. e ≡ Memory) }
    ensures fault { IfErr result
        (IsFileFault (needs class) (needs_text edition class (value text.now))) }
{
    let file = RecordFile::Needs(class);
    let value = needs_text(edition, class, text)?;
    match read_needs(alloc, value, edition.empty_holds()) {
        Ok(tree) => Ok(tree),
        Err(fault) => Err(dep_fault(file, value.as_bytes(), tree_place(&fault))),
    }
}

/// The text of a class, which is empty where the edition lacks the class.
fn needs_text(edition: Eapi, class: Class, text: &FileText) -> Result<&str, RecordFault>
    ensures text { IfOk result (λ s. s.now ≡ needs_text edition class (value text.now)) }
    ensures utf8 { OnOk result (IsUtf8 (needs_text edition class (value text.now))) }
    ensures fault { IfErr result
        (IsNotUtf8 (files.Needs class) (needs_text edition class (value text.now))) }
{
    if edition.has_class(class) {
        utf8_of(RecordFile::Needs(class), text)
    } else {
        Ok("")
    }
}

/// The fault at a place of the text of a file. Without a place memory ran out.
fn dep_fault(file: RecordFile, text: &[u8], place: Option<usize>) -> RecordFault
    ensures { result ≡ dep_fault file text.now place }
{
    match place {
        Some(at) => RecordFault::Dep {
            file,
            at: at.saturating_sub(value_start(text)),
        },
        None => RecordFault::Memory,
    }
}

fn tree_place(fault: &TreeTextFault) -> Option<usize>
    ensures { result ≡ tree_place fault.now }
{
    match fault {
        TreeTextFault::Atom { at }
        | TreeTextFault::Open { at }
        | TreeTextFault::Close { at }
        | TreeTextFault::NoSpace { at }
        | TreeTextFault::BlockInAnyOf { at } => Some(*at),
        TreeTextFault::Depth => Some(0),
        TreeTextFault::Memory => None,
    }
}

fn required_place(fault: &RequiredFault) -> Option<usize>
    ensures { result ≡ required_place fault.now }
{
    match fault {
        RequiredFault::Item { at }
        | RequiredFault::Open { at }
        | RequiredFault::Close { at }
        | RequiredFault::NoSpace { at } => Some(*at),
        RequiredFault::Depth => Some(0),
        RequiredFault::Memory => None,
    }
}
