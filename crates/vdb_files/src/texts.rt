ghost use Rattle.std.specs.Prelude.{◌≡◌, IfOk, string_bytes};
ghost use Rattle.dep_group.specs.Words.{spaced};
ghost use Rattle.dep_tree.specs.Texts as dependencies;
ghost use Rattle.dep_tree.specs.View.{trees};
ghost use Rattle.required_use.specs.Texts as expressions;
ghost use Rattle.required_use.specs.View.{trees as required_trees};
ghost use Rattle.pkg_state.specs.Eapis.{eapi_text};
ghost use Rattle.pms_slot.specs.Slots.{slot_text};
ghost use Rattle.vdb_files.specs.Written.{with_newline};

use dep_atom::Facts;
use dep_group::push_word;
use dep_tree::DepTree;
use pkg_state::Eapi;
use pms_names::Flags;
use pms_slot::print_slots;
use required_use::RequiredUse;
use std::alloc::{AllocError, Global};

/// The text of EAPI.
pub(crate) fn text_of_eapi(alloc: Global, edition: Eapi) -> Result<Vec<u8>, AllocError>
    ensures { IfOk result (λ t. t.items ≡ with_newline (eapi_text edition)) }
{
    let text = String::from_str(alloc, edition.text())?;
    with_newline(text)
}

/// The text of SLOT.
pub(crate) fn text_of_slots(alloc: Global, facts: &Facts) -> Result<Vec<u8>, AllocError>
    ensures { IfOk result (λ t. t.items ≡
        with_newline (slot_text facts.now.slot facts.now.subslot)) }
{
    let slots = print_slots(alloc, &facts.slot, &facts.subslot)?;
    with_newline(slots)
}

/// The text of USE or of IUSE.
pub(crate) fn text_of_flags(alloc: Global, flags: &Flags) -> Result<Vec<u8>, AllocError>
    ensures { IfOk result (λ t. t.items ≡ with_newline (spaced flags.now)) }
{
    let mut words = String::new(alloc);
    for flag in flags.list() {
        push_word(&mut words, "", flag.text(), "")?;
    }
    with_newline(words)
}

/// The text of a class of dependencies.
pub(crate) fn text_of_needs(alloc: Global, needs: &DepTree) -> Result<Vec<u8>, AllocError>
    ensures { IfOk result (λ t. t.items ≡ with_newline (dependencies.text_of (trees needs.now))) }
{
    let words = needs.print(alloc)?;
    with_newline(words)
}

/// The text of REQUIRED_USE.
pub(crate) fn text_of_required(alloc: Global, required: &RequiredUse) -> Result<Vec<u8>, AllocError>
    ensures { IfOk result (λ t. t.items ≡
        with_newline (expressions.text_of (required_trees required.now))) }
{
    let words = required.print(alloc)?;
    with_newline(words)
}

/// A newline behind a text that has bytes.
fn with_newline(text: String) -> Result<Vec<u8>, AllocError>
    ensures { IfOk result (λ t. t.items ≡ with_newline (string_bytes text)) }
{
    let mut bytes = text.into_bytes();
    if !bytes.is_empty() {
        bytes.push(b'\n')?;
    }
    Ok(bytes)
}
