ghost use Rattle.std.specs.Prelude.{◌≡◌, ◌↔◌, IfErr, IfOk, IsTrue, OnOk};
ghost use Rattle.dep_tree.specs.declared.fault.TreeTextFault.TheVariants as tree_faults;
ghost use Rattle.required_use.specs.declared.fault.RequiredFault.TheVariants as required_faults;
ghost use Rattle.dep_tree.specs.Texts.{AreDependencies};
ghost use Rattle.required_use.specs.Texts.{IsExpression};
ghost use Rattle.use_flags.specs.Items.{IsItem};
ghost use Rattle.use_flags.specs.Words.{EachWord};
ghost use Rattle.md5_cache.specs.Fields.{IsFieldInForm};
ghost use Rattle.md5_cache.specs.declared.field.Field.TheVariants as fields;

use crate::field::Field;
use dep_tree::{DepTree, TreeTextFault};
use file_digest::digest_from;
use pms_slot::SlotValue;
use required_use::{RequiredFault, RequiredUse};
use std::alloc::{AllocError, Global};
use use_flags::{Iuse, UseFault};

/// Whether the field may have the value.
pub(crate) fn is_in_form(alloc: Global, field: Field, value: &str) -> Result<bool, AllocError>
    ensures { IfOk result (λ b. IsTrue b ↔ IsFieldInForm field value.now) }
{
    match field {
        Field::Slot => is_slot(alloc, value),
        Field::Digest => Ok(is_digest(value.as_bytes())),
        Field::Iuse => is_iuse(alloc, value),
        Field::Required => is_required(alloc, value),
        Field::Needs => are_needs(alloc, value),
        Field::Other => Ok(true),
    }
}

fn is_slot(alloc: Global, value: &str) -> Result<bool, AllocError>
    ensures { IfOk result (λ b. IsTrue b ↔ IsFieldInForm fields.Slot value.now) }
{
    match SlotValue::read(alloc, value.as_bytes()) {
        Ok(found) => Ok(found.is_some()),
        Err(fault) => Err(fault),
    }
}

fn is_digest(value: &[u8]) -> bool
    ensures { IsTrue result ↔ IsFieldInForm fields.Digest value.now }
{
    digest_from(value).is_some()
}

fn is_iuse(alloc: Global, value: &str) -> Result<bool, AllocError>
    ensures { IfOk result (λ b. IsTrue b ↔ EachWord IsItem value.now) }
{
    match Iuse::parse(alloc, value) {
        Ok(_) => Ok(true),
        Err(UseFault::Memory) => Err(AllocError),
        Err(_) => Ok(false),
    }
}

fn is_required(alloc: Global, value: &str) -> Result<bool, AllocError>
    ensures { IfOk result (λ b. IsTrue b ↔ IsExpression value.now) }
{
    match read_required(alloc, value) {
        Ok(_) => Ok(true),
        Err(RequiredFault::Memory) => Err(AllocError),
        Err(_) => Ok(false),
    }
}

fn are_needs(alloc: Global, value: &str) -> Result<bool, AllocError>
    ensures { IfOk result (λ b. IsTrue b ↔ AreDependencies value.now) }
{
    match read_needs(alloc, value) {
        Ok(_) => Ok(true),
        Err(TreeTextFault::Memory) => Err(AllocError),
        Err(_) => Ok(false),
    }
}

/// Whether a group without members holds is of no account to the form.
fn read_required(alloc: Global, value: &str) -> Result<RequiredUse, RequiredFault>
    ensures found { OnOk result (IsExpression value.now) }
    ensures only { IsExpression value.now → IfErr result (λ e. e ≡ required_faults.Memory) }
{
    RequiredUse::parse(alloc, value, false)
}

/// Whether a group without members holds is of no account to the form.
fn read_needs(alloc: Global, value: &str) -> Result<DepTree, TreeTextFault>
    ensures found { OnOk result (AreDependencies value.now) }
    ensures only { AreDependencies value.now → IfErr result (λ e. e ≡ tree_faults.Memory) }
{
    DepTree::parse(alloc, value, false)
}
