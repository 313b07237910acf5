ghost use Rattle.std.specs.Prelude.{◌≡◌, ◌++◌, IfOk, OnOk, string_bytes};
ghost use Rattle.dep_atom.specs.Match.{agrees, accepts_use};
ghost use Rattle.dep_atom.specs.Text.{before_flag, after_flag, otherwise_text, further_use_text};
ghost use Rattle.dep_atom.specs.Text.{use_text, uses_text};
ghost use Rattle.std.specs.List.{flat_map};

use crate::package::Facts;
use pms_names::{Flag, Flags};
use std::alloc::{AllocError, Global};

/// What a USE item asks of its flag, where x is a flag (PMS 8.3.4).
#[derive(Clone, Copy, Debug)]
pub enum UseKind {
    /// `x`: on.
    On,
    /// `-x`: off.
    Off,
    /// `x=`: as the asker has it.
    Same,
    /// `!x=`: as the asker has it not.
    Opposite,
    /// `x?`: on where the asker has it on.
    OnIfOn,
    /// `!x?`: off where the asker has it off.
    OffIfOff,
}

/// One item of an atom's USE part.
#[derive(Debug, Drop)]
pub struct UseDep {
    pub flag: Flag,
    pub kind: UseKind,
    /// What a flag that the package doesn't know counts as: written `(+)` or `(-)`.
    pub otherwise: Option<bool>,
}

impl UseDep {
    pub(crate) fn accepts(&self, target: &Facts, asker: &Flags) -> bool
        ensures { result ≡ accepts_use target.now.iuse target.now.enabled asker.now self.now }
    {
        let is_enabled = target.enabled.has(&self.flag);
        let value = if is_enabled || target.iuse.has(&self.flag) {
            Some(is_enabled)
        } else {
            self.otherwise
        };
        match value {
            Some(value) => agrees(self.kind, asker.has(&self.flag), value),
            None => false,
        }
    }
}

impl UseDep {
    pub(crate) fn try_clone(&self) -> Result<UseDep, AllocError>
        ensures { IfOk result (λ item. item ≡ self.now) }
    {
        let flag = self.flag.try_clone()?;
        Ok(UseDep {
            flag,
            kind: self.kind,
            otherwise: self.otherwise,
        })
    }

    fn write(&self, text: &mut String) -> Result<(), AllocError>
        ensures { OnOk result (string_bytes text.new ≡ string_bytes text.old ++ use_text self.now) }
    {
        text.push_str(before_flag(self.kind))?;
        text.push_str(self.flag.text())?;
        text.push_str(otherwise_text(self.otherwise))?;
        text.push_str(after_flag(self.kind))
    }
}

pub(crate) fn clone_uses(alloc: Global, uses: &[UseDep]) -> Result<Vec<UseDep>, AllocError>
    ensures { IfOk result (λ copy. copy.items ≡ uses.now) }
{
    let mut copy = Vec::with_capacity(alloc, uses.len())?;
    for item in uses {
        copy.push(item.try_clone()?)?;
    }
    Ok(copy)
}

/// Writes the USE part of an atom behind the text.
pub(crate) fn write_uses(uses: &[UseDep], text: &mut String) -> Result<(), AllocError>
    ensures { OnOk result (string_bytes text.new ≡ string_bytes text.old ++ uses_text uses.now) }
{
    let [first, others @ ..] = uses else {
        return Ok(());
    };
    text.push_str("[")?;
    first.write(text)?;
    write_others(others, text)?;
    text.push_str("]")
}

fn write_others(others: &[UseDep], text: &mut String) -> Result<(), AllocError>
    ensures { OnOk result (string_bytes text.new ≡
        string_bytes text.old ++ flat_map further_use_text others.now) }
{
    for item in others {
        text.push_str(",")?;
        item.write(text)?;
    }
    Ok(())
}

fn before_flag(kind: UseKind) -> &'static str
    ensures { result.now ≡ before_flag kind }
{
    match kind {
        UseKind::On | UseKind::Same | UseKind::OnIfOn => "",
        UseKind::Off => "-",
        UseKind::Opposite | UseKind::OffIfOff => "!",
    }
}

fn after_flag(kind: UseKind) -> &'static str
    ensures { result.now ≡ after_flag kind }
{
    match kind {
        UseKind::On | UseKind::Off => "",
        UseKind::Same | UseKind::Opposite => "=",
        UseKind::OnIfOn | UseKind::OffIfOff => "?",
    }
}

fn otherwise_text(otherwise: Option<bool>) -> &'static str
    ensures { result.now ≡ otherwise_text otherwise }
{
    match otherwise {
        Some(true) => "(+)",
        Some(false) => "(-)",
        None => "",
    }
}

fn agrees(kind: UseKind, asker: bool, value: bool) -> bool
    ensures { result ≡ agrees kind asker value }
{
    match kind {
        UseKind::On => value,
        UseKind::Off => !value,
        UseKind::Same => value == asker,
        UseKind::Opposite => value != asker,
        UseKind::OnIfOn => !asker || value,
        UseKind::OffIfOff => asker || !value,
    }
}
