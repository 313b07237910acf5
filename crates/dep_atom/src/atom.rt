ghost use Rattle.std.specs.Prelude.{◌≡◌, ◌++◌, Some, IfErr, IfOk, MatchResult, OnOk, string_bytes};
ghost use Rattle.std.specs.List.{list_all};
ghost use Rattle.dep_atom.specs.Match.{accepts_version, version_fits, accepts_use, matches};
ghost use Rattle.dep_atom.specs.Text.{block_text, op_text, name_text, version_part, star_text};
ghost use Rattle.dep_atom.specs.Text.{atom_text, keeps_equals};
ghost use Rattle.dep_atom.specs.Values.{atom_value, with_slot};
ghost use Rattle.dep_atom.specs.declared.slot.SlotPart.TheVariants.{Given};

use crate::fault::AtomFault;
use crate::package::Facts;
use crate::reading::{
    Package, read_package, read_slot, read_uses, split_before, take_block, take_op,
};
use crate::slot::{Bind, SlotPart};
use crate::uses::{UseDep, clone_uses, write_uses};
use pms_names::{Flags, Name};
use pms_version::Version;
use std::alloc::{AllocError, Global};

/// Whether an atom blocks what it matches (PMS 8.3.2).
#[derive(Clone, Copy, Debug)]
pub enum Block {
    No,
    /// `!`
    Weak,
    /// `!!`
    Strong,
}

/// How the version of an atom is compared (PMS 8.3.1).
#[derive(Clone, Copy, Debug)]
pub enum Op {
    /// No operator is written, and no version.
    Any,
    /// `<`
    Less,
    /// `<=`
    LessEqual,
    /// `=`
    Equal,
    /// `~`: all but the revision is equal.
    Similar,
    /// `>=`
    GreaterEqual,
    /// `>`
    Greater,
}

/// One package atom of a dependency.
#[derive(Debug, Drop)]
pub struct Atom {
    pub block: Block,
    pub op: Op,
    pub name: Name,
    pub version: Option<Version>,
    /// An asterisk stands behind the version.
    pub star: bool,
    pub slot: SlotPart,
    pub uses: Vec<UseDep>,
}

impl Atom {
    ghost use Rattle.dep_atom.specs.Text.{atom_text, value_text, keeps_equals};
    ghost use Rattle.dep_atom.specs.Atoms.{IsAtom, IsAtomValue};
    ghost use Rattle.dep_atom.specs.Values.{AtomValue, atom_value, with_slot};
    ghost use Rattle.dep_atom.specs.Faults.{FirstFault};
    ghost use Rattle.dep_atom.specs.declared.fault.AtomFault.TheVariants.{Memory};

    /// Does the package meet what the atom asks, of an asker with these flags? A block matches
    /// what it blocks.
    pub fn matches(&self, target: &Facts, asker: &Flags) -> bool
        ensures { result ≡ matches self.now target.now asker.now }
    {
        self.name == target.id.name
            && self.accepts_version(&target.id.version)
            && self.slot.accepts(&target.slot, &target.subslot)
            && self.accepts_uses(target, asker)
    }

    /// Reads the whole text as one atom.
    pub fn parse(alloc: Global, text: &str) -> Result<Atom, AtomFault>
        ensures found { IfOk result (λ atom. text.now ≡ atom_text atom) }
        ensures form { IfOk result IsAtom }
        ensures only { (a : AtomValue) → IsAtomValue a → text.now ≡ value_text a →
            MatchResult result (λ r. atom_value r ≡ a) (λ e. e ≡ Memory) }
        ensures fault { IfErr result (FirstFault text.now) }
    {
        let total = text.len();
        let (block, rest) = take_block(text.as_bytes());
        let (op, rest) = take_op(rest);
        let (body, rest) = split_before(rest, b':', b'[');
        let (slot, rest) = split_before(rest, b'[', b'[');
        let package = match read_package(alloc, op, body) {
            Ok(package) => package,
            Err(fault) => return Err(fault),
        };
        let slot = match read_slot(alloc, slot) {
            Ok(slot) => slot,
            Err(fault) => return Err(fault),
        };
        let uses = match read_uses(alloc, rest, total) {
            Ok(uses) => uses,
            Err(fault) => return Err(fault),
        };
        let Package {
            name,
            version,
            star,
        } = package;
        Ok(Atom {
            block,
            op,
            name,
            version,
            star,
            slot,
            uses,
        })
    }

    /// The one spelling of the atom.
    pub fn print(&self, alloc: Global) -> Result<String, AllocError>
        ensures { IfOk result (λ text. string_bytes text ≡ atom_text self.now) }
    {
        let mut text = String::new(alloc);
        text.push_str(block_text(self.block))?;
        text.push_str(op_text(self.op))?;
        self.write_name(&mut text)?;
        self.write_version(&mut text)?;
        self.slot.write(&mut text)?;
        write_uses(self.uses.as_slice(), &mut text)?;
        Ok(text)
    }

    /// The atom with this slot and subslot written, and with its equals sign kept.
    pub fn bind(&self, to: &Bind) -> Result<Atom, AllocError>
        ensures { IfOk result (λ atom. atom_value atom ≡ with_slot
            (Given to.now.slot (Some to.now.subslot) (keeps_equals self.now.slot))
            (atom_value self.now)) }
    {
        let slot = to.slot.try_clone()?;
        let subslot = to.subslot.try_clone()?;
        self.with_slot(SlotPart::Given {
            slot,
            subslot: Some(subslot),
            equals: self.slot.keeps_equals(),
        })
    }

    pub fn try_clone(&self) -> Result<Atom, AllocError>
        ensures { IfOk result (λ atom. atom_value atom ≡ atom_value self.now) }
    {
        let slot = self.slot.try_clone()?;
        self.with_slot(slot)
    }

    /// The same atom, in memory of its own, with this slot part.
    pub fn with_slot(&self, slot: SlotPart) -> Result<Atom, AllocError>
        ensures { IfOk result (λ atom. atom_value atom ≡ with_slot slot (atom_value self.now)) }
    {
        let name = self.name.try_clone()?;
        let version = clone_version(&self.version)?;
        let uses = clone_uses(*self.uses.allocator(), self.uses.as_slice())?;
        Ok(Atom {
            block: self.block,
            op: self.op,
            name,
            version,
            star: self.star,
            slot,
            uses,
        })
    }

    fn write_name(&self, text: &mut String) -> Result<(), AllocError>
        ensures { OnOk result (string_bytes text.new ≡
            string_bytes text.old ++ name_text self.now.name) }
    {
        text.push_str(self.name.category.text())?;
        text.push_str("/")?;
        text.push_str(self.name.package.text())
    }

    fn write_version(&self, text: &mut String) -> Result<(), AllocError>
        ensures { OnOk result (string_bytes text.new ≡
            string_bytes text.old ++ (version_part self.now.version ++ star_text self.now.star)) }
    {
        if let Some(version) = &self.version {
            text.push_str("-")?;
            text.push_str(version.text())?;
        }
        text.push_str(if self.star { "*" } else { "" })
    }

    fn accepts_version(&self, candidate: &Version) -> bool
        ensures { result ≡
            accepts_version self.now.op self.now.star self.now.version candidate.now }
    {
        match &self.version {
            Some(version) => version_fits(self.op, self.star, version, candidate),
            None => true,
        }
    }

    fn accepts_uses(&self, target: &Facts, asker: &Flags) -> bool
        ensures { result ≡ list_all
            (accepts_use target.now.iuse target.now.enabled asker.now) self.now.uses.items }
    {
        self.uses.iter().all(|item| item.accepts(target, asker))
    }
}

fn clone_version(version: &Option<Version>) -> Result<Option<Version>, AllocError>
    ensures { IfOk result (λ copy. copy ≡ version.now) }
{
    match version {
        Some(version) => Ok(Some(version.try_clone()?)),
        None => Ok(None),
    }
}

fn version_fits(op: Op, star: bool, version: &Version, candidate: &Version) -> bool
    ensures { result ≡ version_fits op star version.now candidate.now }
{
    match op {
        Op::Any => true,
        Op::Less => candidate.compare(version).is_lt(),
        Op::LessEqual => candidate.compare(version).is_le(),
        Op::Equal if star => version.begins(candidate),
        Op::Equal => candidate.compare(version).is_eq(),
        Op::Similar => candidate.equal_without_revision(version),
        Op::GreaterEqual => candidate.compare(version).is_ge(),
        Op::Greater => candidate.compare(version).is_gt(),
    }
}

fn block_text(block: Block) -> &'static str
    ensures { result.now ≡ block_text block }
{
    match block {
        Block::No => "",
        Block::Weak => "!",
        Block::Strong => "!!",
    }
}

fn op_text(op: Op) -> &'static str
    ensures { result.now ≡ op_text op }
{
    match op {
        Op::Any => "",
        Op::Less => "<",
        Op::LessEqual => "<=",
        Op::Equal => "=",
        Op::Similar => "~",
        Op::GreaterEqual => ">=",
        Op::Greater => ">",
    }
}
