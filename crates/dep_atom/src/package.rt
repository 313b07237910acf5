ghost use Rattle.std.specs.Prelude.{◌≡◌, ◌↔◌, ℕ, IfOk, IfErr, IsTrue, MatchResult, MatchOption};
ghost use Rattle.std.specs.Prelude.{string_bytes};
ghost use Rattle.dep_atom.specs.Ids.{FirstIdFault, IsId, PackageFault, PartsAt, name_and_version};
ghost use Rattle.dep_atom.specs.Ids.{name_fault};
ghost use Rattle.dep_atom.specs.Naming.{IsReadableText, PackageThen};
ghost use Rattle.dep_atom.specs.declared.fault.AtomFault.TheVariants.{Memory};

use crate::fault::AtomFault;
use crate::naming::{begins_package_number, read_package_version};
use pms_names::{Category, Flags, Name, NameFault, PackageName, SlotName};
use pms_version::Version;
use std::alloc::{AllocError, Global};
use std::cmp::Ordering;

/// One package of one version, as `category/package-version`.
#[derive(Debug, Drop)]
pub struct PackageId {
    pub name: Name,
    pub version: Version,
}

/// What an atom asks of a package.
#[derive(Debug, Drop)]
pub struct Facts {
    pub id: PackageId,
    pub slot: SlotName,
    pub subslot: SlotName,
    /// The flags that the package knows.
    pub iuse: Flags,
    /// The flags that it was built with, or would be.
    pub enabled: Flags,
}

impl PackageId {
    ghost use Rattle.dep_atom.specs.Ids.{FirstIdFault, IsId, IsIdOf, IsNoId, id_text};
    ghost use Rattle.dep_atom.specs.Ids.{name_and_version, version_rank};
    ghost use Rattle.dep_atom.specs.declared.package.PackageId.{PackageId as Id};

    /// Reads a category, and a package's name with a hyphen and its version.
    pub fn parse(alloc: Global, category: &str, pf: &str) -> Result<PackageId, AtomFault>
        ensures found { IfOk result (λ id. IsId id × (category.now ≡ id.name.category) ×
            (pf.now ≡ name_and_version id)) }
        ensures only { (id : Id) → IsId id → category.now ≡ id.name.category →
            pf.now ≡ name_and_version id → MatchResult result (λ r. r ≡ id) (λ e. e ≡ Memory) }
        ensures fault { IfErr result (FirstIdFault category.now pf.now) }
    {
        let category = match Category::parse(alloc, category) {
            Ok(category) => category,
            Err(fault) => return Err(name_fault(fault)),
        };
        let pf = pf.as_bytes();
        match read_package_version(alloc, pf) {
            Ok(Some((package, version))) => Ok(PackageId {
                name: Name { category, package },
                version,
            }),
            Ok(None) => Err(package_fault(pf)),
            Err(_) => Err(AtomFault::Memory),
        }
    }

    /// The package whose text this is, as `category/package-version`.
    pub fn from_text(alloc: Global, text: &str) -> Result<Option<PackageId>, AllocError>
        ensures { IfOk result (λ r. MatchOption r (IsNoId text.now) (IsIdOf text.now)) }
    {
        let Some((category, pf)) = text.split_once('/') else {
            return Ok(None);
        };
        match PackageId::parse(alloc, category, pf) {
            Ok(id) => Ok(Some(id)),
            Err(fault) => match fault {
                AtomFault::Memory => Err(AllocError),
                _ => Ok(None),
            },
        }
    }

    /// The package as `category/package-version`.
    pub fn print(&self, alloc: Global) -> Result<String, AllocError>
        ensures { IfOk result (λ text. string_bytes text ≡ id_text self.now) }
    {
        let category = self.name.category.text();
        let package = self.name.package.text();
        let version = self.version.text();
        format!(in alloc; "{category}/{package}-{version}")
    }

    pub fn try_clone(&self) -> Result<PackageId, AllocError>
        ensures { IfOk result (λ id. id ≡ self.now) }
    {
        let name = self.name.try_clone()?;
        let version = self.version.try_clone()?;
        Ok(PackageId { name, version })
    }

    /// Whether both are one version of one name. A version is its text here: `1.0` isn't `1.00`.
    pub fn is_same(&self, other: &PackageId) -> bool
        ensures { IsTrue result ↔ (self.now ≡ other.now) }
    {
        self.name == other.name && same_version(&self.version, &other.version)
    }

    /// By the version, the greater first, and of equal ones by their texts.
    pub fn rank(&self, other: &PackageId) -> Ordering
        ensures { result ≡ version_rank self.now other.now }
    {
        pms_version::order_is_that_of_keys();
        let first = self.version.text();
        let second = other.version.text();
        other.version.compare(&self.version).then(first.cmp(second))
    }
}

// Whether they have one text, which is to be one version.
fn same_version(a: &Version, b: &Version) -> bool
    ensures { IsTrue result ↔ (a.now ≡ b.now) }
{
    a.text() == b.text()
}

// Why a text is no package's name and version.
fn package_fault(text: &[u8]) -> AtomFault
    requires { ¬ PackageThen IsReadableText text.now }
    ensures { PackageFault text.now result }
{
    if PackageName::is_one(text) || begins_package_number(text) {
        AtomFault::Version
    } else {
        AtomFault::Name
    }
}

/// The hyphen that parts a name and its version. No two hyphens of a text do.
pub(crate) fn version_hyphen(bytes: &[u8]) -> Option<usize>
    ensures { MatchOption result ((at : ℕ) → ¬ PartsAt bytes.now at) (PartsAt bytes.now) }
{
    for (at, b) in bytes.iter().enumerate() {
        if *b == b'-' {
            let (_, behind) = bytes.split_at(at + 1);
            if pms_grammar::is_version(behind) {
                return Some(at);
            }
        }
    }
    None
}

/// A fault of a name, in an atom.
pub(crate) fn name_fault(fault: NameFault) -> AtomFault
    ensures { result ≡ name_fault fault }
{
    match fault {
        NameFault::Memory => AtomFault::Memory,
        _ => AtomFault::Name,
    }
}
