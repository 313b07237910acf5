ghost use Rattle.std.specs.Prelude.{◌≡◌, IfErr, IfOk, MatchOption, None, Some};
ghost use Rattle.std.specs.List.{AllByRecursion};
ghost use Rattle.md5_cache.specs.FieldFaults.{FirstFieldFault, HasNoOther, IsFirstBad, IsOther};
ghost use Rattle.md5_cache.specs.Fields.{AreFields, AreFieldsOf, IsGood, IsOfEdition, field_of};
ghost use Rattle.md5_cache.specs.Fields.{first_absent, is_class, names_class, value_under};
ghost use Rattle.md5_cache.specs.declared.fault.FieldFault.TheVariants.{Memory};

use crate::fault::FieldFault;
use crate::form::is_in_form;
use crate::pair::Pair;
use basics::Text;
use pkg_state::{Class, Eapi};
use std::alloc::{AllocError, Global};

/// What a key of an entry names.
#[derive(Clone, Copy, Debug)]
pub(crate) enum Field {
    Slot,
    Digest,
    Iuse,
    Required,
    /// A class of dependencies.
    Needs,
    /// A key whose value has no grammar, or one that isn't known.
    Other,
}

/// The edition of the entry, where the pairs are those of one: EAPI, SLOT and `_md5_` are there, and
/// each value is in form. A key that is absent stands for an empty value; that of a class which the
/// edition lacks may have any.
pub fn check_fields(alloc: Global, pairs: &[Pair]) -> Result<Eapi, FieldFault>
    ensures fields { IfOk result (λ e. AreFieldsOf e pairs.now) }
    ensures only { AreFields pairs.now → IfErr result (λ e. e ≡ Memory) }
    ensures fault { IfErr result (FirstFieldFault pairs.now) }
{
    if let Some(text) = other_edition(pairs) {
        return Err(FieldFault::Eapi {
            text: Text::new(alloc, text)?,
        });
    }
    if let Some(key) = first_absent(pairs) {
        return Err(FieldFault::Field {
            key: Text::new(alloc, key)?,
        });
    }
    let Some(edition) = edition_of(pairs) else {
        unreachable!()
    };
    match first_bad(alloc, edition, pairs)? {
        Some(key) => Err(FieldFault::Field {
            key: key.try_clone()?,
        }),
        None => Ok(edition),
    }
}

/// The value of the first pair with the key.
pub fn value_under<'a>(pairs: &'a [Pair], key: &str) -> Option<&'a str>
    ensures { MatchOption result (value_under pairs.now key.now ≡ None)
        (λ v. value_under pairs.now key.now ≡ Some v.now) }
{
    for pair in pairs {
        if pair.key.as_str() == key {
            return Some(pair.value.as_str());
        }
    }
    None
}

/// The edition that EAPI says, where it is one that is read.
fn edition_of(pairs: &[Pair]) -> Option<Eapi>
    ensures { MatchOption result ((e : Eapi) → ¬ IsOfEdition pairs.now e) (IsOfEdition pairs.now) }
{
    Eapi::from_text(value_under(pairs, "EAPI")?)
}

/// The text of EAPI, where it is there and that of no edition which is read.
fn other_edition(pairs: &[Pair]) -> Option<&str>
    ensures { MatchOption result (HasNoOther pairs.now) (λ text. IsOther pairs.now text.now) }
{
    match value_under(pairs, "EAPI") {
        Some(text) if Eapi::from_text(text).is_none() => Some(text),
        _ => None,
    }
}

/// The first of the keys that must be there and isn't.
fn first_absent(pairs: &[Pair]) -> Option<&'static str>
    ensures { MatchOption result (first_absent pairs.now ≡ None)
        (λ key. first_absent pairs.now ≡ Some key.now) }
{
    if value_under(pairs, "EAPI").is_none() {
        return Some("EAPI");
    }
    if value_under(pairs, "SLOT").is_none() {
        return Some("SLOT");
    }
    if value_under(pairs, "_md5_").is_none() {
        return Some("_md5_");
    }
    None
}

/// The key of the first pair whose value isn't in form, in an entry of the edition.
fn first_bad(alloc: Global, edition: Eapi, pairs: &[Pair]) -> Result<Option<&Text>, AllocError>
    ensures { IfOk result (λ r. MatchOption r (AllByRecursion (IsGood edition) pairs.now)
        (λ key. IsFirstBad edition pairs.now key.now)) }
{
    for pair in pairs {
        let field = field_of(edition, pair.key.as_str());
        if !is_in_form(alloc, field, pair.value.as_str())? {
            return Ok(Some(&pair.key));
        }
    }
    Ok(None)
}

fn field_of(edition: Eapi, key: &str) -> Field
    ensures { result ≡ field_of edition key.now }
{
    if key == "SLOT" {
        Field::Slot
    } else if key == "_md5_" {
        Field::Digest
    } else if key == "IUSE" {
        Field::Iuse
    } else if key == "REQUIRED_USE" {
        Field::Required
    } else if is_class(edition, key) {
        Field::Needs
    } else {
        Field::Other
    }
}

fn is_class(edition: Eapi, key: &str) -> bool
    ensures { result ≡ is_class edition key.now }
{
    names_class(edition, key, Class::Rdepend)
        || names_class(edition, key, Class::Pdepend)
        || names_class(edition, key, Class::Depend)
        || names_class(edition, key, Class::Bdepend)
        || names_class(edition, key, Class::Idepend)
}

/// Whether the key is that of a class of dependencies which the edition has.
fn names_class(edition: Eapi, key: &str, class: Class) -> bool
    ensures { result ≡ names_class edition key.now class }
{
    edition.has_class(class) && key == class.word()
}
