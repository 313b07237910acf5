ghost use Rattle.std.specs.Prelude.{◌≡◌, codes, IfOk};
ghost use Rattle.dep_group.specs.Words.{words_of};
ghost use Rattle.dep_tree.specs.View.{trees};
ghost use Rattle.required_use.specs.Texts as expressions;
ghost use Rattle.required_use.specs.View.{trees as required_trees};
ghost use Rattle.pms_slot.specs.Slots.{IsSlotValue};
ghost use Rattle.use_flags.specs.Items.{last_is_on, names_flag};
ghost use Rattle.pkg_state.specs.Eapis.{empty_holds};
ghost use Rattle.md5_cache.specs.Entries.{HasJust, Needs, Tells, TellsNeeds, items_of};
ghost use Rattle.md5_cache.specs.Entries.{needs_text, value_of};
ghost use Rattle.md5_cache.specs.Fields.{AreFields, AreFieldsOf, IsOfEdition};

use crate::entry::CacheEntry;
use crate::field::value_under;
use crate::pair::Pair;
use basics::Text;
use dep_atom::{Facts, PackageId};
use dep_group::words;
use dep_tree::DepTree;
use pkg_state::{Class, Eapi, Pkg};
use pms_names::Flags;
use pms_slot::SlotValue;
use required_use::RequiredUse;
use std::alloc::{AllocError, Global};
use use_flags::Iuse;

/// The entry that pairs of fields tell. What is in form is read but for want of memory.
pub(crate) fn entry_of(
    alloc: Global,
    id: PackageId,
    edition: Eapi,
    pairs: &[Pair],
) -> Result<CacheEntry, AllocError>
    requires { AreFieldsOf edition pairs.now }
    ensures { IfOk result (λ e. Tells pairs.now id e) }
{
    let keywords = keywords_of(alloc, pairs)?;
    let slots = slots_of(alloc, pairs)?;
    let iuse = iuse_of(alloc, pairs)?;
    let facts = Facts {
        id,
        slot: slots.slot,
        subslot: slots.subslot,
        iuse: iuse.flags,
        enabled: Flags::new(alloc),
    };
    let pkg = package_of(alloc, facts, edition, pairs)?;
    Ok(CacheEntry {
        pkg,
        iuse_on: iuse.on,
        keywords,
    })
}

/// The package of these facts, with what it needs.
fn package_of(alloc: Global, facts: Facts, edition: Eapi, pairs: &[Pair]) -> Result<Pkg, AllocError>
    requires { IsOfEdition pairs.now edition }
    ensures facts { IfOk result (λ p. p.facts ≡ facts) }
    ensures needs { IfOk result (λ p. TellsNeeds pairs.now p) }
{
    let rdepend = needs_of(alloc, pairs, edition, Class::Rdepend)?;
    let pdepend = needs_of(alloc, pairs, edition, Class::Pdepend)?;
    let depend = needs_of(alloc, pairs, edition, Class::Depend)?;
    let bdepend = needs_of(alloc, pairs, edition, Class::Bdepend)?;
    let idepend = needs_of(alloc, pairs, edition, Class::Idepend)?;
    let required_use = required_of(alloc, pairs, edition)?;
    Ok(Pkg {
        facts,
        eapi: edition,
        rdepend,
        pdepend,
        depend,
        bdepend,
        idepend,
        required_use,
    })
}

fn needs_of(
    alloc: Global,
    pairs: &[Pair],
    edition: Eapi,
    class: Class,
) -> Result<DepTree, AllocError>
    ensures { IfOk result (λ t. Needs pairs.now edition class (trees t)) }
{
    let text = needs_text(pairs, edition, class);
    match DepTree::parse(alloc, text, edition.empty_holds()) {
        Ok(tree) => Ok(tree),
        Err(_) => Err(AllocError),
    }
}

/// The text of a class of dependencies, which is empty where the edition lacks the class.
fn needs_text<'a>(pairs: &'a [Pair], edition: Eapi, class: Class) -> &'a str
    ensures { result.now ≡ needs_text pairs.now edition class }
{
    if edition.has_class(class) {
        value_of(pairs, class.word())
    } else {
        ""
    }
}

fn required_of(alloc: Global, pairs: &[Pair], edition: Eapi) -> Result<RequiredUse, AllocError>
    ensures { IfOk result (λ r. expressions.Writes (empty_holds edition)
        (value_of pairs.now (codes "REQUIRED_USE")) (required_trees r)) }
{
    let text = value_of(pairs, "REQUIRED_USE");
    match RequiredUse::parse(alloc, text, edition.empty_holds()) {
        Ok(required) => Ok(required),
        Err(_) => Err(AllocError),
    }
}

fn iuse_of(alloc: Global, pairs: &[Pair]) -> Result<Iuse, AllocError>
    ensures known { IfOk result (λ r. HasJust r.flags (names_flag (items_of pairs.now))) }
    ensures on { IfOk result (λ r. HasJust r.on (last_is_on (items_of pairs.now))) }
{
    match Iuse::parse(alloc, value_of(pairs, "IUSE")) {
        Ok(iuse) => Ok(iuse),
        Err(_) => Err(AllocError),
    }
}

fn slots_of(alloc: Global, pairs: &[Pair]) -> Result<SlotValue, AllocError>
    requires { AreFields pairs.now }
    ensures { IfOk result (λ v.
        IsSlotValue (value_of pairs.now (codes "SLOT")) v.slot v.subslot) }
{
    match SlotValue::read(alloc, value_of(pairs, "SLOT").as_bytes())? {
        Some(slots) => Ok(slots),
        None => unreachable!(),
    }
}

fn keywords_of(alloc: Global, pairs: &[Pair]) -> Result<Vec<Text>, AllocError>
    ensures { IfOk result (λ v. v.items ≡ words_of (value_of pairs.now (codes "KEYWORDS"))) }
{
    let words = words(alloc, value_of(pairs, "KEYWORDS"))?;
    let mut keywords = Vec::with_capacity(alloc, words.len())?;
    for word in &words {
        keywords.push(Text::new(alloc, word.text)?)?;
    }
    Ok(keywords)
}

/// The value of the key, which is empty where the key is absent.
pub(crate) fn value_of<'a>(pairs: &'a [Pair], key: &str) -> &'a str
    ensures { result.now ≡ value_of pairs.now key.now }
{
    match value_under(pairs, key) {
        Some(value) => value,
        None => "",
    }
}
