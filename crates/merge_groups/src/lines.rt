ghost use Rattle.std.specs.Prelude.{◌≡◌, ◌++◌, IfOk, OnOk, map};
ghost use Rattle.std.specs.Option.{option_map};
ghost use Rattle.choice_law.specs.Universe.{as_list};
ghost use Rattle.choice_tree.specs.Views.{offer_of, universe_of, value_of};
ghost use Rattle.merge_groups.specs.Changes.{arriving, leaving, part_of, those};

use crate::part::Part;
use choice_tree::{Choice, Offer, Universe, Value};
use pkg_state::Pkg;
use std::alloc::{AllocError, Global};

fn leaving(offer: &Offer, value: Value) -> Option<&Pkg>
    ensures { option_map (λ p. p.now) result ≡ leaving (offer_of offer.now) (value_of value) }
{
    match value {
        Value::Keep => None,
        Value::Absent | Value::Variant(_) => offer.installed.as_ref(),
    }
}

fn arriving(offer: &Offer, value: Value) -> Option<&Pkg>
    ensures { option_map (λ p. p.now) result ≡ arriving (offer_of offer.now) (value_of value) }
{
    match value {
        Value::Keep | Value::Absent => None,
        Value::Variant(place) => offer.variants.get(place),
    }
}

fn part_of(part: Part, offer: &Offer, value: Value) -> Option<&Pkg>
    ensures { option_map (λ p. p.now) result ≡ part_of part (offer_of offer.now) (value_of value) }
{
    match part {
        Part::Going => leaving(offer, value),
        Part::Coming => arriving(offer, value),
        Part::Standing => offer.package(value),
    }
}

/// Puts the package that is asked for behind others, if there is one.
fn push_part<'a>(
    part: Part,
    offer: &'a Offer,
    value: Value,
    out: &mut Vec<&'a Pkg>,
) -> Result<(), AllocError>
    ensures { OnOk result (map (λ p. p.now) out.new.items ≡
        map (λ p. p.now) out.old.items ++
        as_list (part_of part (offer_of offer.now) (value_of value))) }
{
    if let Some(one) = part_of(part, offer, value) {
        out.push(one)?;
    }
    Ok(())
}

/// The packages that are asked for, of all lines.
pub(crate) fn those<'a>(
    alloc: Global,
    part: Part,
    universe: &'a Universe,
    choice: &Choice,
) -> Result<Vec<&'a Pkg>, AllocError>
    ensures { IfOk result (λ v. map (λ p. p.now) v.items ≡
        those part (universe_of universe.now) choice.now) }
{
    let mut out = Vec::new(alloc);
    for (line, offer) in universe.offers.iter().enumerate() {
        let value = offer.value(choice.decided(line));
        push_part(part, offer, value, &mut out)?;
    }
    Ok(out)
}
