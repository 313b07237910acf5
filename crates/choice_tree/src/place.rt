ghost use Rattle.std.specs.Prelude.{◌≡◌, IfOk};
ghost use Rattle.std.specs.Coded.{codes};
ghost use Rattle.pkg_state.specs.Codes.{trees_code};
ghost use Rattle.std.specs.Option.{option_map};
ghost use Rattle.choice_law.specs.Universe.{is_new};
ghost use Rattle.choice_tree.specs.Lines.{package_of_line, value_of_line};
ghost use Rattle.choice_tree.specs.Views.{value_of};

use crate::standing::Standing;
use crate::universe::Offer;
use crate::value::Value;
use std::alloc::{AllocError, Global};

/// A line under a choice: its offer, what is decided, and what stands there.
#[derive(Drop)]
pub struct Place<'a> {
    pub offer: &'a Offer,
    pub decided: Option<Value>,
    pub standing: Option<Standing<'a>>,
    ghost stands: { option_map (λ s. s.owner.now) standing ≡
        package_of_line offer.now decided } by { Prim.hlevel (codes, trees_code) },
    ghost newness: { option_map (λ s. s.is_new) standing ≡
        option_map (λ _. is_new (value_of_line offer.now decided))
        (package_of_line offer.now decided) },
}

fn is_new(value: Value) -> bool
    ensures { result ≡ is_new (value_of value) }
{
    match value {
        Value::Variant(_) => true,
        Value::Keep | Value::Absent => false,
    }
}

impl<'a> Place<'a> {
    /// A line of which this is decided, with what stands there then.
    pub fn new(
        alloc: Global,
        offer: &'a Offer,
        decided: Option<Value>,
    ) -> Result<Place<'a>, AllocError>
        ensures offer { IfOk result (λ p. p.offer.now ≡ offer.now) }
        ensures decided { IfOk result (λ p. p.decided ≡ decided) }
    {
        let value = offer.value(decided);
        let standing = match offer.package(value) {
            Some(owner) => Some(Standing::new(alloc, owner, is_new(value))?),
            None => None,
        };
        Ok(Place {
            offer,
            decided,
            standing,
        })
    }
}
