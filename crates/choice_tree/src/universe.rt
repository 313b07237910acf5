ghost use Rattle.std.specs.Prelude.{◌≡◌};
ghost use Rattle.std.specs.Option.{option_map};
ghost use Rattle.choice_law.specs.Universe.{package_of, standing};
ghost use Rattle.choice_tree.specs.Lines.{value_of_line};
ghost use Rattle.choice_tree.specs.Views.{offer_of, value_of};

use crate::value::Value;
use dep_atom::Atom;
use pkg_state::Pkg;

/// What may stand on one line: what is installed there, nothing, or one of the variants.
#[derive(Drop)]
pub struct Offer {
    pub installed: Option<Pkg>,
    pub variants: Vec<Pkg>,
}

/// What there is to choose from: an offer for each line, in line order, and the atoms of which each
/// is to match a package.
#[derive(Drop)]
pub struct Universe {
    pub offers: Vec<Offer>,
    pub wanted: Vec<Atom>,
    /// A greater version goes before what is installed.
    pub update: bool,
}

impl Offer {
    /// The value of a line that is left as it is.
    pub fn as_is(&self) -> Value
        ensures { value_of result ≡ standing (offer_of self.now).installed }
    {
        match self.installed {
            Some(_) => Value::Keep,
            None => Value::Absent,
        }
    }

    /// The value of a line of which this is decided.
    pub fn value(&self, decided: Option<Value>) -> Value
        ensures { value_of result ≡ value_of_line self.now decided }
    {
        match decided {
            Some(value) => value,
            None => self.as_is(),
        }
    }

    /// The package that a value means, if it means one.
    pub fn package(&self, value: Value) -> Option<&Pkg>
        ensures { option_map (λ p. p.now) result ≡
            package_of (offer_of self.now) (value_of value) }
    {
        match value {
            Value::Keep => self.installed.as_ref(),
            Value::Absent => None,
            Value::Variant(place) => self.variants.get(place),
        }
    }
}
