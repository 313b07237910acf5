ghost use Rattle.std.specs.Prelude.{◌≡◌};
ghost use Rattle.choice_tree.specs.Keys.{AreKeyed, lines_at, offers_in};
ghost use Rattle.choice_tree.specs.Seen.{places_of};
ghost use Rattle.choice_tree.specs.declared.key.Key.TheVariants.{Own, Whole};

use crate::keyed::Keyed;
use crate::place::Place;
use crate::places::any_matches;
use dep_atom::Atom;
use dep_tree::Present;
use pms_names::Flags;

/// The lines under a choice, with those under the names and the texts that their packages may have.
#[derive(Drop)]
pub struct Around<'p, 'a> {
    pub places: &'p [Place<'a>],
    named: &'p Keyed,
    told: &'p Keyed,
    ghost are_named: { AreKeyed Own (offers_in (places_of places.now)) named.now.lists },
    ghost are_told: { AreKeyed Whole (offers_in (places_of places.now)) told.now.lists },
}

impl<'p, 'a> Around<'p, 'a> {
    /// These lines, with the lists of them by the names and by the texts.
    pub fn new(places: &'p [Place<'a>], named: &'p Keyed, told: &'p Keyed) -> Around<'p, 'a>
        requires named { AreKeyed Own (offers_in (places_of places.now)) named.now.lists }
        requires told { AreKeyed Whole (offers_in (places_of places.now)) told.now.lists }
        ensures { result.places.now ≡ places.now }
    {
        Around {
            places,
            named,
            told,
        }
    }

    /// The lines that may have a package of this name.
    pub fn lines_named(&self, name: &str) -> &[usize]
        ensures { result.now ≡ lines_at self.now.named.now.lists name.now }
    {
        self.named.get(name)
    }

    /// The lines that may have a package of this text.
    pub(crate) fn lines_told(&self, text: &str) -> &[usize]
        ensures { result.now ≡ lines_at self.now.told.now.lists text.now }
    {
        self.told.get(text)
    }
}

impl<'p, 'a> Present for Around<'p, 'a> {
    ghost use Rattle.pkg_state.specs.Consistent.{facts_of};
    ghost use Rattle.choice_tree.specs.Places.{packages_in};
    ghost use Rattle.choice_tree.specs.Seen.{places_of};

    ghost facts = { λ around. facts_of (packages_in (places_of around.places.now)) };

    fn some_match(&self, atom: &Atom, asker: &Flags) -> bool {
        let lines = self.lines_named(atom.name.package.text());
        any_matches(self.places, lines, atom, asker)
    }
}
