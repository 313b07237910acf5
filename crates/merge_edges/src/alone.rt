ghost use Rattle.std.specs.Prelude.{◌≡◌};
ghost use Rattle.std.specs.Coded.{codes};
ghost use Rattle.std.specs.List.{list_any};
ghost use Rattle.pkg_state.specs.Codes.{trees_code};
ghost use Rattle.dep_atom.specs.Values.{atom_value};
ghost use Rattle.choice_tree.specs.Keys.{offers_in};
ghost use Rattle.choice_tree.specs.Seen.{places_of};
ghost use Rattle.merge_edges.specs.Found.{alone_in, is_hit};

use crate::stander::is_hit;
use choice_tree::Around;
use dep_atom::Atom;
use dep_tree::Present;
use pms_names::Flags;

/// What is installed, but with one line as the choice has it.
#[derive(Drop)]
pub(crate) struct Alone<'x, 'p, 'a> {
    pub(crate) before: &'x Around<'p, 'a>,
    pub(crate) after: &'x Around<'p, 'a>,
    pub(crate) line: usize,
    ghost same_offers: { offers_in (places_of before.now.places.now) ≡
        offers_in (places_of after.now.places.now) } by { Prim.hlevel (codes, trees_code) },
}

impl<'x, 'p, 'a> Alone<'x, 'p, 'a> {
    fn matches_on(&self, line: usize, atom: &Atom, asker: &Flags) -> bool
        ensures { result ≡ is_hit (alone_in (places_of self.now.before.now.places.now)
            (places_of self.now.after.now.places.now) self.now.line) asker.now
            (atom_value atom.now) line }
    {
        if line == self.line {
            return is_hit(self.after.places, line, asker, atom);
        }
        is_hit(self.before.places, line, asker, atom)
    }

    fn any_hit(&self, lines: &[usize], atom: &Atom, asker: &Flags) -> bool
        ensures { result ≡ list_any (is_hit (alone_in (places_of self.now.before.now.places.now)
            (places_of self.now.after.now.places.now) self.now.line) asker.now
            (atom_value atom.now)) lines.now }
    {
        for line in lines {
            if self.matches_on(*line, atom, asker) {
                return true;
            }
        }
        false
    }
}

impl<'x, 'p, 'a> Present for Alone<'x, 'p, 'a> {
    ghost use Rattle.pkg_state.specs.Consistent.{facts_of};
    ghost use Rattle.choice_tree.specs.Places.{packages_in};
    ghost use Rattle.choice_tree.specs.Seen.{places_of};
    ghost use Rattle.merge_edges.specs.Found.{alone_in};

    ghost facts = { λ x. facts_of (packages_in (alone_in (places_of x.before.now.places.now)
        (places_of x.after.now.places.now) x.line)) };

    fn some_match(&self, atom: &Atom, asker: &Flags) -> bool {
        let lines = self.before.lines_named(atom.name.package.text());
        self.any_hit(lines, atom, asker)
    }
}
