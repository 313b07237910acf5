ghost use Rattle.std.specs.Prelude.{◌≡◌, ◌∷◌, [], IfOk, OnOk, List, map, reverse};
ghost use Rattle.std.specs.Prelude.{if◌then◌else◌};
ghost use Rattle.std.specs.Coded.{codes};
ghost use Rattle.std.specs.Option.{option_map};
ghost use Rattle.dep_atom.specs.Values.{atom_value};
ghost use Rattle.pkg_state.specs.Codes.{trees_code};
ghost use Rattle.pkg_state.specs.Consistent.{facts_of};
ghost use Rattle.pkg_state.specs.Fault.{lacking_leaf};
ghost use Rattle.choice_law.specs.Possible.{judged_among};
ghost use Rattle.choice_law.specs.Tree.{Choice as Decisions, decided};
ghost use Rattle.choice_tree.specs.Codes.{value_code};
ghost use Rattle.choice_tree.specs.Keys.{AreKeyed, offers_in};
ghost use Rattle.choice_tree.specs.Open.{first_open, obligation_of};
ghost use Rattle.choice_tree.specs.Options.{options};
ghost use Rattle.choice_tree.specs.Places.{places as places_under};
ghost use Rattle.choice_tree.specs.Seen.{places_of};
ghost use Rattle.choice_tree.specs.Steps.{after, decision_as};
ghost use Rattle.choice_tree.specs.Tree.{tree_reason, tried_for, tried_options};
ghost use Rattle.choice_tree.specs.Views.{universe_of, value_of};
ghost use Rattle.choice_tree.specs.declared.key.Key.TheVariants.{Leaf, Own, Whole};
ghost use Rattle.choice_walk.specs.Settled.{AreSettled};
ghost use Rattle.choice_walk.specs.Way.{AreBefore, Holds, IsUndone, above, here};

use crate::branching::{held_line, steps_of};
use crate::marks::Marked;
use crate::places::all_places;
use crate::possible::{is_hopeless, lacking_leaf};
use crate::reasons::reason_of;
use crate::settling::all_lines;
use crate::taking_up::first_of_all;
use crate::trail::{choice_at, last, newest};
use crate::turn::Turn;
use crate::turning::turn;
use choice_tree::{Around, Choice, Decision, Key, Keyed, Obligation, Place, Step, Universe, Value};
use dep_atom::Atom;
use pkg_state::{Class, Pkg};
use std::alloc::{AllocError, Global};
use std::collections::BTreeSet;

/// A walk through the choices of a universe. It is at a choice, goes on from there to an option,
/// and goes back; what it knows of the lines it keeps, and looks anew only at those of which
/// something else is decided. A line of whose package nothing is open isn't judged again until
/// something that concerns it has changed.
#[derive(Drop)]
pub struct Walk<'u> {
    pub universe: &'u Universe,
    trail: Vec<Turn>,
    places: Vec<Place<'u>>,
    named: Keyed,
    told: Keyed,
    leaves: Keyed,
    /// The lines that may have something open.
    unsettled: BTreeSet<usize>,
    ghost offered: { offers_in (places_of places.items) ≡
        (universe_of universe.now).offers } by { Prim.hlevel (codes, trees_code) },
    ghost are_named: { AreKeyed Own (universe_of universe.now).offers named.lists },
    ghost are_told: { AreKeyed Whole (universe_of universe.now).offers told.lists },
    ghost are_leaves: { AreKeyed Leaf (universe_of universe.now).offers leaves.lists },
    ghost are_settled: { AreSettled places.items unsettled },
    ghost there: { places_of places.items ≡ places_under (universe_of universe.now)
        (here trail.items) } by { Prim.hlevel (codes, trees_code, value_code) },
    ghost before: { AreBefore (universe_of universe.now)
        (reverse trail.items) } by { Prim.hlevel (codes, value_code) },
}

impl<'u> Walk<'u> {
    /// A walk that begins where nothing is decided.
    pub fn new(alloc: Global, universe: &'u Universe) -> Result<Walk<'u>, AllocError>
        ensures over { IfOk result (λ walk. walk.universe.now ≡ universe.now) }
        ensures trail { IfOk result (λ walk. walk.trail.items ≡ []) }
    {
        let nothing = Choice::new(alloc);
        let places = all_places(alloc, universe, &nothing)?;
        let named = Keyed::new(alloc, universe, Key::Own)?;
        let told = Keyed::new(alloc, universe, Key::Whole)?;
        let leaves = Keyed::new(alloc, universe, Key::Leaf)?;
        let unsettled = all_lines(alloc, places.len())?;
        let trail = Vec::new(alloc);
        Ok(Walk {
            universe,
            trail,
            places,
            named,
            told,
            leaves,
            unsettled,
        })
    }

    /// A walk that has come to a choice.
    pub(crate) fn to(
        alloc: Global,
        universe: &'u Universe,
        choice: &Choice,
    ) -> Result<Walk<'u>, AllocError>
        ensures over { IfOk result (λ walk. walk.universe.now ≡ universe.now) }
        ensures here { IfOk result (λ walk. here walk.trail.items ≡ choice.now) }
    {
        let mut walk = Walk::new(alloc, universe)?;
        walk.decide_all(alloc, choice.decisions())?;
        Ok(walk)
    }

    /// What is decided of a line, if anything is.
    pub fn decided(&self, line: usize) -> Option<Value>
        ensures { option_map value_of result ≡ decided (here self.now.trail.items) line }
    {
        if line < self.places.len() {
            return self.places[line].decided;
        }
        newest(&self.trail, line)
    }

    /// The choice where it is.
    pub fn choice(&self, alloc: Global) -> Result<Choice, AllocError>
        ensures { IfOk result (λ choice. choice ≡ here self.now.trail.items) }
    {
        choice_at(alloc, &self.trail)
    }

    /// Decides a line. `begins` tells whether a step begins so.
    fn decide(&mut self, alloc: Global, decision: Decision, begins: bool) -> Result<(), AllocError>
        ensures same { self.new.universe ≡ self.old.universe }
        ensures here { OnOk result (here self.new.trail.items ≡
            decision_as decision ∷ here self.old.trail.items) }
        ensures above { OnOk result (above self.new.trail.items ≡ (if begins
            then here self.old.trail.items ∷ above self.old.trail.items
            else above self.old.trail.items)) }
    {
        let before = self.decided(decision.line);
        let (line, value) = (decision.line, Some(decision.value));
        self.trail.push(Turn {
            decision,
            before,
            begins,
        })?;
        let places = &mut self.places;
        match turn(
            alloc,
            places,
            &mut self.unsettled,
            &self.leaves,
            &self.told,
            line,
            value,
        ) {
            Ok(()) => Ok(()),
            Err(e) => {
                self.trail.pop();
                Err(e)
            }
        }
    }

    /// Takes these decisions over, of which the oldest comes last.
    fn decide_all(&mut self, alloc: Global, decisions: &[Decision]) -> Result<(), AllocError>
        requires { self.old.trail.items ≡ [] }
        ensures same { self.new.universe ≡ self.old.universe }
        ensures here { OnOk result (here self.new.trail.items ≡ map decision_as decisions.now) }
    {
        let mut left = decisions.len();
        while left > 0 {
            left -= 1;
            self.decide(alloc, decisions[left], true)?;
        }
        Ok(())
    }

    /// Takes the newest decision back, and tells it.
    fn undo(&mut self, alloc: Global) -> Result<Option<Turn>, AllocError>
        ensures same { self.new.universe ≡ self.old.universe }
        ensures undone { IfOk result (λ gone.
            IsUndone gone self.old.trail.items self.new.trail.items) }
    {
        let Some(gone) = last(&self.trail) else {
            return Ok(None);
        };
        let line = gone.decision.line;
        let places = &mut self.places;
        turn(
            alloc,
            places,
            &mut self.unsettled,
            &self.leaves,
            &self.told,
            line,
            gone.before,
        )?;
        self.trail.pop();
        Ok(Some(gone))
    }

    /// Goes on to an option.
    pub fn go(&mut self, alloc: Global, step: Step) -> Result<(), AllocError>
        ensures same { self.new.universe ≡ self.old.universe }
        ensures here { OnOk result (here self.new.trail.items ≡
            after (here self.old.trail.items) step) }
        ensures above { OnOk result (above self.new.trail.items ≡
            here self.old.trail.items ∷ above self.old.trail.items) }
    {
        match step.held {
            None => self.decide(alloc, step.decision, true),
            Some(held) => {
                self.decide(alloc, held, true)?;
                self.decide(alloc, step.decision, false)
            }
        }
    }

    /// Goes back to the choice from which it went on.
    pub fn back(&mut self, alloc: Global) -> Result<(), AllocError>
        ensures same { self.new.universe ≡ self.old.universe }
        ensures there { OnOk result ((c : Decisions) (cs : List Decisions) →
            above self.old.trail.items ≡ c ∷ cs →
            (here self.new.trail.items ≡ c) × (above self.new.trail.items ≡ cs)) }
    {
        while let Some(gone) = self.undo(alloc)? {
            if gone.begins {
                return Ok(());
            }
        }
        Ok(())
    }

    fn around(&self) -> Around<'_, 'u>
        ensures { result.places.now ≡ self.now.places.items }
    {
        Around::new(&self.places, &self.named, &self.told)
    }

    /// What is taken up next of the choice where it is, as [`first_open`](crate::first_open) tells
    /// it.
    pub fn first_open(&mut self, alloc: Global) -> Result<Option<Obligation<'u>>, AllocError>
        ensures same { self.new.universe ≡ self.old.universe }
        ensures stays { self.new.trail ≡ self.old.trail }
        ensures found { IfOk result (λ found. option_map obligation_of found ≡
            first_open (universe_of self.old.universe.now) (here self.old.trail.items)) }
    {
        let around = Around::new(&self.places, &self.named, &self.told);
        let wanted = &self.universe.wanted;
        let found = first_of_all(alloc, wanted, &around, &mut self.unsettled)?;
        Ok(found)
    }

    // In a conflict the first line may be held as it is.
    fn hold(&self, obligation: &Obligation<'_>) -> Option<Decision>
        ensures { Holds (universe_of self.now.universe.now) (here self.now.trail.items)
            (obligation_of obligation.now) result }
    {
        match *obligation {
            Obligation::Conflict(line, _) => held_line(self.universe, self.decided(line), line),
            _ => None,
        }
    }

    /// The steps to the options of the choice where it is, as [`options`](crate::options) gives
    /// them.
    pub(crate) fn steps(
        &self,
        alloc: Global,
        obligation: &Obligation<'_>,
    ) -> Result<Vec<Step>, AllocError>
        ensures { IfOk result (λ v. map (after (here self.now.trail.items)) v.items ≡
            options self.now.universe.now.update (universe_of self.now.universe.now)
            (here self.now.trail.items) (obligation_of obligation.now)) }
    {
        let held = self.hold(obligation);
        let steps = steps_of(alloc, self.universe, &self.around(), held, obligation)?;
        Ok(steps)
    }

    // The steps that are tried for what is open.
    fn tried_steps(
        &self,
        alloc: Global,
        obligation: &Obligation<'_>,
    ) -> Result<Vec<Step>, AllocError>
        ensures { IfOk result (λ v. map (after (here self.now.trail.items)) v.items ≡
            tried_for self.now.universe.now.update (universe_of self.now.universe.now)
            (here self.now.trail.items) (obligation_of obligation.now)) }
    {
        if is_hopeless(&self.around(), obligation) {
            return Ok(Vec::new(alloc));
        }
        let steps = self.steps(alloc, obligation)?;
        Ok(steps)
    }

    /// The steps to the options that are tried of the choice where it is, if anything is open of
    /// it: none where the choice is hopeless.
    pub fn next_steps(&mut self, alloc: Global) -> Result<Option<Vec<Step>>, AllocError>
        ensures same { self.new.universe ≡ self.old.universe }
        ensures stays { self.new.trail ≡ self.old.trail }
        ensures found { IfOk result (λ found.
            option_map (λ v. map (after (here self.old.trail.items)) v.items) found ≡
            tried_options self.old.universe.now.update (universe_of self.old.universe.now)
            (here self.old.trail.items)) }
    {
        match self.first_open(alloc)? {
            Some(obligation) => {
                let steps = self.tried_steps(alloc, &obligation)?;
                Ok(Some(steps))
            }
            None => Ok(None),
        }
    }

    /// The decided lines on which it rests that something is first open, as
    /// [`next_reason`](crate::next_reason) tells them. It looks at all lines once, as a search
    /// needs it at dead ends alone.
    pub fn reason(&mut self, alloc: Global) -> Result<Vec<usize>, AllocError>
        ensures same { self.new.universe ≡ self.old.universe }
        ensures stays { self.new.trail ≡ self.old.trail }
        ensures found { IfOk result (λ v. v.items ≡
            tree_reason (universe_of self.old.universe.now) (here self.old.trail.items)) }
    {
        let Some(obligation) = self.first_open(alloc)? else {
            return Ok(Vec::new(alloc));
        };
        let choice = self.choice(alloc)?;
        let marked = Marked::new(alloc, choice, self.places.len())?;
        let lines = reason_of(alloc, self.universe, &marked, &self.around(), &obligation)?;
        Ok(lines)
    }
    /// The leaf to name where what the package needs in this class isn't there: by all packages
    /// that may yet stand under the choice where it is, where it isn't there even then.
    pub fn lacking_leaf<'x>(&self, one: &'x Pkg, class: Class) -> Option<&'x Atom>
        ensures { option_map (λ atom. atom_value atom.now) result ≡ lacking_leaf
            (facts_of (judged_among (universe_of self.now.universe.now)
            (here self.now.trail.items) class one.now)) class one.now }
    {
        lacking_leaf(&self.around(), one, class)
    }
}
