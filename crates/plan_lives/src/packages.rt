ghost use Rattle.std.specs.Prelude.{◌≡◌, IfOk, map};
ghost use Rattle.pkg_state.specs.Consistent.{facts_of};
ghost use Rattle.pkg_state.specs.Index.{AreNamed};
ghost use Rattle.plan_lives.specs.Lives.{lives_of};
ghost use Rattle.plan_lives.specs.Left.{left_among};

use crate::life::{Life, Moment};
use dep_atom::Atom;
use dep_tree::Present;
use pkg_state::{ByText, Pkg};
use pms_names::Flags;
use std::alloc::{AllocError, Global};

/// Packages that are there together, and what an atom finds among them by its name.
#[derive(Drop)]
pub struct Packages<'a> {
    pub all: Vec<&'a Pkg>,
    named: ByText<'a, &'a Pkg>,
    ghost are_named: { AreNamed (map (λ p. p.now) all.items) named.lists },
}

fn left_among<'a>(alloc: Global, lives: &[Life<'a>]) -> Result<Vec<&'a Pkg>, AllocError>
    ensures { IfOk result (λ left. map (λ p. p.now) left.items ≡ left_among (lives_of lives.now)) }
{
    let mut left = Vec::new(alloc);
    for x in lives {
        if let Moment::Never = x.death {
            left.push(x.pkg)?;
        }
    }
    Ok(left)
}

/// The packages under their own names.
pub fn by_own_name<'a>(
    alloc: Global,
    packages: &[&'a Pkg],
) -> Result<ByText<'a, &'a Pkg>, AllocError>
    ensures { IfOk result (λ named. AreNamed (map (λ p. p.now) packages.now) named.lists) }
{
    let mut named = ByText::new(alloc);
    for &pkg in packages {
        named.add(alloc, pkg.facts.id.name.package.text(), pkg)?;
    }
    Ok(named)
}

impl<'a> Packages<'a> {
    /// Keeps where each name stands among them.
    pub fn new(alloc: Global, all: Vec<&'a Pkg>) -> Result<Packages<'a>, AllocError>
        ensures { IfOk result (λ packages. packages.all ≡ all.entry) }
    {
        let named = by_own_name(alloc, &all)?;
        Ok(Packages { all, named })
    }

    /// Those that no group takes away.
    pub fn left(alloc: Global, lives: &[Life<'a>]) -> Result<Packages<'a>, AllocError>
        ensures { IfOk result (λ left. map (λ p. p.now) left.all.items ≡
            left_among (lives_of lives.now)) }
    {
        Packages::new(alloc, left_among(alloc, lives)?)
    }
}

impl<'a> Present for Packages<'a> {
    ghost facts = { λ packages. facts_of (map (λ p. p.now) packages.all.items) };

    fn some_match(&self, atom: &Atom, asker: &Flags) -> bool {
        for &pkg in self.named.get(atom.name.package.text()) {
            if atom.matches(&pkg.facts, asker) {
                return true;
            }
        }
        false
    }
}
