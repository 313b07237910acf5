ghost use Rattle.std.specs.Prelude.{◌≡◌, IfOk, List, None, OnErr, OnOk, Some, [], length, map};
ghost use Rattle.std.specs.Option.{option_map};
ghost use Rattle.pkg_state.specs.Package.{line_of};
ghost use Rattle.pkg_state.specs.State.{ChangesLine, IsState, on_line};

use crate::line::LineName;
use crate::package::Pkg;
use std::alloc::{AllocError, Global};
use std::collections::BTreeMap;
use std::marker::Model;

/// Packages that are installed side by side, one a line. Contracts see them in line order.
#[derive(Drop)]
pub struct State {
    packages: BTreeMap<LineName, Pkg>,
}

impl Model for State {
    ghost use Rattle.std.specs.Prelude.{List};
    ghost use Rattle.std.specs.Map.{values_of};
    ghost use Rattle.std.specs.Coded.{codes};
    ghost use Rattle.pkg_state.specs.Codes.{trees_code};
    ghost use Rattle.pkg_state.specs.Package.{Package};
    ghost use Rattle.pkg_state.specs.State.{HasLines};

    ghost Value = { List Package };

    ghost coded = { Prim.hlevel (codes, trees_code) };

    ghost view = { λ s. values_of s.packages.entries };

    ghost invariant = { λ s. HasLines s.packages.entries };
}

impl State {
    pub fn new(alloc: Global) -> State
        ensures { result ≡ [] }
    {
        State {
            packages: BTreeMap::new(alloc),
        }
    }

    /// How many packages there are. It says too that they are a state.
    pub fn len(&self) -> usize
        ensures len { result ≡ length self.now }
        ensures state { IsState self.now }
    {
        self.packages.len()
    }

    pub fn get(&self, line: &LineName) -> Option<&Pkg>
        ensures { option_map (λ p. p.now) result ≡ on_line self.now line.now }
    {
        self.packages.get(line)
    }

    /// Puts a package on its line, and gives back the one that it takes the place of.
    pub fn insert(&mut self, alloc: Global, new: Pkg) -> Result<Option<Pkg>, AllocError>
        ensures ok { OnOk result
            (ChangesLine self.old self.new (line_of new.facts) (Some new)) }
        ensures replaced { IfOk result (λ old. old ≡ on_line self.old (line_of new.facts)) }
        ensures err { OnErr result (self.new ≡ self.old) }
    {
        let line = new.line(alloc)?;
        Ok(self.packages.insert(line, new)?)
    }

    /// Takes the package of a line out. It takes no memory.
    pub fn remove(&mut self, line: &LineName) -> Option<Pkg>
        ensures after { ChangesLine self.old self.new line.now None }
        ensures removed { result ≡ on_line self.old line.now }
    {
        self.packages.remove(line)
    }

    /// The packages in line order.
    pub fn list(&self, alloc: Global) -> Result<Vec<&Pkg>, AllocError>
        ensures { IfOk result (λ v. map (λ p. p.now) v.items ≡ self.now) }
    {
        let mut list = Vec::new(alloc);
        for package in self.packages.values() {
            list.push(package)?;
        }
        Ok(list)
    }
}
