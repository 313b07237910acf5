ghost use Rattle.std.specs.Prelude.{◌≡◌, ◌++◌, IfOk, OnOk, map};
ghost use Rattle.std.specs.Option.{option_map};
ghost use Rattle.dep_atom.specs.Values.{atom_value};
ghost use Rattle.dep_tree.specs.View.{trees};
ghost use Rattle.pkg_state.specs.Consistent.{blocks_in, fits_required, is_met};
ghost use Rattle.pkg_state.specs.Fault.{lacking_leaf};
ghost use Rattle.pkg_state.specs.Package.{line_of, tree_of};

use crate::class::Class;
use crate::eapi::Eapi;
use crate::leaf::lacking_of_all;
use crate::line::LineName;
use dep_atom::{Atom, Facts};
use dep_tree::{DepTree, Present, is_block};
use required_use::RequiredUse;
use std::alloc::{AllocError, Global};
use std::marker::Model;

/// A package with what it depends on. Its flags are those that its facts have enabled.
#[derive(Debug, Drop)]
pub struct Pkg {
    pub facts: Facts,
    pub eapi: Eapi,
    pub rdepend: DepTree,
    pub pdepend: DepTree,
    pub depend: DepTree,
    pub bdepend: DepTree,
    pub idepend: DepTree,
    pub required_use: RequiredUse,
}

impl Model for Pkg {
    ghost use Rattle.dep_tree.specs.View.{trees};
    ghost use Rattle.required_use.specs.View as required;
    ghost use Rattle.std.specs.Coded.{codes};
    ghost use Rattle.pkg_state.specs.Codes.{trees_code};
    ghost use Rattle.pkg_state.specs.Package.{Package};

    ghost Value = { Package };

    ghost coded = { Prim.hlevel (codes, trees_code) };

    ghost view = { λ p. record {
      facts = p.facts;
      eapi = p.eapi;
      rdepend = trees p.rdepend;
      pdepend = trees p.pdepend;
      depend = trees p.depend;
      bdepend = trees p.bdepend;
      idepend = trees p.idepend;
      required = required.trees p.required_use;
    } };
}

impl Pkg {
    /// The line on which it stands.
    pub fn line(&self, alloc: Global) -> Result<LineName, AllocError>
        ensures { IfOk result (λ line. line ≡ line_of self.now.facts) }
    {
        LineName::new(alloc, &self.facts.id.name, &self.facts.slot)
    }

    /// What it depends on in this class.
    pub fn tree(&self, class: Class) -> &DepTree
        ensures { trees result.now ≡ tree_of class self.now }
    {
        match class {
            Class::Rdepend => &self.rdepend,
            Class::Pdepend => &self.pdepend,
            Class::Depend => &self.depend,
            Class::Bdepend => &self.bdepend,
            Class::Idepend => &self.idepend,
        }
    }

    /// Puts its blocks of this class that count behind others.
    pub fn push_blocks<'a>(
        &'a self,
        alloc: Global,
        class: Class,
        blocks: &mut Vec<&'a Atom>,
    ) -> Result<(), AllocError>
        ensures { OnOk result (map (λ a. atom_value a.now) blocks.new.items ≡
            map (λ a. atom_value a.now) blocks.old.items ++ blocks_in class self.now) }
    {
        let leaves = self.tree(class).leaves(alloc, &self.facts.enabled)?;
        for &atom in &leaves {
            if is_block(atom) {
                blocks.push(atom)?;
            }
        }
        Ok(())
    }

    /// Whether its flags go together, as its REQUIRED_USE says.
    pub fn fits_required(&self) -> bool
        ensures { result ≡ fits_required self.now }
    {
        self.required_use.holds(&self.facts.enabled)
    }

    /// Whether what it needs in this class is there. A block doesn't count here.
    pub fn is_met<P: Present>(&self, class: Class, present: &P) -> bool
        ensures { result ≡ is_met (P.facts present.now) class self.now }
    {
        self.tree(class).holds(present, &self.facts.enabled)
    }

    /// The leaf to name where it is not met, if there is one.
    pub fn lacking_leaf<P: Present>(&self, class: Class, present: &P) -> Option<&Atom>
        ensures { option_map (λ atom. atom_value atom.now) result ≡
            lacking_leaf (P.facts present.now) class self.now }
    {
        let tree = self.tree(class);
        lacking_of_all(&tree.nodes, present, &self.facts.enabled, tree.empty_holds)
    }
}
