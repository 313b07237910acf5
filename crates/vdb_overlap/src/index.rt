ghost use Rattle.std.specs.Prelude.{◌≡◌, ◌++◌, ◌∷◌, ℕ, [], false, true, IfOk, List, MatchOption};
ghost use Rattle.std.specs.Prelude.{OnErr, OnOk};
ghost use Rattle.basics.specs.Members.{Has};
ghost use Rattle.file_tree.specs.Paths.{is_below, is_path};
ghost use Rattle.vdb_overlap.specs.Indexes.{IsLesser, IsSeen};
ghost use Rattle.vdb_overlap.specs.Overlaps.{AreApart, IsFirst, IsFirstOverlap, IsUnder};

use crate::overlap::Overlap;
use basics::Text;
use file_tree::Path;
use std::alloc::{AllocError, Global};
use std::collections::BTreeSet;
use std::marker::Model;

/// An index of paths, which are given to it one after the other. In clauses, what it knows of them.
#[derive(Drop)]
pub struct PathIndex {
    texts: BTreeSet<Text>,
    twice: Option<Text>,
}

impl Model for PathIndex {
    ghost use Rattle.vdb_overlap.specs.Indexes.{ArePaths, PathIndexValue};

    ghost Value = { PathIndexValue };

    ghost view = { λ x. record { texts = x.texts.keys; twice = x.twice } };

    ghost invariant = { λ x. ArePaths (record { texts = x.texts.keys; twice = x.twice }) };
}

impl PathIndex {
    pub fn new(alloc: Global) -> PathIndex
        ensures { IsSeen [] result }
    {
        PathIndex {
            texts: BTreeSet::new(alloc),
            twice: None,
        }
    }

    /// Takes one more path.
    pub fn add(&mut self, alloc: Global, path: &Path) -> Result<(), AllocError>
        ensures seen { (ps : List (List ℕ)) → IsSeen ps self.old →
            OnOk result (IsSeen (ps ++ path.now ∷ []) self.new) }
        ensures err { OnErr result (self.new ≡ self.old) }
    {
        let text = Text::new(alloc, path.text())?;
        if self.texts.contains(&text) {
            let known = self.twice.take();
            self.twice = Some(lesser(known, text));
        } else {
            self.texts.insert(text)?;
        }
        Ok(())
    }

    /// The first overlap of the paths.
    pub fn first_overlap(&self, alloc: Global) -> Result<Option<Overlap>, AllocError>
        ensures { (ps : List (List ℕ)) → IsSeen ps self.now →
            IfOk result (λ r. MatchOption r (AreApart ps) (IsFirstOverlap ps)) }
    {
        if let Some(text) = &self.twice {
            let path = path_of(alloc, text)?;
            return Ok(Some(Overlap::Twice { path }));
        }
        for text in &self.texts {
            if let Some(below) = first_below(alloc, &self.texts, text)? {
                let path = path_of(alloc, text)?;
                let below = path_of(alloc, below)?;
                return Ok(Some(Overlap::Nested { path, below }));
            }
        }
        Ok(None)
    }
}

/// The first of two texts in byte order.
fn lesser(known: Option<Text>, text: Text) -> Text
    ensures { MatchOption known (result ≡ text) (λ k. IsLesser k text result) }
{
    match known {
        Some(known) => { if text < known { text } else { known } }
        None => text,
    }
}

/// The first of the texts that is below this one: what comes next from `text/` on, if it is.
fn first_below<'a>(
    alloc: Global,
    texts: &'a BTreeSet<Text>,
    text: &Text,
) -> Result<Option<&'a Text>, AllocError>
    ensures { IfOk result (λ r. MatchOption r
        ((s : List ℕ) → Has texts.now.keys s → is_below text.now s ≡ false)
        (λ s. IsFirst (IsUnder texts.now.keys text.now) s.now)) }
{
    let text = text.as_str();
    let start = Text::from_string(format!(in alloc; "{text}/")?);
    match texts.range(start..).next() {
        Some(next) if is_below(text, next.as_str()) => Ok(Some(next)),
        _ => Ok(None),
    }
}

/// Whether the second path is strictly below the first.
fn is_below(top: &str, path: &str) -> bool
    ensures { result ≡ is_below top.now path.now }
{
    file_tree::is_below(top.as_bytes(), path.as_bytes())
}

fn path_of(alloc: Global, text: &Text) -> Result<Path, AllocError>
    requires { is_path text.now ≡ true }
    ensures { IfOk result (λ p. p ≡ text.now) }
{
    Path::of(alloc, text.as_str())
}
