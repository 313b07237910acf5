ghost use Rattle.std.specs.Prelude.{◌≡◌, ◌++◌, ◌∷◌, ◌||◌, ℕ, [], IfOk, List, OnOk, map};
ghost use Rattle.std.specs.List.{list_any};
ghost use Rattle.pms_names.specs.Flags.{has};
ghost use Rattle.visible_rules.specs.Heard.{Remembers, is_in};
ghost use Rattle.pkg_state.specs.Index.{listed};
ghost use Rattle.visible_rules.specs.Keywords.{accepts, all_words, every, is_accepted, words_of};

use crate::line::KeywordLine;
use crate::meaning::is_meant;
use crate::named::lines_by_name;
use crate::said::Said;
use basics::Text;
use dep_atom::Facts;
use pkg_state::ByText;
use std::alloc::{AllocError, Global};
use std::collections::BTreeMap;
use std::marker::Model;

/// Which keywords are accepted. Contracts see what stands for all packages, and the list of the
/// lines for some.
#[derive(Drop)]
pub struct Keywords<'a> {
    standing: &'a [Text],
    bare: &'a [Text],
    lines: &'a [KeywordLine],
    always: BTreeMap<&'a str, ()>,
    named: ByText<'a, &'a KeywordLine>,
}

impl<'a> Model for Keywords<'a> {
    ghost use Rattle.std.specs.Prelude.{◌≡◌, ℕ, List};
    ghost use Rattle.pms_names.specs.Flags.{has};
    ghost use Rattle.visible_rules.specs.Heard.{is_in};
    ghost use Rattle.visible_rules.specs.Index.{AreUnder, is_line_of};
    ghost use Rattle.visible_rules.specs.Keywords.{KeywordRules};

    ghost Value = { KeywordRules };

    ghost view = { λ k. record {
      standing = k.standing.now;
      bare = k.bare.now;
      lines = k.lines.now;
    } };

    ghost invariant = { λ k. ((q : List ℕ) → is_in k.always q ≡ has k.standing.now q)
        × AreUnder is_line_of k.lines.now k.named.lists };
}

impl<'a> Keywords<'a> {
    /// What stands for all packages, the words that a line without words has, and the lines, which
    /// are put under the names of their atoms once.
    pub fn new(
        alloc: Global,
        standing: &'a [Text],
        bare: &'a [Text],
        lines: &'a [KeywordLine],
    ) -> Result<Keywords<'a>, AllocError>
        ensures standing { IfOk result (λ k. k.standing ≡ standing.now) }
        ensures bare { IfOk result (λ k. k.bare ≡ bare.now) }
        ensures lines { IfOk result (λ k. k.lines ≡ lines.now) }
    {
        let always = set_of(alloc, standing)?;
        let named = lines_by_name(alloc, lines)?;
        Ok(Keywords {
            standing,
            bare,
            lines,
            always,
            named,
        })
    }

    /// Whether the package may be taken by these keywords of its own.
    pub fn accepts(
        &self,
        alloc: Global,
        facts: &Facts,
        keywords: &[Text],
    ) -> Result<bool, AllocError>
        ensures { IfOk result (λ b. b ≡ accepts self.now facts.now keywords.now) }
    {
        let said = said_of(alloc, &self.named, self.bare, facts)?;
        Ok(self.accepts_any(&said, keywords))
    }

    /// Whether one of these keywords is accepted, or every package is.
    fn accepts_any(&self, said: &Said<'_>, keywords: &[Text]) -> bool
        ensures { (words : List (List ℕ)) → Remembers said.now words →
            result ≡ list_any (is_accepted self.now.standing words) (every ∷ keywords.now) }
    {
        self.accepts_keyword(said, "**") || self.accepts_one(said, keywords)
    }

    fn accepts_one(&self, said: &Said<'_>, keywords: &[Text]) -> bool
        ensures { (words : List (List ℕ)) → Remembers said.now words →
            result ≡ list_any (is_accepted self.now.standing words) keywords.now }
    {
        for keyword in keywords {
            if self.accepts_keyword(said, keyword.as_str()) {
                return true;
            }
        }
        false
    }

    fn accepts_keyword(&self, said: &Said<'_>, keyword: &str) -> bool
        ensures { (words : List (List ℕ)) → Remembers said.now words →
            result ≡ is_accepted self.now.standing words keyword.now }
    {
        match said.told(keyword) {
            Some(accepted) => accepted,
            None => self.always.get(keyword).is_some(),
        }
    }
}

/// What the words of the lines of the package's name say that mean it.
fn said_of<'a>(
    alloc: Global,
    named: &ByText<'a, &'a KeywordLine>,
    bare: &'a [Text],
    facts: &Facts,
) -> Result<Said<'a>, AllocError>
    ensures { IfOk result (λ said. Remembers said (all_words bare.now facts.now
        (map (λ l. l.now) (listed named.now.lists facts.now.id.name.«package»)))) }
{
    let mut said = Said::new(alloc);
    for line in named.get(facts.id.name.package.text()) {
        hear_line(alloc, &mut said, bare, line, facts)?;
    }
    Ok(said)
}

fn hear_line<'a>(
    alloc: Global,
    said: &mut Said<'a>,
    bare: &'a [Text],
    line: &'a KeywordLine,
    facts: &Facts,
) -> Result<(), AllocError>
    ensures { OnOk result ((before : List (List ℕ)) → Remembers said.old before →
        Remembers said.new (before ++ all_words bare.now facts.now (line.now ∷ []))) }
{
    if is_meant(alloc, facts, &line.atom) {
        said.hear_all(alloc, words_of(bare, line))?;
    }
    Ok(())
}

fn words_of<'a>(bare: &'a [Text], line: &'a KeywordLine) -> &'a [Text]
    ensures { result.now ≡ words_of bare.now line.now }
{
    if line.words.is_empty() {
        bare
    } else {
        line.words.as_slice()
    }
}

fn set_of<'a>(alloc: Global, texts: &'a [Text]) -> Result<BTreeMap<&'a str, ()>, AllocError>
    ensures { IfOk result (λ set. (q : List ℕ) → is_in set q ≡ has texts.now q) }
{
    let mut set = BTreeMap::new(alloc);
    for text in texts {
        put(&mut set, text.as_str())?;
    }
    Ok(set)
}

fn put<'a>(set: &mut BTreeMap<&'a str, ()>, text: &'a str) -> Result<(), AllocError>
    ensures { OnOk result ((q : List ℕ) → is_in set.new q ≡
        (is_in set.old q || has (text.now ∷ []) q)) }
{
    set.insert(text, ())?;
    Ok(())
}
