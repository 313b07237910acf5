ghost use Rattle.std.specs.Prelude.{◌≡◌, ◌++◌, ℕ, List, [], OnOk};
ghost use Rattle.std.specs.Prelude.{Some, bytes_eq, codes, false, if◌then◌else◌};
ghost use Rattle.std.specs.Option.{option_or};
ghost use Rattle.visible_rules.specs.Heard.{Remembers, said_by, told};

use basics::Text;
use profile_folders::taken_back;
use std::alloc::{AllocError, Global};
use std::collections::BTreeMap;

/// What the words so far say of keywords.
#[derive(Drop)]
pub(crate) struct Said<'a> {
    /// What was said last of each keyword alone, since all were taken back.
    pub(crate) words: BTreeMap<&'a str, bool>,
    /// Whether all were taken back.
    pub(crate) took_all: bool,
}

impl<'a> Said<'a> {
    /// Nothing.
    pub(crate) fn new(alloc: Global) -> Said<'a>
        ensures { Remembers result [] }
    {
        Said {
            words: BTreeMap::new(alloc),
            took_all: false,
        }
    }

    /// Remembers what the words say, behind those so far.
    pub(crate) fn hear_all(&mut self, alloc: Global, words: &'a [Text]) -> Result<(), AllocError>
        ensures { OnOk result ((before : List (List ℕ)) → Remembers self.old before →
            Remembers self.new (before ++ words.now)) }
    {
        for word in words {
            self.hear(alloc, word.as_str())?;
        }
        Ok(())
    }

    fn hear(&mut self, alloc: Global, word: &'a str) -> Result<(), AllocError>
        ensures { OnOk result ((keyword : List ℕ) → told self.new keyword ≡
            option_or (said_by word.now keyword) (told self.old keyword)) }
    {
        match taken_back(word) {
            Some(taken) if is_star(taken) => {
                self.take_all(alloc);
                Ok(())
            }
            Some(taken) => self.say(taken, false),
            None => self.say(word, true),
        }
    }

    fn say(&mut self, keyword: &'a str, accepted: bool) -> Result<(), AllocError>
        ensures { OnOk result ((q : List ℕ) → told self.new q ≡
            (if bytes_eq keyword.now q then Some accepted else told self.old q)) }
    {
        self.words.insert(keyword, accepted)?;
        Ok(())
    }

    fn take_all(&mut self, alloc: Global)
        ensures { (q : List ℕ) → told self.new q ≡ Some false }
    {
        self.words = BTreeMap::new(alloc);
        self.took_all = true;
    }

    /// What was said of the keyword, if something was.
    pub(crate) fn told(&self, keyword: &str) -> Option<bool>
        ensures { result ≡ told self.now keyword.now }
    {
        match self.words.get(keyword) {
            Some(accepted) => Some(*accepted),
            None if self.took_all => Some(false),
            None => None,
        }
    }
}

fn is_star(taken: &str) -> bool
    ensures { result ≡ bytes_eq taken.now (codes "*") }
{
    taken == "*"
}
