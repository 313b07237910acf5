ghost use Rattle.std.specs.Prelude.{◌≡◌, ◌↔◌, ◌∷◌, ◌++◌, ℕ, List, codes, false};
ghost use Rattle.std.specs.List.{AllByRecursion};
ghost use Rattle.basics.specs.Members.{AreDistinct, Has};
ghost use Rattle.profile_folders.specs.Stacks.{Stands};
ghost use Rattle.config_vars.specs.Values.{is_clear, since_clear, stacked, words_said};
ghost use Rattle.config_vars.specs.declared.vars.FileVars.{FileVars as FileVarsValue};

/// A law: a word of a variable stands exactly where one of those behind the last `-*` adds it and none
/// behind that takes it away, and it stands once.
pub fn last_word_counts()
    ensures stands { (key : List ℕ) (files : List FileVarsValue) (word : List ℕ) →
        Has (stacked key files) word ↔ Stands (since_clear (words_said key files)) word }
    ensures once { (key : List ℕ) (files : List FileVarsValue) → AreDistinct (stacked key files) }
    ensures all { (words : List (List ℕ)) → AllByRecursion (λ w. is_clear w ≡ false) words →
        since_clear words ≡ words }
    ensures behind { (front words : List (List ℕ)) →
        AllByRecursion (λ w. is_clear w ≡ false) words →
        since_clear (front ++ (codes "-*" ∷ words)) ≡ words }
{}
