ghost use Rattle.std.specs.Prelude.{◌≡◌, ◌≤◌, Bool, List, None, Ok, [], false, map, true};
ghost use Rattle.dep_group.specs.declared.token.Token.{Token};
ghost use Rattle.dep_group.specs.Maps.{answer_map, token_map};
ghost use Rattle.dep_group.specs.Reading.{all_tokens, list_of, read};
ghost use Rattle.dep_group.specs.Trees.{Tree, Trees, all_depth, all_free, trees_of};

/// The printed tokens of trees of at most 64 groups in one another, in which no barred leaf stands in
/// an any-of group, read as these trees.
pub fn printed_trees_are_read<K, L>()
    ensures { (any_of : K → Bool) (barred : L → Bool) (ts : Trees K L) → all_depth ts ≤ 64 →
        all_free any_of barred false ts ≡ true →
        read any_of barred (all_tokens ts []) 0 None [] [] ≡ Ok (list_of ts) }
{}

/// What reads as trees are their printed tokens, and nothing else.
pub fn read_trees_are_printed<K, L>()
    ensures { (any_of : K → Bool) (barred : L → Bool) (tokens : List (Token K L))
        (out : List (Tree K L)) → read any_of barred tokens 0 None [] [] ≡ Ok out →
        tokens ≡ all_tokens (trees_of out) [] }
{}

/// Where openers and leaves are replaced by others that are any-of openers and barred alike, the tokens
/// read as the trees with the same replaced, or with the same fault.
pub fn replaced_tokens_are_read_alike<J, K, L, M>()
    ensures { (f : J → K) (g : L → M) (any_of : J → Bool) (opens : K → Bool) (barred : L → Bool)
        (refused : M → Bool) → ((j : J) → opens (f j) ≡ any_of j) →
        ((a : L) → refused (g a) ≡ barred a) → (tokens : List (Token J L)) →
        read opens refused (map (token_map f g) tokens) 0 None [] [] ≡
        answer_map f g (read any_of barred tokens 0 None [] []) }
{}
