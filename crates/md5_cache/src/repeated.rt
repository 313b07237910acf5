ghost use Rattle.std.specs.Prelude.{◌≡◌, ◌++◌, ◌∷◌, ℕ, List, [], IfOk, MatchOption, OnOk};
ghost use Rattle.basics.specs.Members.{AreDistinct};
ghost use Rattle.md5_cache.specs.PairFaults.{IsFirstRepeated};
ghost use Rattle.md5_cache.specs.Pairs.{keys_of};
ghost use Rattle.md5_cache.specs.Seen.{HasSeen, has_seen};

use crate::pair::Pair;
use basics::Text;
use std::alloc::{AllocError, Global};
use std::collections::BTreeMap;

/// The first key that an earlier pair has, too.
pub(crate) fn first_repeated(alloc: Global, pairs: &[Pair]) -> Result<Option<&Text>, AllocError>
    ensures { IfOk result (λ r. MatchOption r (AreDistinct (keys_of pairs.now))
        (λ key. IsFirstRepeated (keys_of pairs.now) key.now)) }
{
    let mut seen = BTreeMap::new(alloc);
    for pair in pairs {
        if has_seen(&seen, pair.key.as_str()) {
            return Ok(Some(&pair.key));
        }
        see(&mut seen, pair.key.as_str())?;
    }
    Ok(None)
}

fn has_seen(seen: &BTreeMap<&str, ()>, key: &str) -> bool
    ensures { result ≡ has_seen seen.now key.now }
{
    seen.get(key).is_some()
}

fn see<'a>(seen: &mut BTreeMap<&'a str, ()>, key: &'a str) -> Result<(), AllocError>
    ensures { OnOk result ((keys : List (List ℕ)) → HasSeen seen.old keys →
        HasSeen seen.new (keys ++ (key.now ∷ []))) }
{
    seen.insert(key, ())?;
    Ok(())
}
