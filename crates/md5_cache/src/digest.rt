ghost use Rattle.std.specs.Prelude.{◌≡◌, ◌↔◌, IsTrue, MatchResult};
ghost use Rattle.md5.specs.Md5.{md5};
ghost use Rattle.md5_cache.specs.EntryFaults.{IsOutdated, Records};
ghost use Rattle.md5_cache.specs.Fields.{AreFields};

use crate::fault::CacheFault;
use crate::pair::Pair;
use crate::parts::value_of;
use file_digest::digest_from;
use md5::{Digest, Md5};

/// Whether the ebuild is the one of which the pairs were made.
pub(crate) fn check_digest(pairs: &[Pair], ebuild: &[u8]) -> Result<(), CacheFault>
    requires { AreFields pairs.now }
    ensures { MatchResult result (λ _. Records pairs.now (md5 ebuild.now))
        (IsOutdated pairs.now ebuild.now) }
{
    let recorded = recorded(pairs);
    let found = digest_of(ebuild);
    if is_same(&recorded, &found) {
        Ok(())
    } else {
        Err(CacheFault::Stale { recorded, found })
    }
}

fn recorded(pairs: &[Pair]) -> [u8; 16]
    requires { AreFields pairs.now }
    ensures { Records pairs.now result }
{
    match digest_from(value_of(pairs, "_md5_").as_bytes()) {
        Some(digest) => digest,
        None => unreachable!(),
    }
}

fn digest_of(bytes: &[u8]) -> [u8; 16]
    ensures { result ≡ md5 bytes.now }
{
    Md5::digest(bytes)
}

fn is_same(a: &[u8; 16], b: &[u8; 16]) -> bool
    ensures { IsTrue result ↔ (a.now ≡ b.now) }
{
    a == b
}
