ghost use Rattle.std.specs.Prelude.{◌≡◌, ℕ, IfOk, length};
ghost use Rattle.build_pool.specs.Numbered.{AreNumbered};

use crate::builders::Builder;
use std::alloc::{AllocError, Global};

/// So many builders, each made from its number: the first has number 0.
pub fn numbered_builders<B: Builder, F: Fn(u32) -> Result<B, AllocError>>(
    alloc: Global,
    count: u32,
    make: F,
) -> Result<Vec<B>, AllocError>
    requires callable { F.IsAlwaysCallable make }
    requires number { (id : ℕ) (made : _) → F.post make id made → IfOk made (λ b. B.number b ≡ id) }
    ensures count { IfOk result (λ builders. length builders.items ≡ count) }
    ensures numbers { IfOk result (λ builders. AreNumbered B.number count builders.items) }
{
    let mut builders = Vec::with_capacity(alloc, count as usize)?;
    for id in 0..count {
        builders.push(make(id)?)?;
    }
    Ok(builders)
}
