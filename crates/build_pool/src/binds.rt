ghost use Rattle.std.specs.Prelude.{◌≡◌, [], ◌∷◌, ◌++◌, IfOk, OnErr, OnOk};

use dep_atom::Bind;
use std::alloc::{AllocError, Global};
use std::marker::Model;

/// What the equals operators of a package's run time dependencies are bound to, in written order.
/// Contracts see the list.
#[derive(Debug, Drop)]
pub struct Binds {
    items: Vec<Bind>,
}

impl Model for Binds {
    ghost use Rattle.std.specs.Prelude.{List};
    ghost use Rattle.dep_atom.specs.declared.slot.Bind.{Bind};

    ghost Value = { List Bind };

    ghost view = { λ b. b.items.items };
}

impl Binds {
    /// These binds.
    pub fn new(binds: Vec<Bind>) -> Binds
        ensures { result ≡ binds.items }
    {
        Binds { items: binds }
    }

    /// Puts a bind behind these.
    pub fn push(&mut self, bind: Bind) -> Result<(), AllocError>
        ensures ok { OnOk result (self.new ≡ self.old ++ bind ∷ []) }
        ensures err { OnErr result (self.new ≡ self.old) }
    {
        self.items.push(bind)?;
        Ok(())
    }

    /// A copy of these binds.
    pub fn copied(alloc: Global, binds: &[Bind]) -> Result<Binds, AllocError>
        ensures { IfOk result (λ b. b ≡ binds.now) }
    {
        let mut items = Vec::with_capacity(alloc, binds.len())?;
        for bind in binds {
            items.push(copy_of(bind)?)?;
        }
        Ok(Binds { items })
    }

    /// The binds, in written order.
    pub fn list(&self) -> &[Bind]
        ensures { result.now ≡ self.now }
    {
        &self.items
    }

    pub fn try_clone(&self) -> Result<Binds, AllocError>
        ensures { IfOk result (λ b. b ≡ self.now) }
    {
        Binds::copied(*self.items.allocator(), &self.items)
    }
}

fn copy_of(bind: &Bind) -> Result<Bind, AllocError>
    ensures { IfOk result (λ b. b ≡ bind.now) }
{
    let slot = bind.slot.try_clone()?;
    let subslot = bind.subslot.try_clone()?;
    Ok(Bind { slot, subslot })
}
