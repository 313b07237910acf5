ghost use Rattle.std.specs.Prelude.{◌≡◌, IfOk};

use crate::binds::Binds;
use dep_atom::PackageId;
use pms_names::{Flags, SlotName};
use std::alloc::AllocError;

/// What a builder is asked to build, and what a run merges.
#[derive(Debug, Drop)]
pub struct Order {
    pub id: PackageId,
    /// The slot in which the package is built.
    pub slot: SlotName,
    /// The subslot in which it is built.
    pub subslot: SlotName,
    /// The flags of its IUSE that are on, with which it is built.
    pub enabled: Flags,
    /// What the equals operators of its run time dependencies are bound to.
    pub binds: Binds,
}

impl Order {
    pub fn try_clone(&self) -> Result<Order, AllocError>
        ensures { IfOk result (λ o. o ≡ self.now) }
    {
        let id = self.id.try_clone()?;
        let slot = self.slot.try_clone()?;
        let subslot = self.subslot.try_clone()?;
        let enabled = self.enabled.try_clone()?;
        let binds = self.binds.try_clone()?;
        Ok(Order {
            id,
            slot,
            subslot,
            enabled,
            binds,
        })
    }
}
