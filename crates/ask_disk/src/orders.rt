//! Orders to builders.

use ask_lines::{cut, not_in_form};
use build_pool::{Binds, Order};
use dep_atom::PackageId;
use pms_names::{Flags, SlotName};
use std::alloc::Global;
use std::io;

/// The package that the copy of an order is of.
pub fn order(alloc: Global, fields: &str) -> io::Result<String> {
    let (category, name) = cut(fields, '\t');
    let order = order_of(alloc, category, name)?;
    let copy = order.try_clone()?;
    Ok(copy.id.print(alloc)?)
}

/// An order of the package in slot 0, without flags and binds.
fn order_of(alloc: Global, category: &str, name: &str) -> io::Result<Order> {
    let id = PackageId::parse(alloc, category, name).map_err(|_| not_in_form())?;
    Ok(Order {
        id,
        slot: slot_zero(alloc)?,
        subslot: slot_zero(alloc)?,
        enabled: Flags::new(alloc),
        binds: Binds::new(Vec::new(alloc)),
    })
}

fn slot_zero(alloc: Global) -> io::Result<SlotName> {
    SlotName::parse(alloc, "0").map_err(|_| not_in_form())
}
