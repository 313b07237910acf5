ghost use Rattle.std.specs.Prelude.{◌≡◌};

use crate::rule::Turns;
use crate::views::{About, View};
use atomic_table::{Seat, Table};
use merge_core::Logged;
use std::alloc::Global;

/// A hall: the value lies in it, and whoever has the turn takes it out.
pub struct Hall<X: Logged> {
    pub(crate) table: Table<Option<X>, View<X>, About<X>, Turns, Global>,
    ghost sized: { (table.shared.table_id.words ≡ 2) × (table.shared.table_id.slots ≡ 1) },
}

/// The right to take turns in a hall. It has no bytes.
#[derive(Drop)]
pub struct Pass<X> {
    pub(crate) seat: Seat<Option<X>, View<X>>,
}

/// A turn, with the value.
pub struct Turn<X> {
    pub value: X,
}
