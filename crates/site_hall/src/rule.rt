//! The rule of the hall's table, and what its steps tell.
use crate::views::{About, View};
use atomic_table::{Join, Play, Split, TableRule};
use merge_core::Logged;

/// The rule of the table: word 0 is the next ticket, and word 1 the one that is served.
pub struct Turns;

impl<X: Logged> TableRule<Option<X>, View<X>, About<X>> for Turns {
    ghost use Rattle.site_hall.specs.Rule.{Kept};
    ghost use Rattle.site_hall.specs.Views.{first_view};

    ghost holds = { Kept X.log X.same };

    ghost first = { λ about. first_view about.first about.parts };
}

/// A ticket is taken.
pub struct Ticket;

impl<X: Logged> Play<Option<X>, View<X>> for Ticket {
    ghost use Rattle.site_hall.specs.Steps.{took};

    ghost then = { took };
}

/// The serving word is read.
pub struct Look;

impl<X: Logged> Play<Option<X>, View<X>> for Look {
    ghost use Rattle.site_hall.specs.Steps.{looked};

    ghost then = { looked X.log X.same };
}

/// The turn is passed on.
pub struct PassOn;

impl<X: Logged> Play<Option<X>, View<X>> for PassOn {
    ghost use Rattle.site_hall.specs.Steps.{passed};

    ghost then = { passed X.log };
}

/// One part goes to a new pass.
pub struct OnePart;

impl<X> Split<View<X>> for OnePart {
    ghost use Rattle.site_hall.specs.Views.{given_part, kept_part};

    ghost left = { kept_part };

    ghost right = { given_part };
}

/// One pass takes another in.
pub struct Both;

impl<X> Join<View<X>> for Both {
    ghost use Rattle.site_hall.specs.Views.{joined, spent};

    ghost both = { joined };

    ghost spent = { spent };
}
