//! What a pass knows. It is said in proofs alone: no value of these types is made but `About`.
use std::collections::LinkedList;
use std::marker::Model;
use std::snapshot::Snapshot;

/// A history, as contracts see it.
pub struct History;

impl Model for History {
    ghost use Rattle.std.specs.Prelude.{List, []};
    ghost use Rattle.merge_core.specs.Trail.{Entry};

    ghost Value = { List Entry };

    ghost view = { λ h. [] };
}

/// Whether a pass waits for its turn, or has it.
pub enum Stage {
    /// It has no ticket.
    Idle,
    /// It has this ticket.
    Waiting(u64),
    /// It has the turn by this ticket, and got the value with this history.
    Holding(u64, History),
}

/// What a pass knows.
pub struct View<X> {
    /// The value as it was when the hall was opened.
    pub of: Option<Snapshot<X>>,
    /// How many parts of the hall are its own.
    pub parts: u64,
    /// Its own groups.
    pub groups: LinkedList<u32>,
    /// The history that it has seen.
    pub seen: History,
    /// Of each of its own groups, the events.
    pub known: LinkedList<(u32, History)>,
    /// Whether it waits or has the turn.
    pub stage: Stage,
}

/// What a hall is told once, when it is opened.
#[derive(Drop)]
pub struct About<X> {
    /// The value that was put in.
    pub first: Snapshot<X>,
    /// How many parts there are.
    pub parts: u32,
    /// Whether groups may begin behind one that was given up.
    pub keep_going: bool,
}
