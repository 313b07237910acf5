/// How far a group has come.
#[derive(Clone, Copy, Debug, PartialEq, Eq)]
pub enum Phase {
    Idle,
    Building,
    Recorded,
    Marked,
    Sealed,
    Claimed,
    GatePut,
    Open,
    Placed,
    GateTaken,
    Done,
    Told,
    Abandoned,
}
