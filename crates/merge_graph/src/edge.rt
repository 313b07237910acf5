/// That one node waits for another, and whether it builds on it.
#[derive(Clone, Copy, Debug)]
pub struct Edge {
    pub from: usize,
    pub to: usize,
    pub builds: bool,
}
