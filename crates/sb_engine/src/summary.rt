/// The numbers of a namespace.
#[derive(Clone, Copy, PartialEq, Eq)]
pub struct Summary {
    /// The live copies.
    pub copies: u64,
    /// The entities that are there.
    pub entities: u64,
    /// The number of the last journal record; an engine knows of none, and says 0.
    pub events: u64,
    /// All copy numbers that were ever given.
    pub made: u64,
    /// The moment up to which time has come, in ms since 1970.
    pub now: u64,
}
