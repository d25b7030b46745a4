use sb_machine::{Answer, Call};

/// A call that is carried out together with others.
#[derive(Drop)]
pub struct Post {
    /// The number of the pass whose call it is.
    pub seat: u64,
    /// The clock's reading at which it is made, in ms since 1970.
    pub reading: u64,
    pub call: Call,
    /// What it came to, once it is carried out.
    pub went: Option<Went>,
}

/// What a call came to.
#[derive(Drop)]
pub struct Went {
    pub answer: Answer,
    /// The moment of the tick before the call, in ms since 1970, where something was due.
    pub tick: Option<u64>,
}
