// What changes in one entity.
use sb_machine::{LeafChange, Part, Rule};
use sb_model::{Name, Text};

/// What changes in one entity.
#[derive(Drop)]
pub enum EntityChange {
    /// In one of its parts, with the next lock number.
    InPart {
        part: Part,
        lock: u64,
        change: LeafChange,
    },
    /// An id is accepted.
    NotesId(Text),
    GainsRule(Rule),
    LosesRule(Name),
}
