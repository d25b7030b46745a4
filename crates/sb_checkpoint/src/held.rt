// The stores that hold a state.
use sb_entities::SpaceStore;
use sb_repeats::Clients;

/// The stores that hold a state.
#[derive(Clone, Copy)]
pub struct Held<'a> {
    /// The moment up to which time has come, in ms since 1970.
    pub moment: u64,
    pub clients: &'a Clients,
    pub space: &'a SpaceStore,
}
