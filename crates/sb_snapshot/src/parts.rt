// What the base lists, in its order: a state whose entities, parts and sessions lie apart.
use sb_machine::{AcceptedId, Kept, LeafKey, Listed, Session, StoredCopy, Transaction};
use sb_model::Rows;

/// An entity without its parts.
#[derive(Drop)]
pub struct EntityHead {
    pub about: Listed,
    /// By moment, then id.
    pub ids: Rows<AcceptedId>,
}

/// A part of an entity, without its sessions.
#[derive(Drop)]
pub struct PlacedLeaf {
    pub key: LeafKey,
    /// The last number given there.
    pub last: u64,
    /// In rising number.
    pub copies: Rows<StoredCopy>,
}

/// A session, and the part in which it lies.
#[derive(Drop)]
pub struct PlacedSession {
    pub key: LeafKey,
    pub session: Session,
}

/// A whole state but for its salt, in the order of the base.
#[derive(Drop)]
pub struct Parts {
    pub now: u64,
    pub last_lock: u64,
    pub last_txn: u64,
    pub last_entity: u64,
    /// By number.
    pub entities: Rows<EntityHead>,
    /// Three of each entity, in its order.
    pub leaves: Rows<PlacedLeaf>,
    pub removed: u64,
    /// By part, then id.
    pub sessions: Rows<PlacedSession>,
    /// By number.
    pub transactions: Rows<Transaction>,
    /// By name in byte order.
    pub clients: Rows<Kept>,
}
