use crate::{Description, EntityKind, FilterText, Path};
use sb_model::{Name, Rows, Text};

/// What an operator looks at.
#[derive(Clone, Drop)]
pub enum Look {
    /// The entities, in order of their addresses: up to `count` (1 to 1,000) of those whose names
    /// begin with `prefix`, behind the address `after`.
    Entities {
        prefix: Option<Name>,
        after: Option<Path>,
        count: u64,
    },
    /// How an entity is described, its rules, and whether what it forwards to is there.
    Entity {
        path: Path,
    },
    /// The sessions of an entity, in order of their ids: up to `count` (1 to 1,000) behind the id
    /// `after`.
    Sessions {
        path: Path,
        after: Option<Text>,
        count: u64,
    },
    /// The open transactions, in order of their numbers.
    Transactions,
    /// The clients that are remembered, in order of their names: up to `count` (1 to 1,000) behind
    /// the name `after`.
    Clients {
        after: Option<Text>,
        count: u64,
    },
}

/// How many copies of a part stand how.
#[derive(Clone, Copy, PartialEq, Eq)]
pub struct PartShown {
    /// They may be received.
    pub ready: u64,
    /// They are under a lock.
    pub held: u64,
    /// They may be received by their numbers.
    pub deferred: u64,
    /// They enter later.
    pub scheduled: u64,
    /// The least EnqueuedTime of those that may be received, in ms since 1970.
    pub oldest: Option<u64>,
}

/// An entity in a list.
#[derive(Clone, Drop)]
pub struct EntityShown {
    pub kind: EntityKind,
    /// Of part Main.
    pub path: Path,
    pub main: PartShown,
    pub dead: PartShown,
    pub transfer: PartShown,
    /// The sessions of an entity that has some: those that are held, have a state, or have a message
    /// that may be received.
    pub sessions: u64,
    /// Those of them that are held.
    pub held_sessions: u64,
}

/// A rule as it was asked for.
#[derive(Drop)]
pub struct RuleShown {
    pub name: Name,
    pub filter: FilterText,
    pub action: Option<Text>,
}

/// How an entity is described.
#[derive(Drop)]
pub struct Described {
    pub kind: EntityKind,
    pub description: Description,
    /// Whether the queue or topic that `forward_to` names is there; not so where it names none.
    pub forward_there: bool,
    /// The same of `forward_dead_to`.
    pub forward_dead_there: bool,
    /// In the order in which they are tried.
    pub rules: Rows<RuleShown>,
}

/// A session in a list.
#[derive(Clone, Drop)]
pub struct SessionShown {
    pub id: Text,
    /// The moment up to which it is held, in ms since 1970, where it is.
    pub until: Option<u64>,
    /// The bytes of its state; 0 where it has none.
    pub state_bytes: u64,
    /// Its messages that may be received.
    pub ready: u64,
}

/// An open transaction in a list.
#[derive(Clone, Drop)]
pub struct TransactionShown {
    pub number: u64,
    /// The address of its entity.
    pub entity: Option<Path>,
    /// When it is dropped, in ms since 1970.
    pub deadline: u64,
    /// How many operations are queued in it.
    pub operations: u64,
}

/// A client in a list.
#[derive(Clone, Drop)]
pub struct ClientShown {
    pub client: Text,
    /// Of its last call that was accepted.
    pub number: u64,
}

/// What a look shows.
#[derive(Drop)]
pub enum View {
    Entities(Rows<EntityShown>),
    Entity(Described),
    Sessions(Rows<SessionShown>),
    Transactions(Rows<TransactionShown>),
    Clients(Rows<ClientShown>),
}
