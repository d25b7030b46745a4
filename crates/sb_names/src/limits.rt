// Limits of calls and of the namespace.

/// The greatest number that the namespace gives.
pub const MAX_NUMBER: u64 = 9_223_372_036_854_775_807;

/// The longest time to live, in s: its end in ms fits 63 bits.
pub const MAX_TTL: u64 = 922_337_203_685;

/// Messages of one send.
pub const MAX_MESSAGES: usize = 100;

/// Copies of one peek.
pub const MAX_PEEKED: u64 = 100;

/// Entities or sessions of one list.
pub const MAX_LISTED: u64 = 1000;

/// Bytes of an entity's name.
pub const MAX_NAME: usize = 260;

/// User properties of one message.
pub const MAX_USER_PROPERTIES: usize = 256;

/// Bytes of a body, and of the bodies and properties of a send of two or more messages.
pub const MAX_BODY: u64 = 262_144;

/// Bytes of the properties of one message, and of the conditions of one filter.
pub const MAX_PROPERTY_BYTES: u64 = 65_536;

/// Characters of a given reason to dead-letter, and of its description.
pub const MAX_REASON: usize = 4096;

/// Characters of a session's id, and of a MessageId.
pub const MAX_ID: usize = 128;

/// Bytes of a client's name.
pub const MAX_CLIENT: usize = 50;

/// Transactions that are open at once.
pub const MAX_TRANSACTIONS: usize = 1000;

/// How long a transaction lives, in ms, without an operation.
pub const TXN_LIFE: u64 = 120_000;

/// Clients of which a numbered call is kept.
pub const MAX_CLIENTS: usize = 10_000;

/// Live copies of a namespace.
pub const MAX_COPIES: u64 = 1_000_000;

/// Operations of one transaction; each message and each settlement counts one.
pub const MAX_OPERATIONS: usize = 100;

/// Operations that act together.
pub const MAX_STEPS: usize = 100;

/// Bytes that a session remembers (Microsoft Learn, "Message sessions", Message session state: as
/// many as one message may have; "Service Bus quotas": 256 KB).
pub const MAX_STATE: usize = 262_144;

/// How often a hand-out that came back is counted.
pub const MAX_COUNT: u32 = 4_294_967_294;
