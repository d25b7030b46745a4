// What becomes of messages and copies: sent, handed out, settled, given up, queued in a transaction.

pub mod arrivals;
pub mod committing;
pub mod fulfilling;
pub mod handing;
pub mod queueing;
pub mod release;
pub mod sending;
pub mod settling;
