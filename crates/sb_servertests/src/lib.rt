//! Whole calls of the program that serve, over doors in memory: what each connection is given, and how a call ends,
//! worked out by hand; what a server leaves whose disk fails, or that makes checkpoints by itself. Servers whose callers
//! wait, are slow or leave stand in `sb_waitingtests`. What no contract says is that memory is there, that somebody is
//! served, and that a checkpoint is made at some time.
#![tactic(auto)]

#[cfg(test)]
mod checkpoint_tests;
#[cfg(test)]
mod failed_seal_tests;
#[cfg(test)]
mod lines_tests;
#[cfg(test)]
mod linked_tests;
#[cfg(test)]
mod server_tests;
