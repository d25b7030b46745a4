//! The outside, the real doors, the journal, requests and responses of HTTP, the client and the words, run: what no contract says is
//! that memory is there, what a real file does, and that the definitions mean what the standards say.
#![tactic(auto)]

#[cfg(test)]
mod asserts;
#[cfg(test)]
mod client;
#[cfg(test)]
mod connections;
#[cfg(test)]
mod http;
#[cfg(test)]
mod journal;
#[cfg(test)]
mod network;
#[cfg(test)]
mod outside;
#[cfg(test)]
mod words;
