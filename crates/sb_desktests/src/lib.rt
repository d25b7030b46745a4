//! A desk over a small namespace, with callers on one thread and on eight: what no contract says is
//! that memory is there and that somebody is served.
#![tactic(auto)]

#[cfg(test)]
mod callers;
#[cfg(test)]
mod one_queue;
#[cfg(test)]
mod tests;
mod worked;

pub use worked::worked_rows;
