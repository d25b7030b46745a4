//! Whole calls of the program over disks, streams and links in memory that fail or wait, each with the lines
//! that it must write, the bytes that it must leave and its status, worked out by hand; scripts over a quiet
//! outside stand in the tables of `sb_rows`, and servers in `sb_servertests` and `sb_waitingtests`. What no
//! contract says is that memory is there, and that the definitions mean what the documents say.
#![tactic(auto)]

#[cfg(test)]
mod adapter_tests;
#[cfg(test)]
mod checkpoint_tests;
#[cfg(test)]
mod client_tests;
#[cfg(test)]
mod jump_tests;
#[cfg(test)]
mod look_tests;
#[cfg(test)]
mod stop_tests;
#[cfg(test)]
mod tests;
