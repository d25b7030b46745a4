//! Whole calls of the program that serve, over doors in memory whose callers wait, are slow or leave, or that threads
//! share: what each connection is given and when it is let go, worked out by hand; and desks over nodes whose calls share
//! syncs. What no contract says is that memory is there, that somebody is served, and that who waits is woken.
#![tactic(auto)]

#[cfg(test)]
mod callers;
#[cfg(test)]
mod desks;
#[cfg(test)]
mod limits_tests;
#[cfg(test)]
mod numbers_tests;
#[cfg(test)]
mod passes_tests;
#[cfg(test)]
mod patient_lines_tests;
#[cfg(test)]
mod posted_tests;
#[cfg(test)]
mod posting;
#[cfg(test)]
mod shares;
#[cfg(test)]
mod sharing_tests;
#[cfg(test)]
mod waiting_tests;
#[cfg(test)]
mod woken_tests;
