//! Events and bases, written to the journal.
//!
//! A [`Recorder`] has a journal and the buffer in which what is written to it is spelled. It journals an event
//! in one record; or it stages events, each in a record of its own, and seals all of them at once: until then none counts, wherever a
//! crash comes, and then all do. It takes a base a piece after another (`Pieces`) for the file with which the journal is to go on:
//! until that is sealed the file before counts, and then, once all of it is safe, the next one.
//!
//! ```text
//! let mut recorder = Recorder::over(journal, buffer);
//! let number = recorder.record(&event)?; // safe on the disk
//! recorder.stage(&event)?;
//! recorder.stage(&another)?;
//! let first = recorder.seal_events()?; // both are safe
//! if recorder.start(first + 2, base_length)? {
//!     recorder.put(&base)?; // in any pieces
//!     recorder.seal()?; // the journal goes on with the next file
//! }
//! let (disk_a, disk_b) = recorder.close();
//! ```
#![tactic(auto)]

mod recorder;

pub use recorder::Recorder;
