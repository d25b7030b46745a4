//! A journal on a disk: payloads, each safe on the disk before it is acknowledged.
//!
//! It stands on `sb_outside::Disk` alone. A journal file has a head (magic, version, salt,
//! generation, first event number, base) and then records, each behind a gate byte; the file ends
//! at the first gate that isn't open. Records are written behind a closed gate and made safe, and
//! then the gate is opened and made safe: so a crash at any moment leaves the file without them or
//! with all of them. That is what `add` and `seal` say, and `append` of one record; `open` says that
//! it reads exactly what the bytes stand for, and names the place of damage where they can't be
//! read. Who judges the payloads too before anything is written opens in two parts:
//! `Unopened::read_by`, which has the base and each payload judged by a `Judge` as they are read and
//! keeps none, and then `finish`. `look_by` says what such an opening would find, and does nothing to the disks. `read`,
//! `open` and `look` do the same with a judge that takes and keeps all.
//!
//! ```text
//! let (mut journal, found) = Journal::open(alloc, disk_a, disk_b, salt)?;
//! let number = journal.append(b"an event")?;
//! journal.add(b"two that count")?;
//! journal.add(b"together or not")?;
//! let first = journal.seal()?;
//! let (disk_a, disk_b) = journal.close();
//! ```
#![tactic(auto)]

mod append;
mod aside;
mod base;
mod choosing;
mod collecting;
mod creating;
mod found;
mod journal;
mod judge;
pub mod laws;
mod looking;
mod opening;
mod picking;
mod piece;
mod reading;
mod rotating;
mod unopened;

pub use collecting::Collecting;
pub use creating::create;
pub use found::{Found, OpenFault, OpenWhy, Side};
pub use journal::Journal;
pub use judge::{Judge, Judged};
pub use looking::{look, look_by};
pub use rotating::NextFile;
pub use sb_outside::Bytes;
pub use unopened::Unopened;
