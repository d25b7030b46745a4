//! The outside of the broker: disks, byte streams, clocks, listeners and links.
//!
//! Each is a trait whose contract says what a call may do. A disk is data (what a read returns,
//! what a crash may leave), so that the layers above can speak of a crash at any moment.
#![tactic(auto)]

mod adapters;
mod bytes;
mod call_log;
mod clock;
mod conn;
mod disk;
mod door;
mod faults;
mod folder;
mod images;
mod link;
mod lobby;
mod logging;
mod memory;
mod memory_conn;
mod memory_door;
mod memory_image;
mod memory_link;
mod memory_streams;
mod network;
mod pace;
mod read_only;
mod step_clock;
mod streams;
mod telling;

pub use adapters::{Connected, FileDisk, Reading, SystemClock, Writing};
pub use bytes::Bytes;
pub use call_log::{CallLog, asked_words, call_line};
pub use clock::Clock;
pub use conn::{Conn, NoConn};
pub use disk::{Disk, DiskFault, LONGEST_DISK};
pub use door::{Door, DoorFault, Given, NoDoor};
pub use folder::{HeldStreams, disks_in, hold_streams, lock_folder, open_disk, sync_folder};
pub use images::{cuts_keep_images, rest_has_one_image, writes_keep_images};
pub use link::{Link, LinkFault, NoLink};
pub use lobby::{Lobby, PauseLobby};
pub use logging::{Logged, Logging};
pub use memory::MemDisk;
pub use memory_conn::MemConn;
pub use memory_door::MemDoor;
pub use memory_link::MemLink;
pub use memory_streams::{MemSink, MemSource, SureSource};
pub use network::{Dialing, Listening};
pub use read_only::{ReadOnly, read_disk};
pub use step_clock::StepClock;
pub use streams::{ReadFault, Sink, Source, WriteFault, write_all};
pub use telling::made;
