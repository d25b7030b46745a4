use std::collections::LinkedList;

/// The numbers of a history. Each stands still at 2^64 - 1.
#[derive(Clone, Copy, PartialEq, Eq)]
pub struct Report {
    /// How many entries it has, ticks included.
    pub entries: u64,
    /// How many of them changed the state.
    pub changing: u64,
    /// How many calls were refused, whatever for.
    pub refused: u64,
}

/// What a disk held at one moment, and what bounds the images that a crash might have left then.
/// Places and lengths are in bytes. No value of it is made.
pub struct DiskMoment {
    /// The bytes that a read returned.
    pub seen: LinkedList<u8>,
    /// The bytes as the last sync had left them.
    pub synced: LinkedList<u8>,
    /// The place and the length of each range written since that sync.
    pub ranges: LinkedList<(u64, u64)>,
    /// The least and the greatest length since then.
    pub least: u64,
    pub greatest: u64,
}

/// What a namespace found on one of its disks as it was opened. No value of it is made.
pub struct DiskOrigin {
    /// How many calls of the disk had failed.
    pub faults: u64,
    /// Whether what is said of its content held.
    pub honest: bool,
    /// What it held then.
    pub held: DiskMoment,
    /// What it had held at each moment before, the oldest first.
    pub past: LinkedList<DiskMoment>,
}

/// What a namespace found on its two disks as it was opened, and how it uses them. No value of it is made.
pub struct Origin {
    pub disk_a: DiskOrigin,
    pub disk_b: DiskOrigin,
    /// Whether it goes on with a new file by itself, now and then.
    pub goes_on: bool,
}
