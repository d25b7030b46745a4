// What an opening found on its disks, or why it found nothing.
use crate::Bytes;

/// Which of the two disks.
#[derive(Clone, Copy, PartialEq, Eq)]
pub enum Side {
    A,
    B,
}

/// The file that a journal was opened with.
#[derive(Drop)]
pub struct Found {
    /// The disk that it stands on.
    pub disk: Side,
    /// Which file of this journal it is, counted from 1.
    pub generation: u64,
    /// Told apart by it from the files of other journals.
    pub salt: u64,
    /// The number of the first event, from 1.
    pub first: u64,
    /// The state that its events begin with; none is the empty state.
    pub base: Bytes,
    /// The payloads of its events, the oldest first.
    pub payloads: Vec<Bytes>,
}

/// Why a journal isn't open.
#[derive(Clone, Copy, PartialEq, Eq)]
pub enum OpenWhy {
    /// This disk has a file that can't be read, from this place on; at place 0, more bytes than a new
    /// file has, which don't begin as one. Nothing was written to it.
    Damaged(Side, u64),
    /// A call of a disk failed.
    DiskFault,
    OutOfMemory,
}

/// A journal that isn't open, and its two disks.
#[derive(Drop)]
pub struct OpenFault<D> {
    pub disk_a: D,
    pub disk_b: D,
    pub why: OpenWhy,
}
