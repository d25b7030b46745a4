// What an operator wants to know of a server as it opens and as it ends.

/// What a server has come to.
#[derive(Clone, Copy, PartialEq, Eq)]
pub enum Notice {
    /// The namespace stands open behind so many journal records, and no door was used yet.
    Opened { records: u64 },
    /// Behind the opening the clock read less than the moment up to which the namespace's time has
    /// come, both in ms since 1970: until the clock has caught up, time stands there.
    Ahead { moment_ms: u64, reading_ms: u64 },
    /// It isn't held back: from here on its doors are used.
    Serves,
    /// It ends with this status.
    Ended { status: u8 },
}

/// Who is told of what a server comes to. Nothing is said of it: what it does with a notice changes
/// nothing of the server.
pub trait Watcher {
    /// Takes a notice.
    fn tell(&self, notice: Notice);
}

/// A watcher who takes no notice.
#[derive(Clone, Copy)]
pub struct NoWatcher;

impl Watcher for NoWatcher {
    fn tell(&self, _notice: Notice) {}
}
