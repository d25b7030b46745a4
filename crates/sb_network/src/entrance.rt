// The listener that all places share.
use mio::net::{TcpListener, TcpStream};
use sb_outside::made;
use std::io;
use std::io::{Eprint, ErrorKind};
use std::sync::Mutex;
use std::sync::atomic::{AtomicBool, AtomicUsize, Ordering};

// What is told where a connection can't be had for now.
const LATER: &str = "a connection can't be taken yet";

// What to do then.
const AFTER_LATER: &str = "have fewer workers, or raise the limit of open files; it is tried again";

// What is told where no connection can be had.
const NONE: &str = "a connection can't be taken";

// What to do then.
const AFTER_NONE: &str = "look at the limits of the process and start again";

// Linux's numbers of ENOMEM, ENFILE, EMFILE, ENOSPC and ENOBUFS: the system has no room for now.
const NO_ROOM: [i32; 5] = [12, 23, 24, 28, 105];

/// A listener for so many places, and whether it was told that the system has no room.
#[derive(Drop)]
pub(crate) struct Entrance<E: Eprint + Drop> {
    listener: TcpListener,
    stderr: E,
    told: AtomicBool,
    // How many places have no connection.
    free: AtomicUsize,
    // A caller for whom there was no place yet.
    waiting: Mutex<Option<TcpStream>>,
}

impl<E: Eprint + Drop> Entrance<E> {
    /// An entrance over this listener, to so many places.
    pub(crate) fn new(listener: TcpListener, stderr: E, places: usize) -> Self {
        Entrance {
            listener,
            stderr,
            told: AtomicBool::new(false),
            free: AtomicUsize::new(places),
            waiting: Mutex::new(None),
        }
    }

    /// A place has a connection from now on.
    pub(crate) fn takes_place(&self) {
        self.free.fetch_sub(1, Ordering::SeqCst);
    }

    /// A place has none any more.
    pub(crate) fn leaves_place(&self) {
        self.free.fetch_add(1, Ordering::SeqCst);
    }

    /// Whether all places are taken and somebody waits for one: that caller has the next place.
    pub(crate) fn is_crowded(&self) -> bool {
        if self.free.load(Ordering::SeqCst) > 0 {
            return false;
        }
        let Some(mut waiting) = self.waiting.try_lock() else {
            return false;
        };
        if waiting.is_none() {
            *waiting = self.come().ok();
        }
        waiting.is_some()
    }

    /// Whether a caller waits for whom there was no place.
    pub(crate) fn has_waiting(&self) -> bool {
        match self.waiting.try_lock() {
            Some(waiting) => waiting.is_some(),
            None => true,
        }
    }

    // The caller for whom there was no place yet.
    fn waited(&self) -> Option<TcpStream> {
        let Some(mut waiting) = self.waiting.try_lock() else {
            return None;
        };
        waiting.take()
    }

    /// The next connection.
    pub(crate) fn next(&self) -> io::Result<TcpStream> {
        match self.waited() {
            Some(stream) => Ok(stream),
            None => self.come(),
        }
    }

    // The next who calls; a call whose caller has gone meanwhile, and one that a signal interrupted, is made
    // again.
    fn come(&self) -> io::Result<TcpStream> {
        for _ in 0..u64::MAX {
            match self.listener.accept() {
                Ok((stream, _)) => return Ok(stream),
                Err(error)
                    if error.kind() == ErrorKind::Interrupted
                        || error.kind() == ErrorKind::ConnectionAborted => {}
                Err(error) => return Err(error),
            }
        }
        Err(io::Error::from(ErrorKind::Interrupted))
    }

    /// Tells once that the system has no room for a connection.
    pub(crate) fn tell_later(&self, error: io::Error) {
        if !self.told.swap(true, Ordering::SeqCst) {
            tell(&self.stderr, LATER, AFTER_LATER, error);
        }
    }

    /// Tells that connections can't be had.
    pub(crate) fn tell_none(&self, error: io::Error) {
        tell(&self.stderr, NONE, AFTER_NONE, error);
    }
}

fn tell<E: Eprint>(stderr: &E, on: &str, advice: &str, error: io::Error) {
    let told: Option<()> = made(stderr, on, advice, Err(error));
    drop(told);
}

/// Whether this error says that the system has no room for a connection for now.
pub(crate) fn has_no_room(error: &io::Error) -> bool {
    match error.raw_os_error() {
        Some(code) => NO_ROOM.contains(&code),
        None => false,
    }
}
