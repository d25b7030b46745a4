// What is told of a fault on standard error, as it is met.
use std::io;
use std::io::Eprint;

/// What to do where a disk failed.
pub(crate) const AFTER_DISK: &str =
    "make room, or mend the disk, and start again; what was acknowledged is there";

/// What to do where the input failed.
pub(crate) const AFTER_INPUT: &str =
    "what was answered stands; send the lines without an answer again";

/// What to do where the output failed.
pub(crate) const AFTER_OUTPUT: &str =
    "what was answered stands, and the last call may have acted; look before it is sent again";

/// What to do where the link to a server failed.
pub(crate) const AFTER_LINK: &str =
    "see that the server runs; the last call may have acted, look before it is sent again";

/// What to do where no connection can be taken.
pub(crate) const AFTER_DOOR: &str = "look at the limits of the process and start again";

/// Writes one line on standard error: on what something failed, the system's words, and what to do. Where
/// the line can't be written, nothing is told.
pub(crate) fn tell<E: Eprint>(stderr: &E, on: &str, error: io::Error, advice: &str) {
    let _ = eprintln!(stderr; "bus: {on}: {error}; {advice}");
}

/// What was made of the outside; of an error it tells, on standard error, on what it was met, and what to
/// do, and gives none.
pub fn made<T, E: Eprint>(stderr: &E, on: &str, advice: &str, value: io::Result<T>) -> Option<T> {
    match value {
        Ok(value) => Some(value),
        Err(error) => {
            tell(stderr, on, error, advice);
            None
        }
    }
}
