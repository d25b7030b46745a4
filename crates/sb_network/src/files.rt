// How many files a process may have open.
ghost use Rattle.std.specs.Prelude.{◌≡◌};
ghost use Rattle.sb_network.specs.Files as limits;

use std::fs;
use std::fs::Files;

// Where Linux tells the limits of the process.
const LIMITS: &str = "/proc/self/limits";

// What stands there before the limit of open files.
const OPEN_FILES: &str = "Max open files";

// The files of a server beside its connections: streams, journals, the folder, the listener, and some
// that the system or a tool hands in.
const BESIDE: u64 = 24;

// A thread's wait has so many files.
const A_THREAD: u64 = 3;

/// How many files the process may have open, where the system says it and has such a limit.
pub fn files_allowed<R: Files + Alloc>(rt: &R) -> Option<u64> {
    match fs::read_to_string(rt, LIMITS) {
        Ok(text) => limit_in(text.as_str()),
        Err(_) => None,
    }
}

/// The limit of open files that these lines tell, in the form of Linux: the number behind `Max open files` and
/// spaces, on the first line that begins so; nothing where no line does, or no number stands there.
pub fn limit_in(text: &str) -> Option<u64> {
    for line in text.lines() {
        if let Some(rest) = line.strip_prefix(OPEN_FILES) {
            return number_of(rest.trim_start());
        }
    }
    None
}

/// How many of so many places a server of so many threads has files for, where the process may have so
/// many open.
pub fn places_within(files: u64, places: u16, threads: u16) -> u16
    ensures { result ≡ limits.places_within files places threads }
{
    let beside = BESIDE + A_THREAD * u64::from(threads);
    let most = files.saturating_sub(beside).max(1);
    u64::from(places).min(most) as u16
}

// The number at the begin of a text.
fn number_of(text: &str) -> Option<u64> {
    match text.split_once(" ") {
        Some((word, _)) => word.parse().ok(),
        None => text.parse().ok(),
    }
}
