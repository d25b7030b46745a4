// Makes the real disks, streams, doors, link and clock, calls the top, and says how that ended.
use crate::endings::say;
use crate::key::key_in;
use crate::looking::over_files;
use crate::watcher::Printing;
use sb_app::top;
use sb_model::Text;
use sb_network::{Halls, Place, files_allowed, open_halls, places_within};
use sb_outside::{
    Dialing, Disk, Door, Link, Lobby, Logging, MemDisk, NoDoor, NoLink, PauseLobby, Reading,
    SystemClock, Writing, disks_in, hold_streams, lock_folder, made,
};
use sb_rest::Access;
use sb_words::{Command, Form, WordsFault, asked_text, fault_text, read_form};
use std::alloc::{AllocError, Global};
use std::io::Eprint;
use std::sync::Wait;
use std::thread::Threads;
use std::time::Duration;
use std::{env, io};

// The status where something of the outside can't be had.
const NOT_MADE: u8 = 11;

// The status where the output failed.
const OUTPUT_FAILED: u8 = 4;

// The status where a disk failed.
const DISK_FAILED: u8 = 5;

// The status for want of memory.
const NO_MEMORY: u8 = 7;

const NANOS_A_SECOND: u64 = 1_000_000_000;

/// What each call of the top gets.
#[derive(Drop)]
pub(crate) struct Call<'c, T> {
    pub(crate) rt: &'c HostRuntime,
    threads: &'c T,
    words: &'c [&'c str],
    clock: SystemClock<&'c HostRuntime>,
    // whom a server answers
    access: Access,
    // what a client shows
    key: Vec<u8>,
    // at which port a server listens; 0 where there is none
    port: u16,
}

/// The status that the program ends with. Words that ask for help or for the version are answered here,
/// and the top isn't called. Of each status from 2 on a line on standard error tells.
pub fn status<T: Threads + Wait + Sync>(rt: &HostRuntime, threads: &T) -> u8 {
    let Some(owned) = made(rt, "the words", "call again", words_of(rt)) else {
        return NOT_MADE;
    };
    let mut words = Vec::new(rt.alloc());
    for word in &owned {
        let Ok(()) = words.push(word.as_str()) else {
            return say(rt, NO_MEMORY, "");
        };
    }
    match asked_text(rt.alloc(), &words) {
        Ok(Some(text)) => tell(rt, text.as_str()),
        Ok(None) => status_by(rt, threads, &words),
        Err(_) => say(rt, NO_MEMORY, ""),
    }
}

// The words behind the program's name.
fn words_of(rt: &HostRuntime) -> io::Result<Vec<String>> {
    let mut words = Vec::new(rt.alloc());
    for word in env::args(rt)?.skip(1) {
        words.push(word)?;
    }
    Ok(words)
}

// Writes what was asked for to the standard output.
fn tell(rt: &HostRuntime, text: &str) -> u8 {
    match print!(rt; "{text}") {
        Ok(()) => 0,
        Err(_) => OUTPUT_FAILED,
    }
}

// The status of the call that these words make.
fn status_by<T: Threads + Wait + Sync>(rt: &HostRuntime, threads: &T, words: &[&str]) -> u8 {
    let Some(clock) = made(rt, "the clock", "set it", SystemClock::new(rt)) else {
        return NOT_MADE;
    };
    let mut call = Call {
        rt,
        threads,
        words,
        clock,
        access: Access::unlocked(rt.alloc()),
        key: Vec::new(rt.alloc()),
        port: 0,
    };
    match read_form(rt.alloc(), words) {
        Ok(form) => status_of(&mut call, &form),
        Err(WordsFault::BadWords) => bad_words(&call),
        Err(WordsFault::OutOfMemory) => say(rt, NO_MEMORY, ""),
    }
}

// The status of words that are no form.
fn bad_words<T: Threads + Wait + Sync>(call: &Call<T>) -> u8 {
    if let Ok(Some(text)) = fault_text(call.rt.alloc(), call.words) {
        let _ = eprintln!(call.rt; "bus: {text}; try bus --help");
    }
    over_nothing(call, &mut NoLink::new())
}

// The status of the call of a form.
fn status_of<T: Threads + Wait + Sync>(call: &mut Call<T>, form: &Form) -> u8 {
    let Some(key) = key_in(call.rt, form.key_file) else {
        return NOT_MADE;
    };
    match form.command {
        Command::Check if form.look => over_files(call, form.folder),
        Command::Run | Command::Check => {
            let mut doors: Vec<NoDoor> = Vec::new(call.rt.alloc());
            over_folder(call, form.folder, &mut doors, &PauseLobby)
        }
        Command::Serve => {
            let Ok(access) = access_of(call.rt, form, &key) else {
                return say(call.rt, NO_MEMORY, "");
            };
            call.access = access;
            call.port = form.port;
            over_listener(call, form)
        }
        Command::Client => {
            call.key = key;
            with_server(call, form)
        }
        Command::Drill => drill(call),
    }
}

// Whom a server answers by its form and this key, which asks for none where it is empty.
fn access_of(rt: &HostRuntime, form: &Form, key: &[u8]) -> io::Result<Access> {
    let mut access = Access::unlocked(rt.alloc());
    for host in &form.hosts {
        access.hosts.push(Text::of(rt.alloc(), host)?)?;
    }
    if let (false, Ok(key)) = (key.is_empty(), std::str::from_utf8(key)) {
        access.key = Some(Text::of(rt.alloc(), key)?);
    }
    Ok(access)
}

// A server over the files of a folder, with a door for each worker over one listener.
fn over_listener<T: Threads + Wait + Sync>(call: &Call<T>, form: &Form) -> u8 {
    let (rt, port) = (call.rt, form.port);
    let threads = threads_for(form);
    let places = usize::from(places_for(rt, form.workers, threads));
    let bound = open_halls(rt, rt.alloc(), port, places, usize::from(threads));
    if let Err(error) = &bound {
        let _ = eprintln!(rt;
            "bus: 127.0.0.1:{port}: {error}; name another port, or end what has it"
        );
    }
    let Ok((doors, halls)) = bound else {
        return NOT_MADE;
    };
    let status = over_places(call, form, rt, doors, &halls);
    let _ = eprintln!(rt; "bus: the server ended with status {status}");
    status
}

// The same over these places, whose workers wait in these halls.
fn over_places<T: Threads + Wait + Sync, S: Eprint + std::rt::Clock + Copy + Drop + Send + Sync>(
    call: &Call<T>,
    form: &Form,
    system: S,
    places: Vec<Place<S>>,
    halls: &Halls<S>,
) -> u8 {
    let Ok(mut doors) = logging(call.rt.alloc(), system, places, form.log) else {
        return say(call.rt, NO_MEMORY, "");
    };
    over_folder(call, form.folder, &mut doors, halls)
}

// Doors over these places, whose connections tell their calls in a log, where that is on.
fn logging<S: Eprint + std::rt::Clock + Copy + Drop>(
    alloc: Global,
    system: S,
    places: Vec<Place<S>>,
    is_on: bool,
) -> Result<Vec<Logging<Place<S>, S>>, AllocError> {
    let mut doors = Vec::with_capacity(alloc, places.len())?;
    for place in places {
        doors.push(Logging::new(place, alloc, system, is_on))?;
    }
    Ok(doors)
}

// In how many threads a server serves: as many as the words name, else in one; and no more than there are
// workers.
fn threads_for(form: &Form) -> u16 {
    form.threads.max(1).min(form.workers)
}

// How many of so many workers have files for their connections, in so many threads. Where these are fewer, a
// line on standard error says so.
fn places_for(rt: &HostRuntime, workers: u16, threads: u16) -> u16 {
    let Some(files) = files_allowed(rt) else {
        return workers;
    };
    let places = places_within(files, workers, threads);
    if places < workers {
        let _ = eprintln!(rt;
            "bus: {workers} connections at once want more open files than the limit, {files}, allows; {places} are served at once"
        );
    }
    places
}

// Calls the top over a link to the server at a port.
fn with_server<T: Threads + Wait + Sync>(call: &Call<T>, form: &Form) -> u8 {
    let mut link = Dialing::new(call.rt, form.port, form.patience);
    let status = over_nothing(call, &mut link);
    if status == 9 && link.is_kept_out() {
        let _ = eprintln!(call.rt;
            "bus: the server let this client not in (401 or 403); name the file of its key by --key"
        );
        return status;
    }
    say(call.rt, status, "")
}

// A drill over empty disks in memory, which fail only for want of it.
fn drill<T: Threads + Wait + Sync>(call: &Call<T>) -> u8 {
    let status = over_nothing(call, &mut NoLink::new());
    if status == DISK_FAILED || status == NO_MEMORY {
        let _ = eprintln!(call.rt;
            "bus: too little memory for this drill; start again with more, or with fewer calls"
        );
    }
    status
}

// Calls the top over empty disks in memory, and this link.
fn over_nothing<T: Threads + Wait + Sync, N: Link>(call: &Call<T>, link: &mut N) -> u8 {
    let alloc = call.rt.alloc();
    let Ok(disk_a) = MemDisk::new(alloc, Vec::new(alloc), Vec::new(alloc)) else {
        return NO_MEMORY;
    };
    let Ok(disk_b) = MemDisk::new(alloc, Vec::new(alloc), Vec::new(alloc)) else {
        return NO_MEMORY;
    };
    let mut doors: Vec<NoDoor> = Vec::new(alloc);
    let (status, disks) = over_disks(call, disk_a, disk_b, &mut doors, &PauseLobby, link);
    drop(disks);
    status
}

// Calls the top over the files of a folder, which is locked meanwhile, and these doors.
fn over_folder<T: Threads + Wait + Sync, R: Door + Send, L: Lobby + Sync>(
    call: &Call<T>,
    folder: &str,
    doors: &mut Vec<R>,
    lobby: &L,
) -> u8
where
    R::Conn: Send,
{
    let (rt, advice) = (
        call.rt,
        "name a folder that is there and that no other run holds",
    );
    let Some(streams) = made(rt, folder, advice, hold_streams(rt, folder)) else {
        return NOT_MADE;
    };
    let Some(lock) = made(rt, folder, advice, lock_folder(rt, folder)) else {
        return NOT_MADE;
    };
    let Some((disk_a, disk_b)) = disks_in(rt, rt.alloc(), folder, rt) else {
        return NOT_MADE;
    };
    let (status, disks) = over_disks(call, disk_a, disk_b, doors, lobby, &mut NoLink::new());
    if let Some((disk_a, disk_b)) = disks {
        disk_a.close();
        disk_b.close();
    }
    drop(lock);
    drop(streams);
    say(rt, status, folder)
}

/// Calls the top over these disks, doors and link, and the real clock and streams. Gives its status, and the disks
/// where they come back.
pub(crate) fn over_disks<
    T: Threads + Wait + Sync,
    D: Disk + Send + Drop,
    R: Door + Send,
    L: Lobby + Sync,
    N: Link,
>(
    call: &Call<T>,
    disk_a: D,
    disk_b: D,
    doors: &mut Vec<R>,
    lobby: &L,
    link: &mut N,
) -> (u8, Option<(D, D)>)
where
    R::Conn: Send,
{
    let rt = call.rt;
    top(
        call.threads,
        rt.alloc(),
        call.words,
        &call.access,
        disk_a,
        disk_b,
        salt_of(call.clock.began()),
        &call.clock,
        &mut Reading::new(rt.stdin(), rt),
        &mut Writing::new(rt.stdout(), rt),
        doors,
        lobby,
        &call.key,
        link,
        &Printing::new(rt, &call.clock, call.port),
    )
}

// The nanoseconds since 1970 as a salt.
fn salt_of(since_1970: Duration) -> u64 {
    since_1970
        .as_secs()
        .wrapping_mul(NANOS_A_SECOND)
        .wrapping_add(u64::from(since_1970.subsec_nanos()))
}
