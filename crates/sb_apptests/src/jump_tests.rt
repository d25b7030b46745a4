// Clocks far ahead of a journal, and lines of a run far ahead of a clock: what is told, what is left on the
// disks, and who is told of it.
use sb_app::{Notice, Watcher};
use sb_calls::{bytes_of, called, connection_of, doors_of, sink_of, source_of};
use sb_outside::{MemDisk, MemDoor, MemSink, NoLink, StepClock};
use sb_rest::Access;
use std::sync::Wait;
use std::sync::atomic::{AtomicU64, Ordering};
use std::test::Fail;
use std::thread::Threads;

// 2026-01-01 and 2028-01-01.
const FIRST: u64 = 1_767_225_600_000;

const THIRD: u64 = 1_830_297_600_000;

const RUN: &[&str] = &["run", "--data", "."];

const RUN_A_DAY: &[&str] = &["run", "--data", ".", "--max-jump=1"];

const SERVE: &[&str] = &["serve", "--data", ".", "--port", "8080"];

const SERVE_EVER: &[&str] = &["serve", "--data", ".", "--port", "8080", "--max-jump=0"];

const SERVE_YEARS: &[&str] = &["serve", "--data", ".", "--port", "8080", "--max-jump=730"];

const SERVE_LESS: &[&str] = &["serve", "--data", ".", "--port", "8080", "--max-jump=729"];

const CHECK: &[&str] = &["check", "--data", "."];

const MADE: &str = "{\"at\":1767225600000,\"do\":\"create-queue\",\"name\":\"q\"}\n";

const MADE_EARLY: &str = "{\"at\":60000,\"do\":\"create-queue\",\"name\":\"q\"}\n";

const DONE: &str = "{\"ok\":\"done\"}\n";

// At the clock, a day ahead of it, a millisecond further, and at the clock again.
const LINES: &str =
    "{\"at\":1767225600000,\"do\":\"create-queue\",\"name\":\"q\"}\n{\"at\":1767312000000,\"do\":\"create-queue\",\"name\":\"r\"}\n\n{\"at\":1767312000001,\"do\":\"create-queue\",\"name\":\"s\"}\n{\"at\":1767225600000,\"do\":\"create-queue\",\"name\":\"t\"}\n";

const LINES_TOLD: &str =
    "{\"ok\":\"done\"}\n{\"ok\":\"done\"}\n{\"moment\":1767312000001,\"reading\":1767225600000,\"refused\":\"TimeJump\"}\n";

const ALL_TOLD: &str =
    "{\"ok\":\"done\"}\n{\"ok\":\"done\"}\n{\"ok\":\"done\"}\n{\"ok\":\"done\"}\n";

const CHECKED: &str =
    "{\"copies\":0,\"entities\":2,\"events\":2,\"made\":0,\"now\":1767312000000,\"ok\":\"check\"}\n";

const JUMP: &str =
    "{\"moment\":1767225600000,\"reading\":1830297600000,\"refused\":\"TimeJump\"}\n";

const SERVED: &str = "{\"changing\":1,\"entries\":1,\"ok\":\"report\",\"refused\":0}\n";

const SEND: &[u8] = b"POST /q/messages HTTP/1.1\r\nHost: h\r\nContent-Length: 2\r\n\r\nhi";

const SENT: &[u8] = b"HTTP/1.1 201 Created\r\nContent-Length: 0\r\n\r\n";

// What a watcher was told.
#[derive(Drop)]
struct Heard {
    records: AtomicU64,
    ahead_ms: AtomicU64,
    serves: AtomicU64,
    status: AtomicU64,
}

impl Heard {
    fn new() -> Self {
        Heard {
            records: AtomicU64::new(u64::MAX),
            ahead_ms: AtomicU64::new(0),
            serves: AtomicU64::new(0),
            status: AtomicU64::new(u64::MAX),
        }
    }

    // How often it was told that a server serves.
    fn served(&self) -> u64 {
        self.serves.load(Ordering::SeqCst)
    }

    fn told(&self) -> (u64, u64, u64) {
        (
            self.records.load(Ordering::SeqCst),
            self.ahead_ms.load(Ordering::SeqCst),
            self.status.load(Ordering::SeqCst),
        )
    }
}

impl Watcher for Heard {
    fn tell(&self, notice: Notice) {
        match notice {
            Notice::Opened { records } => self.records.store(records, Ordering::SeqCst),
            Notice::Ahead {
                moment_ms,
                reading_ms,
            } => self
                .ahead_ms
                .store(moment_ms.saturating_sub(reading_ms), Ordering::SeqCst),
            Notice::Serves => {
                self.serves.fetch_add(1, Ordering::SeqCst);
            }
            Notice::Ended { status } => self.status.store(u64::from(status), Ordering::SeqCst),
        }
    }
}

// A call over a disk with these bytes, and what it must tell and end with.
#[derive(Clone, Copy)]
struct Case<'a> {
    words: &'a [&'a str],
    disk: &'a [u8],
    script: &'a str,
    reading: u64,
    told: &'a str,
    // what its one connection, which sends, is given; nothing where it isn't taken
    given: &'a [u8],
    status: u8,
}

// A door with one connection, which sends.
fn door(rt: &HostRuntime) -> Result<Vec<MemDoor>, Fail> {
    let alloc = rt.alloc();
    let conn = connection_of(alloc, SEND, 4096)?;
    Ok(doors_of(alloc, vec![in alloc; conn]?)?)
}

fn is_given(doors: &[MemDoor], response: &[u8]) -> bool {
    let Some(door) = doors.first() else {
        return false;
    };
    match door.taken().first() {
        Some(conn) => conn.bytes() == response,
        None => response.is_empty(),
    }
}

// Makes the call; its status, and disk a as it leaves it.
fn run_into<T: Threads + Wait + Sync>(
    rt: &HostRuntime,
    threads: &T,
    case: Case<'_>,
    heard: &Heard,
    output: &mut MemSink,
    doors: &mut Vec<MemDoor>,
) -> Result<(u8, MemDisk), Fail> {
    let alloc = rt.alloc();
    let mut input = source_of(alloc, case.script.as_bytes(), 7, &[])?;
    let clock = StepClock::new(case.reading, 0);
    let access = Access::unlocked(alloc);
    let ended = called(
        threads,
        alloc,
        case.words,
        &access,
        (case.disk, &[]),
        &clock,
        &mut input,
        output,
        doors,
        &mut NoLink::new(),
        heard,
    );
    drop(access);
    drop(clock);
    drop(input);
    Ok(ended?)
}

// The disk that the call leaves, where it tells and ends with what it must.
fn ran<T: Threads + Wait + Sync>(
    rt: &HostRuntime,
    threads: &T,
    case: Case<'_>,
    heard: &Heard,
    doors: &mut Vec<MemDoor>,
) -> Result<MemDisk, Fail> {
    let mut output = sink_of(rt.alloc(), 4096, &[])?;
    let ended = run_into(rt, threads, case, heard, &mut output, doors);
    let is_told = output.bytes() == case.told.as_bytes();
    drop(output);
    let (status, disk) = ended?;
    if is_told && status == case.status {
        return Ok(disk);
    }
    drop(disk);
    if is_told {
        return Err(Fail::from("another status"));
    }
    Err(Fail::from("other lines were written"))
}

// The bytes that the call leaves on disk a.
fn leaves<T: Threads + Wait + Sync>(
    rt: &HostRuntime,
    threads: &T,
    case: Case<'_>,
    heard: &Heard,
) -> Result<Vec<u8>, Fail> {
    let mut doors = door(rt)?;
    let ran = ran(rt, threads, case, heard, &mut doors);
    let is_so = is_given(&doors, case.given);
    drop(doors);
    let disk = ran?;
    if !is_so {
        drop(disk);
        return Err(Fail::from("another response"));
    }
    Ok(bytes_of(rt.alloc(), disk)?)
}

fn answers<'a>(words: &'a [&'a str], disk: &'a [u8], script: &'a str, told: &'a str) -> Case<'a> {
    Case {
        words,
        disk,
        script,
        reading: FIRST,
        told,
        given: &[],
        status: 0,
    }
}

fn serves<'a>(words: &'a [&'a str], disk: &'a [u8], reading: u64) -> Case<'a> {
    Case {
        words,
        disk,
        script: "",
        reading,
        told: SERVED,
        given: SENT,
        status: 0,
    }
}

// A server at a clock that is too far ahead leaves the disk, serves nobody, and tells what came of it.
fn try_held<T: Threads + Wait + Sync>(
    rt: &HostRuntime,
    threads: &T,
    words: &[&str],
    made: &[u8],
    heard: &Heard,
) -> Result<(), Fail> {
    let held = Case {
        told: JUMP,
        given: &[],
        status: 14,
        ..serves(words, made, THIRD)
    };
    let left = leaves(rt, threads, held, heard)?;
    let is_so = left.as_slice() == made;
    drop(left);
    if !is_so {
        return Err(Fail::from("the disk was changed"));
    }
    if heard.told() != (1, 0, 14) || heard.served() != 0 {
        return Err(Fail::from("the watcher was told something else"));
    }
    Ok(())
}

fn try_served<T: Threads + Wait + Sync>(
    rt: &HostRuntime,
    threads: &T,
    made: &[u8],
    heard: &Heard,
) -> Result<(), Fail> {
    for words in &[SERVE, SERVE_LESS] {
        try_held(rt, threads, *words, made, heard)?;
    }
    for words in &[SERVE_EVER, SERVE_YEARS] {
        drop(leaves(rt, threads, serves(*words, made, THIRD), heard)?);
    }
    Ok(())
}

fn try_made<T: Threads + Wait + Sync>(
    rt: &HostRuntime,
    threads: &T,
    heard: &Heard,
) -> Result<(), Fail> {
    let made = leaves(rt, threads, answers(RUN, &[], MADE, DONE), heard)?;
    let tried = try_served(rt, threads, &made, heard);
    drop(made);
    tried
}

fn try_early<T: Threads + Wait + Sync>(
    rt: &HostRuntime,
    threads: &T,
    heard: &Heard,
) -> Result<(), Fail> {
    let early = leaves(rt, threads, answers(RUN, &[], MADE_EARLY, DONE), heard)?;
    let left = leaves(rt, threads, serves(SERVE, &early, THIRD), heard);
    drop(early);
    drop(left?);
    Ok(())
}

// A clock two years on, 730 days, is too far ahead of a journal of 2026 by default and by 729 days: the disk
// is left as the opening leaves it, and nobody is served. By 730 days and by 0 it isn't, nor is it of a
// journal at a moment that a script made up.
#[test]
fn a_clock_two_years_on(rt: HostRuntime) -> Result<(), Fail> {
    let heard = Heard::new();
    for script in &[MADE, MADE_EARLY] {
        let case = answers(RUN, &[], *script, DONE);
        drop(leaves(&rt, &rt, case, &heard)?);
    }
    assert_eq!(rt; heard.told(), (u64::MAX, 0, u64::MAX));
    try_made(&rt, &rt, &heard)?;
    try_early(&rt, &rt, &heard)?;
    assert_eq!(rt; heard.told(), (1, 0, 0));
    assert_eq!(rt; heard.served(), 3);
    Ok(())
}

// Serves over what the first lines leave, at this reading.
fn try_behind<T: Threads + Wait + Sync>(
    rt: &HostRuntime,
    threads: &T,
    reading: u64,
    heard: &Heard,
) -> Result<(), Fail> {
    let made = leaves(rt, threads, answers(RUN, &[], MADE, DONE), heard)?;
    let left = leaves(rt, threads, serves(SERVE, &made, reading), heard);
    drop(made);
    drop(left?);
    Ok(())
}

// A namespace that is ahead of the clock is served, and the watcher is told by how much.
#[test]
fn a_clock_behind(rt: HostRuntime) -> Result<(), Fail> {
    let heard = Heard::new();
    try_behind(&rt, &rt, 1_767_225_599_000, &heard)?;
    assert_eq!(rt; heard.told(), (1, 1000, 0));
    Ok(())
}

fn try_ahead<T: Threads + Wait + Sync>(
    rt: &HostRuntime,
    threads: &T,
    heard: &Heard,
) -> Result<(), Fail> {
    let held = Case {
        status: 14,
        ..answers(RUN_A_DAY, &[], LINES, LINES_TOLD)
    };
    let left = leaves(rt, threads, held, heard)?;
    let checked = leaves(rt, threads, answers(CHECK, &left, "", CHECKED), heard);
    drop(left);
    drop(checked?);
    Ok(())
}

// The lines before one that is too far ahead of the clock are answered, and it isn't carried out, nor is
// what comes behind it.
#[test]
fn a_line_ahead(rt: HostRuntime) -> Result<(), Fail> {
    let heard = Heard::new();
    try_ahead(&rt, &rt, &heard)?;
    drop(leaves(&rt, &rt, answers(RUN, &[], LINES, ALL_TOLD), &heard)?);
    Ok(())
}
