// A server that makes a checkpoint by itself, and one that makes one at its end: the journal goes on with a file
// on the other disk, and all that was sent is there. The lines were worked out by hand.
use sb_app::NoWatcher;
use sb_calls::{
    ONE_EVENT, bytes_of, called_over, disks_of, lone_door, ran_on_both, sink_of, source_of,
};
use sb_outside::{MemDisk, MemDoor, MemSink, NoLink, PauseLobby, StepClock};
use sb_rest::Access;
use std::alloc::Global;
use std::sync::Wait;
use std::test::Fail;
use std::thread::Threads;

// By 150 bytes: the event of the queue takes 44 bytes, and that of each message 52; so a checkpoint is made
// before the fourth message, and none behind it.
static SERVE: [&str; 6] = [
    "serve",
    "--data",
    "data",
    "--port",
    "8080",
    "--checkpoint-after=150",
];

static SERVE_ALONE: [&str; 6] = [
    "serve",
    "--data",
    "data",
    "--port",
    "8080",
    "--checkpoint-after=0",
];

// At its end alone.
static SERVE_TO_AN_END: [&str; 7] = [
    "serve",
    "--data",
    "data",
    "--port",
    "8080",
    "--checkpoint-after=0",
    "--checkpoint",
];

static CHECK: [&str; 2] = ["check", "--data=."];

static RUN: [&str; 3] = ["run", "--data", "."];

const SENDS: &str =
    "POST /q/messages HTTP/1.1\r\nHost: h\r\nContent-Length: 2\r\n\r\nm1POST /q/messages HTTP/1.1\r\nHost: h\r\nContent-Length: 2\r\n\r\nm2POST /q/messages HTTP/1.1\r\nHost: h\r\nContent-Length: 2\r\n\r\nm3POST /q/messages HTTP/1.1\r\nHost: h\r\nContent-Length: 2\r\n\r\nm4POST /q/messages HTTP/1.1\r\nHost: h\r\nContent-Length: 2\r\n\r\nm5";

const SERVED: &str = "{\"changing\":5,\"entries\":5,\"ok\":\"report\",\"refused\":0}\n";

const CHECKED: &str =
    "{\"copies\":5,\"entities\":1,\"events\":6,\"made\":5,\"now\":1000,\"ok\":\"check\"}\n";

const RECEIVES: &str = r#"{"do":"receive","from":"q","mode":"delete"}
{"do":"receive","from":"q","mode":"delete"}
{"do":"receive","from":"q","mode":"delete"}
{"do":"receive","from":"q","mode":"delete"}
{"do":"receive","from":"q","mode":"delete"}
"#;

const RECEIVED: &str =
    r#"{"message":{"body":"m1","delivery":1,"enqueued":1000,"enqueued_seq":1,"props":{},"seq":1,"sys":{}},"ok":"message"}
{"message":{"body":"m2","delivery":1,"enqueued":1000,"enqueued_seq":2,"props":{},"seq":2,"sys":{}},"ok":"message"}
{"message":{"body":"m3","delivery":1,"enqueued":1000,"enqueued_seq":3,"props":{},"seq":3,"sys":{}},"ok":"message"}
{"message":{"body":"m4","delivery":1,"enqueued":1000,"enqueued_seq":4,"props":{},"seq":4,"sys":{}},"ok":"message"}
{"message":{"body":"m5","delivery":1,"enqueued":1000,"enqueued_seq":5,"props":{},"seq":5,"sys":{}},"ok":"message"}
"#;

// What stands on two disks.
#[derive(Drop)]
struct Images {
    disk_a: Vec<u8>,
    disk_b: Vec<u8>,
}

// The bytes of two disks, which are let go.
fn images_of(alloc: Global, disk_a: MemDisk, disk_b: MemDisk) -> Result<Images, Fail> {
    let disk_a = bytes_of(alloc, disk_a);
    let disk_b = bytes_of(alloc, disk_b);
    Ok(Images {
        disk_a: disk_a?,
        disk_b: disk_b?,
    })
}

// Serves these doors, to whom the access lets in, over the journal of the queue; the status, and the disks as it
// leaves them.
fn serve_into<T: Threads + Wait + Sync>(
    threads: &T,
    alloc: Global,
    words: &[&str],
    access: &Access,
    output: &mut MemSink,
    doors: &mut Vec<MemDoor>,
) -> Result<(u8, MemDisk, MemDisk), Fail> {
    let mut input = source_of(alloc, &[], 1, &[])?;
    let clock = StepClock::new(1000, 0);
    let ended = match disks_of(alloc, (&ONE_EVENT, &[])) {
        Ok(disks) => called_over(
            threads,
            alloc,
            words,
            access,
            disks,
            &clock,
            &mut input,
            output,
            doors,
            &PauseLobby,
            &mut NoLink::new(),
            &NoWatcher,
        ),
        Err(fault) => Err(fault),
    };
    drop(input);
    drop(clock);
    Ok(ended?)
}

// The same of all who come.
fn served<T: Threads + Wait + Sync>(
    threads: &T,
    alloc: Global,
    words: &[&str],
    output: &mut MemSink,
    doors: &mut Vec<MemDoor>,
) -> Result<(u8, MemDisk, MemDisk), Fail> {
    let access = Access::unlocked(alloc);
    let ended = serve_into(threads, alloc, words, &access, output, doors);
    drop(access);
    ended
}

// What is left on the disks once these doors were served and the numbers were told.
fn left_by<T: Threads + Wait + Sync>(
    threads: &T,
    alloc: Global,
    words: &[&str],
    doors: &mut Vec<MemDoor>,
) -> Result<Images, Fail> {
    let mut output = sink_of(alloc, 256, &[])?;
    let ended = served(threads, alloc, words, &mut output, doors);
    let is_told = output.bytes() == SERVED.as_bytes();
    drop(output);
    match ended {
        Ok((0, disk_a, disk_b)) if is_told => images_of(alloc, disk_a, disk_b),
        Ok((_, disk_a, disk_b)) => {
            drop(disk_a);
            drop(disk_b);
            Err(Fail::from("another status, or another report"))
        }
        Err(fail) => Err(fail),
    }
}

// The same of a door with one connection, which sends five messages.
fn images_left<T: Threads + Wait + Sync>(
    threads: &T,
    alloc: Global,
    words: &[&str],
) -> Result<Images, Fail> {
    let mut doors = lone_door(alloc, SENDS.as_bytes(), 7)?;
    let left = left_by(threads, alloc, words, &mut doors);
    drop(doors);
    left
}

// Makes a call over disks with these bytes, and gives the status.
fn status_over(
    alloc: Global,
    words: &[&str],
    bytes_a: &[u8],
    bytes_b: &[u8],
    script: &str,
    output: &mut MemSink,
) -> Result<u8, Fail> {
    let (status, disk_a, disk_b) = ran_on_both(
        alloc,
        words,
        (bytes_a, &[]),
        (bytes_b, &[]),
        script,
        output,
    )?;
    drop(disk_a);
    drop(disk_b);
    Ok(status)
}

// Whether a call over disks with these bytes tells just this.
fn tells(
    alloc: Global,
    words: &[&str],
    bytes_a: &[u8],
    bytes_b: &[u8],
    script: &str,
    told: &str,
) -> Result<bool, Fail> {
    let mut output = sink_of(alloc, 4096, &[])?;
    let status = status_over(alloc, words, bytes_a, bytes_b, script, &mut output);
    let is_told = output.bytes() == told.as_bytes();
    drop(output);
    Ok(status? == 0 && is_told)
}

// What stands on the disks: whether disk b is empty and the file of disk a closed; and whether a check tells the
// numbers of all that was sent, over both disks and over disk b alone, and a run receives all of it.
#[derive(Clone, Copy)]
struct Found {
    is_b_empty: bool,
    is_a_closed: bool,
    on_both: bool,
    on_b: bool,
    received: bool,
}

fn found_in(alloc: Global, disk_a: &[u8], disk_b: &[u8]) -> Result<Found, Fail> {
    let on_both = tells(alloc, &CHECK, disk_a, disk_b, "", CHECKED)?;
    let on_b = tells(alloc, &CHECK, &[], disk_b, "", CHECKED)?;
    let received = tells(alloc, &RUN, disk_a, disk_b, RECEIVES, RECEIVED)?;
    Ok(Found {
        is_b_empty: disk_b.is_empty(),
        is_a_closed: disk_a.first() == Some(&0),
        on_both,
        on_b,
        received,
    })
}

fn found_behind<T: Threads + Wait + Sync>(
    threads: &T,
    alloc: Global,
    words: &[&str],
) -> Result<Found, Fail> {
    let left = images_left(threads, alloc, words)?;
    let found = found_in(alloc, &left.disk_a, &left.disk_b);
    drop(left);
    found
}

// Disk b counts afterwards.
#[test]
fn a_server_goes_on_with_the_other_disk(rt: HostRuntime) -> Result<(), Fail> {
    let found = found_behind(&rt, rt.alloc(), &SERVE)?;
    assert!(rt; found.on_both && found.on_b && found.received);
    Ok(())
}

// By 0 it makes none: disk b is as empty as it was.
#[test]
fn a_server_stays_with_its_disk(rt: HostRuntime) -> Result<(), Fail> {
    let found = found_behind(&rt, rt.alloc(), &SERVE_ALONE)?;
    assert!(rt; found.is_b_empty && found.on_both && !found.on_b && found.received);
    Ok(())
}

// Its end is a checkpoint: disk b counts, and the file of disk a is closed.
#[test]
fn a_server_ends_with_a_checkpoint(rt: HostRuntime) -> Result<(), Fail> {
    let found = found_behind(&rt, rt.alloc(), &SERVE_TO_AN_END)?;
    assert!(rt; found.is_a_closed && found.on_both && found.on_b && found.received);
    Ok(())
}
