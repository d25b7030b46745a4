// Runs over memory whose disk, input or output fails. What is read and what answers it are rows of two
// lines.
use sb_calls::{ONE_EVENT, bytes_of, called_alone, sink_of, source_of};
use sb_outside::{MemDisk, MemSink, NoLink};
use std::alloc::Global;
use std::sync::Wait;
use std::test::Fail;
use std::thread::Threads;

static RUN: [&str; 3] = ["run", "--data", "."];

static CHECK: [&str; 2] = ["check", "--data=."];

static DRILL: [&str; 3] = ["drill", "0", "7"];

const SETUP: &str = r#"
{"at":0,"do":"create-queue","name":"q"}
{"ok":"done"}
"#;

const CREATE: &str = r#"
{"at":5,"do":"create-queue","name":"Q"}
{"ok":"done"}
"#;

const SEND: &str = r#"
{"at":0,"do":"send","to":"q","messages":[{"body":"a"},{"body_hex":"ff"}]}
{"numbers":[1,2],"ok":"sent"}
"#;

const SEND_AGAIN: &str = r#"
{"at":0,"do":"send","to":"q","messages":[{"body":"a"},{"body_hex":"ff"}]}
{"numbers":[3,4],"ok":"sent"}
"#;

const SEND_FAILS: &str = r#"
{"at":0,"do":"send","to":"q","messages":[{"body":"a"},{"body_hex":"ff"}]}
{"refused":"DiskFault"}
"#;

const PEEK: &str = r#"
{"do":"peek","from":"q","start":2,"count":2}
{"copies":[{"body_hex":"ff","delivery":0,"enqueued":5,"enqueued_seq":2,"props":{},"seq":2,"state":"ready","sys":{}}],"ok":"copies"}
"#;

// Which calls of each fail.
#[derive(Clone, Copy)]
struct Failing {
    disk: Option<u64>,
    input: Option<u64>,
    output: Option<u64>,
}

const NOTHING: Failing = Failing {
    disk: None,
    input: None,
    output: None,
};

const NO_OUTPUT: Failing = Failing {
    disk: None,
    input: None,
    output: Some(0),
};

// A run, and what it must write and end with.
#[derive(Clone, Copy)]
struct Case<'a> {
    words: &'a [&'a str],
    disk: &'a [u8],
    failing: Failing,
    script: &'a [u8],
    told: &'a [u8],
    status: u8,
}

// The lines that are read, and the lines that answer them.
#[derive(Drop)]
struct Rows {
    script: Vec<u8>,
    told: Vec<u8>,
}

fn put_line(lines: &mut Vec<u8>, line: &str) -> Result<(), Fail> {
    lines.extend_from_slice(line.as_bytes())?;
    lines.push(b'\n')?;
    Ok(())
}

impl Rows {
    fn new(alloc: Global) -> Self {
        Rows {
            script: Vec::new(alloc),
            told: Vec::new(alloc),
        }
    }

    // Takes rows of two lines.
    fn put(&mut self, parts: &[&str]) -> Result<(), Fail> {
        for part in parts {
            let mut is_answer = false;
            for line in part.trim_start().lines() {
                if is_answer {
                    put_line(&mut self.told, line)?;
                } else {
                    put_line(&mut self.script, line)?;
                }
                is_answer = !is_answer;
            }
        }
        Ok(())
    }
}

// Those of rows of two lines.
fn rows_of(rt: &HostRuntime, parts: &[&str]) -> Result<Rows, Fail> {
    let mut rows = Rows::new(rt.alloc());
    match rows.put(parts) {
        Ok(()) => Ok(rows),
        Err(fail) => {
            drop(rows);
            Err(fail)
        }
    }
}

// The calls that fail; where none does, a number that no call has.
fn listed(call: Option<u64>) -> [u64; 1] {
    [call.unwrap_or(u64::MAX)]
}

// Makes the run; its status, and disk a as it leaves it.
fn run_into<T: Threads + Wait + Sync>(
    rt: &HostRuntime,
    threads: &T,
    case: Case<'_>,
    output: &mut MemSink,
) -> Result<(u8, MemDisk), Fail> {
    let alloc = rt.alloc();
    let failing = listed(case.failing.disk);
    let mut input = source_of(alloc, case.script, 7, &listed(case.failing.input))?;
    let ended = called_alone(
        threads,
        alloc,
        case.words,
        (case.disk, &failing),
        &mut input,
        output,
        &mut NoLink::new(),
    );
    drop(input);
    Ok(ended?)
}

// Makes the run, and gives disk a as it leaves it.
fn ran<T: Threads + Wait + Sync>(
    rt: &HostRuntime,
    threads: &T,
    case: Case<'_>,
) -> Result<MemDisk, Fail> {
    let mut output = sink_of(rt.alloc(), 4096, &listed(case.failing.output))?;
    let ended = run_into(rt, threads, case, &mut output);
    let is_told = output.bytes() == case.told;
    drop(output);
    let (status, disk) = ended?;
    if is_told && status == case.status {
        return Ok(disk);
    }
    drop(disk);
    if is_told {
        return Err(Fail::from("another status"));
    }
    Err(Fail::from("other lines were written"))
}

// The bytes that it leaves there.
fn leaves<T: Threads + Wait + Sync>(
    rt: &HostRuntime,
    threads: &T,
    case: Case<'_>,
) -> Result<Vec<u8>, Fail> {
    let disk = ran(rt, threads, case)?;
    Ok(bytes_of(rt.alloc(), disk)?)
}

// The disk that a run over one row leaves whose disk fails at a call.
fn ran_failing<T: Threads + Wait + Sync>(
    rt: &HostRuntime,
    threads: &T,
    disk: &[u8],
    call: Option<u64>,
    row: &str,
    status: u8,
) -> Result<MemDisk, Fail> {
    let rows = rows_of(rt, &[row])?;
    let case = Case {
        words: &RUN,
        disk,
        failing: Failing {
            disk: call,
            ..NOTHING
        },
        script: &rows.script,
        told: &rows.told,
        status,
    };
    let disk = ran(rt, threads, case);
    drop(rows);
    disk
}

// The bytes that a run over these rows leaves, each line of which is answered.
fn left_by<T: Threads + Wait + Sync>(
    rt: &HostRuntime,
    threads: &T,
    disk: &[u8],
    parts: &[&str],
    status: u8,
) -> Result<Vec<u8>, Fail> {
    let rows = rows_of(rt, parts)?;
    let case = Case {
        words: &RUN,
        disk,
        failing: NOTHING,
        script: &rows.script,
        told: &rows.told,
        status,
    };
    let left = leaves(rt, threads, case);
    drop(rows);
    left
}

// The bytes that a run over one row leaves whose disk fails at a call.
fn left_by_failing<T: Threads + Wait + Sync>(
    rt: &HostRuntime,
    threads: &T,
    disk: &[u8],
    call: u64,
    row: &str,
    status: u8,
) -> Result<Vec<u8>, Fail> {
    let mut rows = rows_of(rt, &[row])?;
    if call < 5 {
        rows.told.clear();
    }
    let case = Case {
        words: &RUN,
        disk,
        failing: Failing {
            disk: Some(call),
            ..NOTHING
        },
        script: &rows.script,
        told: &rows.told,
        status,
    };
    let left = leaves(rt, threads, case);
    drop(rows);
    left
}

// A run whose disk fails at a call, and the next one over what it leaves.
fn try_call<T: Threads + Wait + Sync>(
    rt: &HostRuntime,
    threads: &T,
    row: (u64, &str, u8, &str),
) -> Result<(), Fail> {
    let (call, first, status, next) = row;
    let left = left_by_failing(rt, threads, &ONE_EVENT, call, first, status)?;
    let found = left_by(rt, threads, &left, &[next], 0);
    drop(left);
    drop(found?);
    Ok(())
}

// The call of the disk that fails, the row of the run and its status, and that of the next run.
static ROWS: [(u64, &str, u8, &str); 10] = [
    (0, SEND, 5, SEND),
    (1, SEND, 5, SEND),
    (2, SEND, 5, SEND),
    (3, SEND, 5, SEND),
    (4, SEND, 5, SEND),
    (5, SEND_FAILS, 5, SEND),
    (6, SEND_FAILS, 5, SEND),
    (7, SEND_FAILS, 5, SEND),
    (8, SEND_FAILS, 5, SEND_AGAIN),
    (9, SEND, 0, SEND_AGAIN),
];

// Each call of the disk fails in turn, over a journal that has an event: opening reads in five calls
// and an append makes four. What was there is there for the next run, with what was synced with its
// gate, and no more.
#[test]
fn each_disk_call_fails(rt: HostRuntime) -> Result<(), Fail> {
    for row in &ROWS {
        try_call(&rt, &rt, *row)?;
    }
    Ok(())
}

const NOT_MADE: &str = r#"
{"do":"counts","entity":"q"}
{"refused":"EntityNotFound"}
"#;

const MADE: &str = r#"
{"do":"counts","entity":"q"}
{"counts":{"dead":0,"main":0,"transfer":0},"ok":"counts"}
"#;

const SETUP_FAILS: &str = r#"
{"at":0,"do":"create-queue","name":"q"}
{"refused":"DiskFault"}
"#;

// What a crash may leave behind an append that stops so.
fn image_of<T: Threads + Wait + Sync>(
    rt: &HostRuntime,
    threads: &T,
    made: &[u8],
    call: Option<u64>,
    fill: u8,
) -> Result<Vec<u8>, Fail> {
    let disk = match call {
        Some(_) => ran_failing(rt, threads, made, call, SETUP_FAILS, 5)?,
        None => ran_failing(rt, threads, made, None, SETUP, 0)?,
    };
    let image = disk.image(rt.alloc(), fill);
    drop(disk);
    Ok(image?)
}

// The call of the disk that fails, what stands where a crash may leave any byte, and whether the next run finds what
// was made.
type Stop = (Option<u64>, u8, bool);

static STOPS: [Stop; 11] = [
    // Within the first call, and after it.
    (Some(5), 0xff, false),
    (Some(5), 0x01, false),
    (Some(6), 0xff, false),
    (Some(6), 0x01, false),
    // After the second, with nothing of the third; within the third, and after it.
    (Some(7), 0x00, false),
    (Some(7), 0xff, false),
    (Some(7), 0x01, true),
    (Some(8), 0xff, false),
    (Some(8), 0x01, true),
    // After the fourth.
    (None, 0xff, true),
    (None, 0x01, true),
];

fn try_stop<T: Threads + Wait + Sync>(
    rt: &HostRuntime,
    threads: &T,
    made: &[u8],
    stop: Stop,
) -> Result<(), Fail> {
    let (call, fill, is_made) = stop;
    let (next, status) = if is_made { (MADE, 0) } else { (NOT_MADE, 1) };
    let image = image_of(rt, threads, made, call, fill)?;
    let found = left_by(rt, threads, &image, &[next], status);
    drop(image);
    drop(found?);
    Ok(())
}

fn try_stops<T: Threads + Wait + Sync>(
    rt: &HostRuntime,
    threads: &T,
    made: &[u8],
) -> Result<(), Fail> {
    for stop in &STOPS {
        try_stop(rt, threads, made, *stop)?;
    }
    Ok(())
}

// The device calls of the append of one event come behind the five of the opening: a write behind
// the gate, a sync, the gate's write, a sync. Where one fails the machine stops, and what was written
// since the last sync holds the fill: also what the failed call was to write.
#[test]
fn an_append_stops(rt: HostRuntime) -> Result<(), Fail> {
    let made = left_by(&rt, &rt, &[], &[], 0)?;
    let tried = try_stops(&rt, &rt, &made);
    drop(made);
    tried
}

// What fails, whether what answers the first line is written, and the status. The first line is 40 bytes, in six
// reads of 7 bytes at most.
static CAUSES: [(Failing, bool, u8); 5] = [
    (
        Failing {
            input: Some(6),
            ..NOTHING
        },
        true,
        3,
    ),
    (
        Failing {
            output: Some(1),
            ..NOTHING
        },
        true,
        4,
    ),
    (
        Failing {
            input: Some(0),
            ..NOTHING
        },
        false,
        3,
    ),
    (NO_OUTPUT, false, 4),
    (
        Failing {
            disk: Some(0),
            ..NOTHING
        },
        false,
        5,
    ),
];

fn try_cause<T: Threads + Wait + Sync>(
    rt: &HostRuntime,
    threads: &T,
    failing: Failing,
    script: &[u8],
    told: &[u8],
    status: u8,
) -> Result<(), Fail> {
    let case = Case {
        words: &RUN,
        disk: &[],
        failing,
        script,
        told,
        status,
    };
    drop(leaves(rt, threads, case)?);
    Ok(())
}

// Runs over the lines of two rows that write what the first of them is answered, or nothing.
fn try_causes<T: Threads + Wait + Sync>(
    rt: &HostRuntime,
    threads: &T,
    one: &Rows,
    two: &Rows,
) -> Result<(), Fail> {
    for (failing, is_told, status) in &CAUSES {
        let told = if *is_told { one.told.as_slice() } else { &[] };
        try_cause(rt, threads, *failing, &two.script, told, *status)?;
    }
    Ok(())
}

fn try_runs<T: Threads + Wait + Sync>(rt: &HostRuntime, threads: &T) -> Result<(), Fail> {
    let one = rows_of(rt, &[CREATE])?;
    let tried = match rows_of(rt, &[CREATE, PEEK]) {
        Ok(two) => {
            let tried = try_causes(rt, threads, &one, &two);
            drop(two);
            tried
        }
        Err(fail) => Err(fail),
    };
    drop(one);
    tried
}

fn try_check<T: Threads + Wait + Sync>(rt: &HostRuntime, threads: &T) -> Result<(), Fail> {
    let checked = Case {
        words: &CHECK,
        disk: &ONE_EVENT,
        failing: NO_OUTPUT,
        script: b"[",
        told: &[],
        status: 4,
    };
    drop(leaves(rt, threads, checked)?);
    Ok(())
}

#[test]
fn each_status_has_its_cause(rt: HostRuntime) -> Result<(), Fail> {
    try_runs(&rt, &rt)?;
    try_check(&rt, &rt)
}

// Which call of the disk and of the output fails, and the status.
static DRILLS: [(Option<u64>, Option<u64>, u8); 3] = [
    (Some(0), None, 5),
    (Some(12), None, 5),
    (None, Some(0), 4),
];

fn try_drill<T: Threads + Wait + Sync>(
    rt: &HostRuntime,
    threads: &T,
    disk: Option<u64>,
    output: Option<u64>,
    status: u8,
) -> Result<(), Fail> {
    let case = Case {
        words: &DRILL,
        disk: &[],
        failing: Failing {
            disk,
            output,
            ..NOTHING
        },
        script: b"[",
        told: &[],
        status,
    };
    drop(leaves(rt, threads, case)?);
    Ok(())
}

// A drill tells nothing where its output fails, or its disk: in the opening, or in one of the five appends
// of its setup, which make twenty calls of it.
#[test]
fn a_drill_fails(rt: HostRuntime) -> Result<(), Fail> {
    for (disk, output, status) in &DRILLS {
        try_drill(&rt, &rt, *disk, *output, *status)?;
    }
    Ok(())
}
