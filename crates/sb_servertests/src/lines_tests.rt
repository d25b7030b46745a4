// Bodies of several script lines through a server in memory: the responses to the byte, and which calls were made.
ghost use Rattle.std.specs.Prelude.{◌<◌};

use sb_calls::{ONE_EVENT, is_answered, lone_door, served};
use sb_outside::MemDoor;
use std::alloc::{AllocError, Global};
use std::sync::Wait;
use std::test::Fail;
use std::thread::Threads;

const LINES: &str = "Content-Type: Application/X-NDJSON; charset=utf-8\r\n";

// The fields of a response to such a body.
const ANSWERED: &str = "Content-Type: application/x-ndjson\r\n";

const CREATE_A: &str = "{\"do\":\"create-queue\",\"name\":\"a\"}\n";

const CREATE_B: &str = "{\"do\":\"create-queue\",\"name\":\"b\"}\n";

const DONE: &str = "{\"ok\":\"done\"}\n";

const EXISTS: &str = "{\"refused\":\"EntityExists\"}\n";

const NO_LINE: &str = "{\"key\":\"\",\"refused\":\"BadCall\"}\n";

const NO_DO: &str = "{\"key\":\"do\",\"refused\":\"BadCall\"}\n";

const TAKE: &str = "{\"do\":\"receive\",\"from\":\"q\"}\n";

const TAKE_NOW: &str = "{\"do\":\"receive\",\"from\":\"q\",\"wait\":0}\n";

const TAKE_LATER: &str = "{\"do\":\"receive\",\"from\":\"q\",\"wait\":3600}\n";

const TAKE_ONCE: &str =
    "{\"client\":\"c\",\"do\":\"receive\",\"from\":\"q\",\"number\":1,\"wait\":3600}\n";

const TAKE_FOR_LONG: &str = "{\"do\":\"receive\",\"from\":\"q\",\"wait\":3601}\n";

const EMPTY: &str = "{\"ok\":\"empty\"}\n";

const NO_WAIT: &str = "{\"key\":\"wait\",\"refused\":\"BadCall\"}\n";

const FAILED: &str = "{\"refused\":\"DiskFault\"}\n";

const STOPPED: &str = "{\"faults\":1,\"refused\":\"Stopped\"}\n";

// A request with this body, behind the fields that it has beside its length, and what it is answered: the
// same fields and these lines.
#[derive(Clone, Copy)]
struct Row<'a> {
    fields: &'a str,
    body: &'a [&'a str],
    answered: &'a str,
    lines: &'a [&'a str],
    told: &'a str,
}

const ONE: Row<'static> = Row {
    fields: LINES,
    body: &[CREATE_A],
    answered: ANSWERED,
    lines: &[DONE],
    told: "{\"changing\":1,\"entries\":1,\"ok\":\"report\",\"refused\":0}\n",
};

// One line, which finds nothing.
const EMPTY_ONCE: Row<'static> = Row {
    fields: "",
    body: &[TAKE],
    answered: "",
    lines: &[EMPTY],
    told: "{\"changing\":0,\"entries\":1,\"ok\":\"report\",\"refused\":0}\n",
};

static ROWS: [Row<'static>; 13] = [
    ONE,
    // a line that is no call is answered at its place, and the others are called
    Row {
        body: &[CREATE_A, "{}\r\n", CREATE_B],
        lines: &[DONE, NO_DO, DONE],
        told: "{\"changing\":2,\"entries\":2,\"ok\":\"report\",\"refused\":0}\n",
        ..ONE
    },
    // the last line without a line feed
    Row {
        body: &[CREATE_A, "{\"do\":\"create-queue\",\"name\":\"a\"}"],
        lines: &[DONE, EXISTS],
        told: "{\"changing\":1,\"entries\":2,\"ok\":\"report\",\"refused\":1}\n",
        ..ONE
    },
    // a blank line, and no line: no line is called
    Row {
        body: &[CREATE_A, " \t\r\n", CREATE_B],
        lines: &[NO_LINE],
        told: "{\"changing\":0,\"entries\":0,\"ok\":\"report\",\"refused\":0}\n",
        ..ONE
    },
    Row {
        body: &[CREATE_A, "\n"],
        lines: &[NO_LINE],
        told: "{\"changing\":0,\"entries\":0,\"ok\":\"report\",\"refused\":0}\n",
        ..ONE
    },
    Row {
        body: &[],
        lines: &[NO_LINE],
        told: "{\"changing\":0,\"entries\":0,\"ok\":\"report\",\"refused\":0}\n",
        ..ONE
    },
    // without the media type a body is one line, and two are none
    Row {
        fields: "",
        answered: "",
        body: &[CREATE_A],
        ..ONE
    },
    Row {
        fields: "Content-Type: application/json\r\n",
        answered: "",
        body: &[CREATE_A, CREATE_B],
        lines: &[NO_LINE],
        told: "{\"changing\":0,\"entries\":0,\"ok\":\"report\",\"refused\":0}\n",
    },
    // a line that waits not at all is called once
    EMPTY_ONCE,
    Row {
        body: &[TAKE_NOW],
        ..EMPTY_ONCE
    },
    // so is one that has a client and a number: the answer is kept
    Row {
        body: &[TAKE_ONCE],
        told: "{\"changing\":1,\"entries\":1,\"ok\":\"report\",\"refused\":0}\n",
        ..EMPTY_ONCE
    },
    // and each of several lines
    Row {
        fields: LINES,
        answered: ANSWERED,
        body: &[TAKE_LATER, TAKE_LATER],
        lines: &[EMPTY, EMPTY],
        told: "{\"changing\":0,\"entries\":2,\"ok\":\"report\",\"refused\":0}\n",
    },
    // an hour and a second is too long
    Row {
        body: &[TAKE_FOR_LONG],
        lines: &[NO_WAIT],
        told: "{\"changing\":0,\"entries\":0,\"ok\":\"report\",\"refused\":0}\n",
        ..EMPTY_ONCE
    },
];

// These texts, each so many times, one behind the other.
fn joined(alloc: Global, texts: &[&str], times: usize) -> Result<String, AllocError> {
    let mut all = String::new(alloc);
    for text in texts {
        for _ in 0..times {
            all.push_str(text)?;
        }
    }
    Ok(all)
}

fn request(alloc: Global, fields: &str, body: &str) -> Result<String, AllocError> {
    format!(in alloc;
        "POST /script HTTP/1.1\r\nHost: h\r\n{fields}Content-Length: {}\r\n\r\n{body}",
        body.len()
    )
}

// The response with these fields, those of its length and behind it, and lines.
fn response(alloc: Global, fields: &str, last: &str, lines: &str) -> Result<String, AllocError> {
    format!(in alloc;
        "HTTP/1.1 200 OK\r\n{fields}Content-Length: {}\r\n{last}\r\n{lines}",
        lines.len()
    )
}

// The request of a body of these lines, each so many times.
fn asked(alloc: Global, fields: &str, body: &[&str], times: usize) -> Result<String, AllocError> {
    let body = joined(alloc, body, times)?;
    let request = request(alloc, fields, body.as_str());
    drop(body);
    request
}

// The response of these lines.
fn answered(alloc: Global, fields: &str, last: &str, lines: &[&str]) -> Result<String, AllocError> {
    let lines = joined(alloc, lines, 1)?;
    let response = response(alloc, fields, last, lines.as_str());
    drop(lines);
    response
}

// Serves these doors, of which the connection has to be answered by a response, and what is told by a report.
fn tries_doors<T: Threads + Wait + Sync>(
    threads: &T,
    alloc: Global,
    doors: &mut Vec<MemDoor>,
    response: &str,
    report: &str,
) -> Result<(), Fail> {
    let ended = served(threads, alloc, (&ONE_EVENT, &[]), doors)?;
    let is_told = ended.is(0, report);
    drop(ended);
    if !is_told {
        return Err(Fail::from("another status, or another report"));
    }
    if !is_answered(doors, response.as_bytes()) {
        return Err(Fail::from("another response"));
    }
    Ok(())
}

// The same of a request.
fn tries_request<T: Threads + Wait + Sync>(
    threads: &T,
    alloc: Global,
    request: &str,
    response: &str,
    report: &str,
) -> Result<(), Fail> {
    let mut doors = lone_door(alloc, request.as_bytes(), 4096)?;
    let tried = tries_doors(threads, alloc, &mut doors, response, report);
    drop(doors);
    tried
}

// The same of a row, each line of whose body stands there so many times.
fn tries_body<T: Threads + Wait + Sync>(
    threads: &T,
    alloc: Global,
    row: &Row<'_>,
    times: usize,
    response: &str,
) -> Result<(), Fail> {
    let request = asked(alloc, row.fields, row.body, times)?;
    let tried = tries_request(threads, alloc, request.as_str(), response, row.told);
    drop(request);
    tried
}

fn tries<T: Threads + Wait + Sync>(
    threads: &T,
    alloc: Global,
    row: &Row<'_>,
    times: usize,
) -> Result<(), Fail> {
    let response = answered(alloc, row.answered, "", row.lines)?;
    let tried = tries_body(threads, alloc, row, times, response.as_str());
    drop(response);
    tried
}

fn tries_row<T: Threads + Wait + Sync>(threads: &T, alloc: Global, row: usize) -> Result<(), Fail>
    requires { row < 13 }
{
    tries(threads, alloc, &ROWS[row], 1)
}

#[test]
fn each_line_is_called(rt: HostRuntime) -> Result<(), Fail> {
    for row in 0..ROWS.len() {
        tries_row(&rt, rt.alloc(), row)?;
    }
    Ok(())
}

static A_HUNDRED: Row<'static> = Row {
    told: "{\"changing\":1,\"entries\":100,\"ok\":\"report\",\"refused\":99}\n",
    ..ONE
};

static ONE_MORE: Row<'static> = Row {
    lines: &[NO_LINE],
    told: "{\"changing\":0,\"entries\":0,\"ok\":\"report\",\"refused\":0}\n",
    ..ONE
};

// The lines that answer a hundred that make one queue.
fn put_made_once(lines: &mut String) -> Result<(), AllocError> {
    lines.push_str(DONE)?;
    for _ in 1..100 {
        lines.push_str(EXISTS)?;
    }
    Ok(())
}

fn made_once(alloc: Global) -> Result<String, AllocError> {
    let mut lines = String::new(alloc);
    let made = match put_made_once(&mut lines) {
        Ok(()) => response(alloc, ANSWERED, "", lines.as_str()),
        Err(error) => Err(error),
    };
    drop(lines);
    made
}

fn tries_a_hundred<T: Threads + Wait + Sync>(threads: &T, alloc: Global) -> Result<(), Fail> {
    let response = made_once(alloc)?;
    let tried = tries_body(threads, alloc, &A_HUNDRED, 100, response.as_str());
    drop(response);
    tried
}

// A hundred lines are called, and of a hundred and one none.
#[test]
fn a_hundred_lines_at_most(rt: HostRuntime) -> Result<(), Fail> {
    tries_a_hundred(&rt, rt.alloc())?;
    tries(&rt, rt.alloc(), &ONE_MORE, 101)
}

// The replies to two lines where the disk fails at a call of the first one's append or of the second's.
static STOPS: [&[&str]; 2] = [&[FAILED, STOPPED], &[DONE, FAILED]];

// Whether the connection was answered so.
fn is_stop(alloc: Global, doors: &[MemDoor], lines: &[&str]) -> Result<bool, AllocError> {
    let wanted = answered(alloc, ANSWERED, "Connection: close\r\n", lines)?;
    let is_so = is_answered(doors, wanted.as_bytes());
    drop(wanted);
    Ok(is_so)
}

// Which of these stops it is, or none.
fn stop_of(alloc: Global, doors: &[MemDoor]) -> Result<Option<usize>, AllocError> {
    for (place, lines) in STOPS.iter().enumerate() {
        if is_stop(alloc, doors, lines)? {
            return Ok(Some(place));
        }
    }
    Ok(None)
}

// Which of these stops it is, where the disk failed at this call, or none where no call was that.
fn stop_in<T: Threads + Wait + Sync>(
    threads: &T,
    alloc: Global,
    call: u64,
    doors: &mut Vec<MemDoor>,
) -> Result<Option<usize>, Fail> {
    let ended = served(threads, alloc, (&ONE_EVENT, &[call]), doors)?;
    let status = ended.status;
    drop(ended);
    if status != 5 {
        return Ok(None);
    }
    Ok(stop_of(alloc, doors)?)
}

fn doors_of_two(alloc: Global) -> Result<Vec<MemDoor>, Fail> {
    let request = asked(alloc, LINES, &[CREATE_A, CREATE_B], 1)?;
    let doors = lone_door(alloc, request.as_bytes(), 4096);
    drop(request);
    Ok(doors?)
}

fn stop_at<T: Threads + Wait + Sync>(
    threads: &T,
    alloc: Global,
    call: u64,
) -> Result<Option<usize>, Fail> {
    let mut doors = doors_of_two(alloc)?;
    let stop = stop_in(threads, alloc, call, &mut doors);
    drop(doors);
    stop
}

// Where the disk fails, the lines behind are answered as a namespace that has stopped answers them, and the
// connection ends: four calls of the disk are of each append.
#[test]
fn lines_behind_a_failed_disk(rt: HostRuntime) -> Result<(), Fail> {
    let mut counts = (0u64, 0u64);
    for call in 0..64 {
        match stop_at(&rt, rt.alloc(), call)? {
            Some(0) => counts.0 = counts.0.saturating_add(1),
            Some(_) => counts.1 = counts.1.saturating_add(1),
            None => {}
        }
    }
    assert_eq!(rt; counts, (4, 4));
    Ok(())
}
