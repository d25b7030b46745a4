// Runs that a server answers, over a link in memory: what is read, the responses that the link gives, and
// the lines that must be written.
use sb_calls::{called_alone, sink_of, source_of};
use sb_outside::{Bytes, MemLink, MemSink};
use std::alloc::Global;
use std::sync::Wait;
use std::test::Fail;
use std::thread::Threads;

static CLIENT: [&str; 3] = ["client", "--port", "8080"];

// A run of a client: its input, the responses, the calls of the link that fail, and what comes.
#[derive(Clone, Copy)]
struct Case<'a> {
    input: &'a str,
    replies: &'a [&'a str],
    failing: &'a [u64],
    told: &'a str,
    status: u8,
}

const MADE: &str = "HTTP/1.1 200 OK\r\nContent-Length: 14\r\n\r\n{\"ok\":\"done\"}\n";

const MISSING: &str =
    "HTTP/1.1 200 OK\r\nContent-Length: 29\r\n\r\n{\"refused\":\"EntityNotFound\"}\n";

const FAILED: &str = "HTTP/1.1 200 OK\r\nContent-Length: 24\r\n\r\n{\"refused\":\"DiskFault\"}\n";

const CREATE: &str = "{\"do\":\"create-queue\",\"name\":\"q\"}";

const REQUEST: &str =
    "POST /$script HTTP/1.1\r\nHost: localhost\r\nContent-Length: 32\r\nConnection: close\r\n\r\n{\"do\":\"create-queue\",\"name\":\"q\"}";

static CASES: [Case<'static>; 8] = [
    Case {
        input: CREATE,
        replies: &[MADE],
        failing: &[],
        told: "{\"ok\":\"done\"}\n",
        status: 0,
    },
    Case {
        input: "{\"do\":\"create-queue\",\"name\":\"q\"}\n \t\r\n{\"do\":\"delete\",\"entity\":\"r\"}\n",
        replies: &[MADE, MISSING],
        failing: &[],
        told: "{\"ok\":\"done\"}\n{\"refused\":\"EntityNotFound\"}\n",
        status: 1,
    },
    Case {
        input: CREATE,
        replies: &[FAILED],
        failing: &[],
        told: "{\"refused\":\"DiskFault\"}\n",
        status: 1,
    },
    Case {
        input: CREATE,
        replies: &["x"],
        failing: &[],
        told: "",
        status: 9,
    },
    Case {
        input: CREATE,
        replies: &["HTTP/1.1 404 Not Found\r\nContent-Length: 0\r\n\r\n"],
        failing: &[],
        told: "",
        status: 9,
    },
    Case {
        input: "a\nb\n",
        replies: &[MADE, MADE],
        failing: &[1],
        told: "{\"ok\":\"done\"}\n",
        status: 8,
    },
    Case {
        input: "a\nb\n",
        replies: &[MADE],
        failing: &[],
        told: "{\"ok\":\"done\"}\n",
        status: 8,
    },
    Case {
        input: "\n  \n",
        replies: &[],
        failing: &[0],
        told: "",
        status: 0,
    },
];

fn put_replies(alloc: Global, replies: &mut Vec<Bytes>, given: &[&str]) -> Result<(), Fail> {
    for reply in given {
        let reply = Bytes::of(alloc, reply.as_bytes())?;
        replies.push(reply)?;
    }
    Ok(())
}

fn link_of(rt: &HostRuntime, case: &Case<'_>) -> Result<MemLink, Fail> {
    let alloc = rt.alloc();
    let failing = case.failing.to_vec(alloc)?;
    let mut replies = Vec::new(alloc);
    match put_replies(alloc, &mut replies, case.replies) {
        Ok(()) => Ok(MemLink::new(alloc, replies, failing)),
        Err(fail) => {
            drop(replies);
            Err(fail)
        }
    }
}

// Makes the run, and gives its status.
fn run_into<T: Threads + Wait + Sync>(
    rt: &HostRuntime,
    threads: &T,
    case: &Case<'_>,
    output: &mut MemSink,
    link: &mut MemLink,
) -> Result<u8, Fail> {
    let alloc = rt.alloc();
    let mut input = source_of(alloc, case.input.as_bytes(), 7, &[])?;
    let ended = called_alone(
        threads,
        alloc,
        &CLIENT,
        (&[], &[]),
        &mut input,
        output,
        link,
    );
    drop(input);
    let (status, disk) = ended?;
    drop(disk);
    Ok(status)
}

// Makes the run over this link.
fn answers<T: Threads + Wait + Sync>(
    rt: &HostRuntime,
    threads: &T,
    case: &Case<'_>,
    link: &mut MemLink,
) -> Result<(), Fail> {
    let mut output = sink_of(rt.alloc(), 256, &[])?;
    let status = run_into(rt, threads, case, &mut output, link);
    let is_told = output.bytes() == case.told.as_bytes();
    drop(output);
    let status = status?;
    if !is_told {
        return Err(Fail::from("other lines were written"));
    }
    if status != case.status {
        return Err(Fail::from("another status"));
    }
    Ok(())
}

fn try_case<T: Threads + Wait + Sync>(
    rt: &HostRuntime,
    threads: &T,
    case: &Case<'_>,
) -> Result<(), Fail> {
    let mut link = link_of(rt, case)?;
    let answered = answers(rt, threads, case, &mut link);
    let is_asked = link.request(0) == Some(REQUEST.as_bytes());
    drop(link);
    answered?;
    if case.input.starts_with(CREATE) && !is_asked {
        return Err(Fail::from("another request"));
    }
    Ok(())
}

#[test]
fn a_client_has_its_lines_answered(rt: HostRuntime) -> Result<(), Fail> {
    for case in &CASES {
        try_case(&rt, &rt, case)?;
    }
    Ok(())
}
