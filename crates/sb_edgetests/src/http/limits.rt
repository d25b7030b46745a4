use super::{add_row, end_of, stream_of};
use sb_http::Incoming;
use std::alloc::Global;
use std::process::Abort;
use std::test::Fail;

// How many requests are whole, how many bytes their bodies have, and the fault behind them or nothing.
fn counted(incoming: &mut Incoming, stream: &[u8], size: usize) -> (u64, u64, &'static str) {
    let mut requests: u64 = 0;
    let mut bytes: u64 = 0;
    let mut at: usize = 0;
    for _ in 0..1_000_000 {
        match incoming.next_request() {
            Ok(Some(request)) => {
                requests = requests.saturating_add(1);
                bytes = bytes.saturating_add(request.body.len() as u64);
            }
            Ok(None) => {
                if at >= stream.len() {
                    return (requests, bytes, "");
                }
                let end = at.saturating_add(size).min(stream.len());
                at = at.saturating_add(incoming.feed(&stream[at..end]));
            }
            Err(fault) => return (requests, bytes, end_of(fault)),
        }
    }
    (requests, bytes, "no end")
}

// The same as text.
fn counts(alloc: Global, stream: &[u8], size: usize) -> Result<String, Fail> {
    let mut incoming = Incoming::new(alloc)?;
    let (requests, bytes, status) = counted(&mut incoming, stream, size);
    drop(incoming);
    if status.is_empty() {
        return Ok(format!(in alloc; "{requests} {bytes}")?);
    }
    Ok(format!(in alloc; "{requests} {bytes} {status}")?)
}

// A front, so many times a filler, and a back.
fn filled(
    alloc: Global,
    fronts: (&str, &str),
    filler: &str,
    times: u32,
    back: &str,
) -> Result<Vec<u8>, Fail> {
    let mut stream = stream_of(alloc, fronts.0)?;
    add_row(&mut stream, fronts.1)?;
    let part = stream_of(alloc, filler)?;
    for _ in 0..times {
        stream.extend_from_slice(&part)?;
    }
    add_row(&mut stream, back)?;
    Ok(stream)
}

// Rows `FRONT => FILLER => N => BACK => OUTCOME`: a front, so many times a filler, and a back come to
// this outcome, in pieces of so many bytes.
fn try_filled(
    rt: &impl Abort,
    alloc: Global,
    front: &str,
    rows: &str,
    size: usize,
) -> Result<(), Fail> {
    for line in rows.lines() {
        let (first, rest) = line.split_once(" => ").ok_or("no front")?;
        let (filler, rest) = rest.split_once(" => ").ok_or("no filler")?;
        let (times, rest) = rest.split_once(" => ").ok_or("no number")?;
        let (back, outcome) = rest.split_once(" => ").ok_or("no outcome")?;
        let times = times.parse::<u32>()?;
        let stream = filled(alloc, (front, first), filler, times, back)?;
        let out = counts(alloc, &stream, size)?;
        assert_eq!(rt; out.as_str(), outcome, "of {line}");
    }
    Ok(())
}

const HEADS: &str = "\
GET / => a => 16366 =>  HTTP/1.0|| => 1 0
GET / => a => 16367 =>  HTTP/1.0|| => 0 0 !431
 => ~ => 16366 => GET / HTTP/1.0|| => 1 0
 => ~ => 16367 => GET / HTTP/1.0|| => 0 0 !431
GET / HTTP/1.0| => X: y| => 64 => | => 1 0
GET / HTTP/1.0| => X: y| => 65 => | => 0 0 !431
GET / HTTP/1.0| => X: y| => 65 =>  => 0 0 !431";

// Chunk lines, trailers and chunks; and chunks of one byte, whose lines are more than the buffer holds.
const CHUNKS: &str = "\
2; => x => 1020 => |hi|0|| => 1 2
2; => x => 1021 => |hi|0|| => 0 0 !400
2; => x => 1022 =>  => 0 0 !400
0|T:  => v => 16377 => || => 1 0
0|T:  => v => 16378 => || => 0 0 !400
0| => T: v| => 64 => | => 1 0
0| => T: v| => 65 => | => 0 0 !400
100000| => x => 1048576 => |0|| => 1 1048576
1|x|fffff| => x => 1048575 => |0|| => 1 1048576
2|xx|fffff| => x => 1 =>  => 0 0 !413
 => 1|x| => 200000 => 0|| => 1 200000";

const BODIES: &str = "\
POST / HTTP/1.0|Content-Length: 1048576|| => x => 1048576 => GET / HTTP/1.0|| => 2 1048576
POST / HTTP/1.0|Content-Length: 1048576|| => x => 1048575 =>  => 0 0
 => POST / HTTP/1.0|Content-Length: 2||hi => 1000 =>  => 1000 2000
 => POST / HTTP/1.0|Content-Length: 2||hi => 40000 =>  => 40000 80000";

// Each limit, and one byte or line more; the last rows of bodies in one piece.
#[test]
fn limits(rt: HostRuntime) -> Result<(), Fail> {
    let chunked = "POST / HTTP/1.1|Host: h|Transfer-Encoding: chunked||";
    let long = "POST / HTTP/1.0|Content-Length: 20000|| => x => 20000 =>  => 1 20000";
    try_filled(&rt, rt.alloc(), "", HEADS, 1_000)?;
    try_filled(&rt, rt.alloc(), chunked, CHUNKS, 4_096)?;
    try_filled(&rt, rt.alloc(), "", BODIES, 10_000_000)?;
    try_filled(&rt, rt.alloc(), "", long, 1)
}
