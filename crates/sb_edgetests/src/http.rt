mod heads;
mod limits;
mod responses;
mod streams;
mod whole;

use sb_http::{HttpFault, Incoming, Request, Version};
use std::alloc::{AllocError, Global};
use std::process::Abort;
use std::slice;
use std::test::Fail;

// A row's stream: `|` stands for CR LF, `^` for CR alone and `~` for LF alone.
fn stream_of(alloc: Global, row: &str) -> Result<Vec<u8>, Fail> {
    let mut stream = Vec::new(alloc);
    add_row(&mut stream, row)?;
    Ok(stream)
}

// The bytes that a sign of a row stands for.
fn bytes_of(sign: &u8) -> &[u8] {
    match *sign {
        b'|' => b"\r\n",
        b'^' => b"\r",
        b'~' => b"\n",
        _ => slice::from_ref(sign),
    }
}

// Puts the stream of a row behind another.
fn add_row(stream: &mut Vec<u8>, row: &str) -> Result<(), AllocError> {
    for sign in row.as_bytes() {
        stream.extend_from_slice(bytes_of(sign))?;
    }
    Ok(())
}

// A request as `METHOD target version body;`.
fn tell(out: &mut Vec<u8>, request: &Request) -> Result<(), AllocError> {
    let version = match request.version {
        Version::Http10 => b" 1.0 ",
        Version::Http11 => b" 1.1 ",
    };
    let parts: [&[u8]; 6] = [
        request.method,
        b" ",
        request.target,
        version,
        request.body,
        b";",
    ];
    for part in parts {
        out.extend_from_slice(part)?;
    }
    Ok(())
}

// Takes what is whole, and answers the fault that was met.
fn take_all(out: &mut Vec<u8>, incoming: &mut Incoming) -> Result<Option<HttpFault>, Fail> {
    'requests: loop {
        match incoming.next_request() {
            Ok(Some(request)) => tell(out, &request)?,
            Ok(None) => return Ok(None),
            Err(fault) => return Ok(Some(fault)),
        }
    }
}

// A fault as `!` and its status.
fn end_of(fault: HttpFault) -> &'static str {
    match fault {
        HttpFault::BadHead => "!400",
        HttpFault::HeadTooLarge => "!431",
        HttpFault::BodyTooLarge => "!413",
    }
}

// The end of a stream: the fault, or `+` and how many bytes are left.
fn tell_end(alloc: Global, out: &mut Vec<u8>, incoming: &mut Incoming) -> Result<(), Fail> {
    if let Err(fault) = incoming.next_request() {
        out.extend_from_slice(end_of(fault).as_bytes())?;
        return Ok(());
    }
    let left = format!(in alloc; "+{}", incoming.left())?;
    out.extend_from_slice(left.as_bytes())?;
    Ok(())
}

// Feeds a stream in pieces of so many bytes, and tells what it comes to.
fn tell_stream(
    alloc: Global,
    out: &mut Vec<u8>,
    incoming: &mut Incoming,
    stream: &[u8],
    size: usize,
) -> Result<(), Fail> {
    let mut at: usize = 0;
    for _ in 0..2_000_000 {
        if take_all(out, incoming)?.is_some() || at >= stream.len() {
            break;
        }
        let end = at.saturating_add(size).min(stream.len());
        at = at.saturating_add(incoming.feed(&stream[at..end]));
    }
    tell_end(alloc, out, incoming)
}

// The same over a buffer of its own, which is dropped by a call: where it is held there is no other way out,
// so that the proofs stay short.
fn tell_anew(alloc: Global, out: &mut Vec<u8>, stream: &[u8], size: usize) -> Result<(), Fail> {
    let mut incoming = Incoming::new(alloc)?;
    let told = tell_stream(alloc, out, &mut incoming, stream, size);
    drop(incoming);
    told
}

// What a stream comes to that is fed in pieces of so many bytes.
fn told(alloc: Global, stream: &[u8], size: usize) -> Result<Vec<u8>, Fail> {
    let mut out = Vec::new(alloc);
    tell_anew(alloc, &mut out, stream, size)?;
    Ok(out)
}

// The stream of a row behind a front comes to this, however it is cut.
fn try_row(
    rt: &impl Abort,
    alloc: Global,
    stream: &[u8],
    wanted: &[u8],
    row: &str,
) -> Result<(), Fail> {
    for size in [1, 2, 7, 4096] {
        let out = told(alloc, stream, size)?;
        assert_eq!(rt; out.as_slice(), wanted, "of {row} by {size}");
    }
    Ok(())
}

// Behind a front, the stream of each row, a line `STREAM => OUTCOME`, comes to its outcome, however it
// is cut.
fn try_rows(rt: &impl Abort, alloc: Global, front: &str, rows: &str) -> Result<(), Fail> {
    for line in rows.lines() {
        let (row, outcome) = line.split_once(" => ").ok_or("no outcome")?;
        let mut stream = stream_of(alloc, front)?;
        add_row(&mut stream, row)?;
        let wanted = stream_of(alloc, outcome)?;
        try_row(rt, alloc, &stream, &wanted, row)?;
    }
    Ok(())
}
