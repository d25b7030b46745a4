use super::{take_all, try_rows};
use crate::asserts::assert_that;
use sb_http::{HttpFault, Incoming, Request, Version};
use std::alloc::Global;
use std::process::Abort;
use std::test::Fail;

// RFC 9112, sections 6.1 and 6.3: Transfer-Encoding, also beside a length.
const CODINGS: &str = "\
POST /a HTTP/1.1|Host: h|Transfer-Encoding: chunked||2|hi|0|| => POST /a 1.1 hi;+0
POST /a HTTP/1.1|Host: h|transfer-encoding:\tCHUNKED||0|| => POST /a 1.1 ;+0
POST /a HTTP/1.1|Host: h|Transfer-Encoding: gzip, chunked||0|| => !400
POST /a HTTP/1.1|Host: h|Transfer-Encoding: chunked,||0|| => !400
POST /a HTTP/1.1|Host: h|Transfer-Encoding: xchunked||0|| => !400
POST /a HTTP/1.1|Host: h|Transfer-Encoding: identity|| => !400
POST /a HTTP/1.1|Host: h|Transfer-Encoding:|| => !400
POST /a HTTP/1.1|Host: h|Transfer-Encoding : chunked||0|| => !400
POST /a HTTP/1.1|Host: h|Transfer-Encoding: chunked|Transfer-Encoding: chunked||0|| => !400
POST /a HTTP/1.1|Host: h|Transfer-Encoding: chunked|Transfer-Encoding: identity||0|| => !400
POST /a HTTP/1.1|Host: h|Content-Length: 2|Transfer-Encoding: chunked||0|| => !400
POST /a HTTP/1.1|Host: h|Transfer-Encoding: chunked|Content-Length: 2||0|| => !400
POST /a HTTP/1.0|Transfer-Encoding: chunked||0|| => !400
POST /a HTTP/1.1|Host: h|Transfer_Encoding: chunked||0|| => POST /a 1.1 ;!400";

// RFC 9112, section 7.1: chunks, extensions and trailers, behind one head.
const CHUNKS: &str = "\
2|hi|3|you|0|| => POST /a 1.1 hiyou;+0
2;a=b|hi|0;x|| => POST /a 1.1 hi;+0
2;a=\"b;c\"|hi|0|| => POST /a 1.1 hi;+0
2 |hi|0|| => POST /a 1.1 hi;+0
A|0123456789|0|| => POST /a 1.1 0123456789;+0
0a|01234|678|000|| => POST /a 1.1 01234|678;+0
0000000000000002|hi|0|| => POST /a 1.1 hi;+0
00000000000000002|hi|0|| => !400
2|hi|0|T: v|U: w|| => POST /a 1.1 hi;+0
2|hi|0|Content-Length: 9|Host: x|Host: y|| => POST /a 1.1 hi;+0
2|hi|0|bad trailer|| => !400
2|hi|0|T : v|| => !400
2|hix|0|| => !400
2|hi~0|| => !400
2|hi^0|| => !400
2~hi|0|| => !400
|hi|0|| => !400
g|hi|0|| => !400
+2|hi|0|| => !400
0x2|hi|0|| => !400
 2|hi|0|| => !400
100001| => !413
1|a|100000| => !413
FFFFFFFFFFFFFFFF| => !413
 => +57
2|h => +58
2|hi| => +59
2|hi|0 => +60
2|hi|0|T: v| => +65";

// Requests one behind the other, and what is behind a fault.
const PIPELINES: &str = "\
GET /a HTTP/1.1|Host: h||GET /b HTTP/1.0|| => GET /a 1.1 ;GET /b 1.0 ;+0
POST /a HTTP/1.0|Content-Length: 6||GET /bGET /c HTTP/1.0|| => POST /a 1.0 GET /b;GET /c 1.0 ;+0
POST /a HTTP/1.1|Host: h|Transfer-Encoding: chunked||0|T: v||GET /b HTTP/1.0|| => POST /a 1.1 ;GET /b 1.0 ;+0
GET /a HTTP/1.0|||GET /b HTTP/1.0|| => GET /a 1.0 ;GET /b 1.0 ;+0
GET /a HTTP/1.0||GET /b => GET /a 1.0 ;+6
GET /a HTTP/1.0||GET b HTTP/1.0||GET /c HTTP/1.0|| => GET /a 1.0 ;!400";

#[test]
fn bodies(rt: HostRuntime) -> Result<(), Fail> {
    let chunked = "POST /a HTTP/1.1|Host: h|Transfer-Encoding: chunked||";
    try_rows(&rt, rt.alloc(), "", CODINGS)?;
    try_rows(&rt, rt.alloc(), chunked, CHUNKS)?;
    try_rows(&rt, rt.alloc(), "", PIPELINES)
}

const SEND: &[u8] = b"POST /Q/messages HTTP/1.1\r\nHost: h\r\nContent-Length: 2\r\n\r\nhi";

const RECEIVE: &[u8] = b"POST /q/messages/head?timeout=0 HTTP/1.1\r\nHost: h\r\n\r\n";

// Feeds these pieces, of which each is taken whole, and tells the requests of each before the next one.
fn take_pieces(
    rt: &impl Abort,
    out: &mut Vec<u8>,
    incoming: &mut Incoming,
    pieces: &[&[u8]],
) -> Result<(), Fail> {
    for piece in pieces {
        assert_eq!(rt; incoming.feed(*piece), piece.len());
        assert!(rt; take_all(out, incoming)?.is_none());
    }
    Ok(())
}

// What these pieces come to, and how many bytes are left.
fn told_of(
    rt: &impl Abort,
    alloc: Global,
    out: &mut Vec<u8>,
    pieces: &[&[u8]],
) -> Result<usize, Fail> {
    let mut incoming = Incoming::new(alloc)?;
    let taken = take_pieces(rt, out, &mut incoming, pieces);
    let left = incoming.left();
    drop(incoming);
    taken?;
    Ok(left)
}

// A send and a receive, whole, one behind the other, and cut after each byte.
#[test]
fn two_requests(rt: HostRuntime) -> Result<(), Fail> {
    let alloc = rt.alloc();
    let mut stream = SEND.to_vec(alloc)?;
    stream.extend_from_slice(RECEIVE)?;
    let outcome = b"POST /Q/messages 1.1 hi;POST /q/messages/head?timeout=0 1.1 ;";
    for cut in 0..stream.len() {
        let mut out = Vec::new(alloc);
        let left = told_of(&rt, alloc, &mut out, &[&stream[..cut], &stream[cut..]])?;
        assert_eq!(rt; out.as_slice(), outcome.as_slice());
        assert_eq!(rt; left, 0);
    }
    Ok(())
}

// The version and the second of the two fields of the request above.
fn is_of_two_fields(rt: &impl Abort, request: &Request) {
    assert_that(rt, request.version == Version::Http11, "the version");
    assert_eq!(rt; request.field_count(), 2);
    let (name, value) = request.field(1);
    assert_that(rt, name == b"Content-Length".as_slice(), "the name");
    assert_that(rt, value == b"2".as_slice(), "the value");
}

// The fields of a request.
#[test]
fn fields_of_a_request(rt: HostRuntime) -> Result<(), Fail> {
    let mut incoming = Incoming::new(rt.alloc())?;
    assert_eq!(rt; incoming.feed(SEND), SEND.len());
    let Ok(Some(request)) = incoming.next_request() else {
        panic!(rt; "no request")
    };
    is_of_two_fields(&rt, &request);
    drop(incoming);
    Ok(())
}

// A fault is answered again, whatever comes.
#[test]
fn stays_refused(rt: HostRuntime) -> Result<(), Fail> {
    let mut incoming = Incoming::new(rt.alloc())?;
    incoming.feed(b"GET a HTTP/1.0\r\n\r\n");
    for _ in 0..3 {
        assert!(rt; matches!(incoming.next_request(), Err(HttpFault::BadHead)));
        assert_eq!(rt; incoming.feed(SEND), SEND.len());
    }
    drop(incoming);
    Ok(())
}

// The example at the head of `sb_http`.
#[test]
fn example(rt: HostRuntime) -> Result<(), Fail> {
    let mut out = Vec::new(rt.alloc());
    let pieces: [&[u8]; 2] = [b"GET /a HTTP/1.1\r\nHo", b"st: h\r\n\r\nGET /b"];
    let left = told_of(&rt, rt.alloc(), &mut out, &pieces)?;
    assert_eq!(rt; out.as_slice(), b"GET /a 1.1 ;".as_slice());
    assert_eq!(rt; left, 6);
    Ok(())
}
