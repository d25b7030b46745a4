use super::try_rows;
use std::test::Fail;

// RFC 9112, sections 2.1 to 3.2: start lines and what stands before them.
const START_LINES: &str = "\
GET /a HTTP/1.1|Host: h|| => GET /a 1.1 ;+0
GET /a HTTP/1.0|| => GET /a 1.0 ;+0
|GET /a HTTP/1.1|Host: h|| => GET /a 1.1 ;+0
GET /a HTTP/1.1~Host: h~~ => GET /a 1.1 ;+0
GET /a?x=1&y=%20 HTTP/1.1|Host: h|| => GET /a?x=1&y=%20 1.1 ;+0
GET /a#b HTTP/1.1|Host: h|| => GET /a#b 1.1 ;+0
GET /é HTTP/1.1|Host: h|| => GET /é 1.1 ;+0
get / HTTP/1.1|Host: h|| => get / 1.1 ;+0
M-SEARCH! /a HTTP/1.1|Host: h|| => M-SEARCH! /a 1.1 ;+0
GET  /a HTTP/1.1|Host: h|| => !400
GET /a  HTTP/1.1|Host: h|| => !400
GET /a HTTP/1.1 |Host: h|| => !400
GET\t/a HTTP/1.1|Host: h|| => !400
 GET /a HTTP/1.1|Host: h|| => !400
G@T /a HTTP/1.1|Host: h|| => !400
GET /a HTTP/2.0|Host: h|| => !400
GET /a HTTP/1.2|Host: h|| => !400
GET /a HTTP/1.10|Host: h|| => !400
GET /a http/1.1|Host: h|| => !400
GET /a|Host: h|| => !400
GET http://h/a HTTP/1.1|Host: h|| => !400
GET a HTTP/1.1|Host: h|| => !400
OPTIONS * HTTP/1.1|Host: h|| => !400
CONNECT h:80 HTTP/1.1|Host: h|| => !400
\0 => !400
 => +0
|| => +4
GET => +3";

// RFC 9112, sections 2.2, 3.2 and 5: field lines, and Host.
const FIELD_LINES: &str = "\
GET /a HTTP/1.1|host:h|| => GET /a 1.1 ;+0
GET /a HTTP/1.1|Host:|| => GET /a 1.1 ;+0
GET /a HTTP/1.1|Host: h|X:\tv \t|| => GET /a 1.1 ;+0
GET /a HTTP/1.1|Host: h|X:|| => GET /a 1.1 ;+0
GET /a HTTP/1.1|Host: h|X: é|| => GET /a 1.1 ;+0
GET /a HTTP/1.1|| => !400
GET /a HTTP/1.1|Host: h|Host: h|| => !400
GET /a HTTP/1.1|Host: h|HOST: g|| => !400
GET /a HTTP/1.0|Host: h|Host: h|| => !400
GET /a HTTP/1.1|Host : h|| => !400
GET /a HTTP/1.1| Host: h|| => !400
GET /a HTTP/1.1|Host: h|X: a| b|| => !400
GET /a HTTP/1.1|Host: h|X: a^b|| => !400
GET /a HTTP/1.1|Host: h|X: a\0b|| => !400
GET /a HTTP/1.1|Host: h|X: \u{7f}|| => !400
GET /a HTTP/1.1|Host: h|X|| => !400
GET /a HTTP/1.1|Host: h|: v|| => !400
GET /a HTTP/1.1|Host: h|X(y): v|| => !400
GET /a HTTP/1.1|Host: h| => +26";

// RFC 9112, sections 6.2 and 6.3, and RFC 9110, section 8.6: Content-Length.
const LENGTHS: &str = "\
POST /a HTTP/1.1|Host: h|Content-Length: 2||hi => POST /a 1.1 hi;+0
POST /a HTTP/1.1|Host: h|Content-Length: 2||hiX => POST /a 1.1 hi;+1
POST /a HTTP/1.1|Host: h|Content-Length: 2||h => +49
POST /a HTTP/1.1|Host: h|CONTENT-LENGTH:02||hi => POST /a 1.1 hi;+0
POST /a HTTP/1.1|Host: h|Content-Length: 0|| => POST /a 1.1 ;+0
GET /a HTTP/1.1|Content-Length: 2|Host: h||hi => GET /a 1.1 hi;+0
POST /a HTTP/1.0|Content-Length: 2||hi => POST /a 1.0 hi;+0
POST /a HTTP/1.0|Content-Length: 2|Content-Length: 2||hi => POST /a 1.0 hi;+0
POST /a HTTP/1.0|Content-Length: 2|Content-Length: 02||hi => POST /a 1.0 hi;+0
POST /a HTTP/1.0|Content-Length: 2|Content-Length: 3||hi => !400
POST /a HTTP/1.0|Content-Length: 5, 5||hello => !400
POST /a HTTP/1.0|Content-Length: +5||hello => !400
POST /a HTTP/1.0|Content-Length: -1|| => !400
POST /a HTTP/1.0|Content-Length:|| => !400
POST /a HTTP/1.0|Content-Length: 0x2||hi => !400
POST /a HTTP/1.0|Content-Length: 2 2||hi => !400
POST /a HTTP/1.0|Content-Length: 1048577|| => !413
POST /a HTTP/1.0|Content-Length: 99999999999999999999|| => !413
POST /a HTTP/1.0|Content-Length: 1048577|Content-Length: 2|| => !400
POST /a HTTP/1.1|Content-Length: 1048577|| => !400
POST a HTTP/1.0|Content-Length: 1048577|| => !400";

#[test]
fn heads(rt: HostRuntime) -> Result<(), Fail> {
    try_rows(&rt, rt.alloc(), "", START_LINES)?;
    try_rows(&rt, rt.alloc(), "", FIELD_LINES)?;
    try_rows(&rt, rt.alloc(), "", LENGTHS)
}
