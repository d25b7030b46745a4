use super::stream_of;
use sb_http::{WholeResponse, read_response};
use std::alloc::Global;
use std::test::Fail;

// A response as `code name=value,.. body`.
fn tell_response(alloc: Global, out: &mut Vec<u8>, response: &WholeResponse) -> Result<(), Fail> {
    let code = response.code.to_string(alloc)?;
    out.extend_from_slice(code.as_bytes())?;
    out.push(b' ')?;
    for i in 0..response.field_count() {
        let (name, value) = response.field(i);
        out.extend_from_slice(name)?;
        out.push(b'=')?;
        out.extend_from_slice(value)?;
        out.push(b',')?;
    }
    out.push(b' ')?;
    out.extend_from_slice(response.body)?;
    Ok(())
}

fn told(alloc: Global, row: &str) -> Result<Vec<u8>, Fail> {
    let bytes = stream_of(alloc, row)?;
    let mut out = Vec::new(alloc);
    match read_response(&bytes) {
        Some(response) => tell_response(alloc, &mut out, &response)?,
        None => out.extend_from_slice(b"none")?,
    }
    Ok(out)
}

static RESPONSES: [(&str, &str); 14] = [
    (
        "HTTP/1.1 200 OK|Content-Length: 2||hi",
        "200 Content-Length=2, hi",
    ),
    ("HTTP/1.0 404~content-length:0~~", "404 content-length=0, "),
    ("HTTP/1.1 204 No Content||", "204  "),
    (
        "HTTP/1.1 200 OK|Content-Length: 02|Content-Length: 2||hi",
        "200 Content-Length=02,Content-Length=2, hi",
    ),
    ("HTTP/1.1 200 OK|Content-Length: 2||hi!", "none"),
    ("HTTP/1.1 200 OK|Content-Length: 3||hi", "none"),
    (
        "HTTP/1.1 200 OK|Content-Length: 2|Content-Length: 3||hi",
        "none",
    ),
    ("HTTP/1.1 200 OK||hi", "none"),
    ("HTTP/1.1 204 No Content|Content-Length: 0||", "none"),
    (
        "HTTP/1.1 200 OK|Transfer-Encoding: chunked||2|hi|0||",
        "none",
    ),
    ("HTTP/1.1 200 OK|Content-Length: 2|", "none"),
    ("HTTP/2 200 OK|Content-Length: 0||", "none"),
    ("x", "none"),
    ("", "none"),
];

// RFC 9112, sections 2.2, 4, 6.1 to 6.3: what is read, and what isn't.
#[test]
fn whole_responses(rt: HostRuntime) -> Result<(), Fail> {
    let alloc = rt.alloc();
    for (row, wanted) in &RESPONSES {
        let out = told(alloc, row)?;
        assert!(rt; out.as_slice() == wanted.as_bytes(), "{row}");
    }
    Ok(())
}
