use sb_http::{Header, Response, Status, write_response};
use std::alloc::Global;
use std::test::Fail;

fn header(alloc: Global, name: &str, value: &str) -> Result<Header, Fail> {
    let name = name.as_bytes().to_vec(alloc)?;
    let value = value.as_bytes().to_vec(alloc)?;
    Ok(Header { name, value })
}

// The bytes of a response, which is dropped by a call.
fn written(alloc: Global, response: Response) -> Result<Vec<u8>, Fail> {
    let bytes = write_response(alloc, &response);
    drop(response);
    Ok(bytes?)
}

// Those of an empty response.
fn bytes_of(alloc: Global, status: Status) -> Result<Vec<u8>, Fail> {
    let response = Response {
        status,
        headers: Vec::new(alloc),
        body: Vec::new(alloc),
        closes: false,
    };
    written(alloc, response)
}

static STATUS_LINES: [(Status, &str); 14] = [
    (Status::Ok, "200 OK"),
    (Status::Created, "201 Created"),
    (Status::NoContent, "204 No Content"),
    (Status::BadRequest, "400 Bad Request"),
    (Status::Unauthorized, "401 Unauthorized"),
    (Status::Forbidden, "403 Forbidden"),
    (Status::NotFound, "404 Not Found"),
    (Status::MethodNotAllowed, "405 Method Not Allowed"),
    (Status::Conflict, "409 Conflict"),
    (Status::Gone, "410 Gone"),
    (Status::PayloadTooLarge, "413 Payload Too Large"),
    (
        Status::HeaderFieldsTooLarge,
        "431 Request Header Fields Too Large",
    ),
    (Status::InternalServerError, "500 Internal Server Error"),
    (Status::ServiceUnavailable, "503 Service Unavailable"),
];

// RFC 9110, section 15: each status line.
#[test]
fn status_lines(rt: HostRuntime) -> Result<(), Fail> {
    for (status, line) in &STATUS_LINES {
        let bytes = bytes_of(rt.alloc(), *status)?;
        let rest = bytes.strip_prefix(b"HTTP/1.1 ").ok_or("another version")?;
        let rest = rest.strip_prefix(line.as_bytes()).ok_or(*line)?;
        assert!(rt; rest.starts_with(b"\r\n"), "{line}");
    }
    Ok(())
}

fn created(alloc: Global) -> Result<Response, Fail> {
    let body = b"0123456789".to_vec(alloc)?;
    let mut headers = Vec::new(alloc);
    headers.push(header(alloc, "Location", "http://h/q")?)?;
    headers.push(header(alloc, "Content-Type", "application/json")?)?;
    Ok(Response {
        status: Status::Created,
        headers,
        body,
        closes: true,
    })
}

// RFC 9112, sections 6.2 and 9.6: headers in order, the length, the end of the connection, the body.
#[test]
fn whole_response(rt: HostRuntime) -> Result<(), Fail> {
    let alloc = rt.alloc();
    let bytes = written(alloc, created(alloc)?)?;
    let wanted =
        b"HTTP/1.1 201 Created\r\nLocation: http://h/q\r\nContent-Type: application/json\r\nContent-Length: 10\r\nConnection: close\r\n\r\n0123456789";
    assert_eq!(rt; bytes.as_slice(), wanted.as_slice());
    Ok(())
}
