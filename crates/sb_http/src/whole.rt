// Reads a response that came whole.
ghost use Rattle.std.specs.Prelude.{◌≡◌, ◌≤◌, length, take, drop, map, IfSome, Some, None, true, false};
ghost use Rattle.httparse.specs.Spans.{IsResponseWithin, header_bytes};
ghost use Rattle.sb_http.specs.Fields.{stated_by};
ghost use Rattle.sb_http.specs.WholeResponses.{WholeMessage, IsWhole, size_by, body_size, told_by};

use crate::fields::{Coding, Length, Stated, stated_by};
use crate::limits::MAX_FIELDS;
use crate::version::version_of;
use crate::whole_response::WholeResponse;
use httparse::Status;
use httparse::spans::{EMPTY_HEADER_SPAN, HeaderSpan, ResponseSpans, parse_response};

// How long the body is by these lines.
fn size_by(code: u16, coding: Coding, length: Length) -> Option<u64>
    ensures { result ≡ size_by code coding length }
{
    match (coding, length) {
        (Coding::Absent, Length::Absent) => { if code == 204 { Some(0) } else { None } }
        (Coding::Absent, Length::Value(n)) => { if code == 204 { None } else { Some(n) } }
        _ => None,
    }
}

fn body_size(code: u16, said: Stated) -> Option<u64>
    ensures { result ≡ body_size code said }
{
    size_by(code, said.coding, said.length)
}

// Whether this is the size.
fn is_size(size: Option<u64>, len: usize) -> bool
    ensures same { result ≡ true → size ≡ Some len }
    ensures other { result ≡ false → size ≡ Some len → ⊥ }
{
    match size {
        Some(n) => n == len as u64,
        None => false,
    }
}

fn body_at(bytes: &[u8], at: usize) -> &[u8]
    requires { at ≤ length bytes.now }
    ensures { result.now ≡ drop at bytes.now }
{
    &bytes[at..]
}

// What the lines of a head say, which lie in these bytes.
fn said_in(bytes: &[u8], spans: &[HeaderSpan], head: &ResponseSpans) -> Stated
    requires { IsResponseWithin bytes.now spans.now head.now }
    ensures { result ≡ stated_by (map (header_bytes bytes.now) (take head.now.headers spans.now)) }
{
    stated_by(bytes, &spans[..head.headers])
}

/// The response that these bytes are, from their begin to their end; none where they are no response
/// with at most 64 field lines, a length and a body of that length. Of a 204 neither is to be there. A
/// body in chunks isn't read.
pub fn read_response(bytes: &[u8]) -> Option<WholeResponse<'_>>
    ensures some { IfSome result (λ r. IsWhole bytes.now (told_by r)) }
    ensures none { result ≡ None → (m : WholeMessage) → IsWhole bytes.now m → ⊥ }
{
    let mut spans = [EMPTY_HEADER_SPAN; MAX_FIELDS];
    let Ok(Status::Complete(head)) = parse_response(bytes, &mut spans) else {
        return None;
    };
    let body = body_at(bytes, head.len);
    let said = said_in(bytes, &spans, &head);
    if !is_size(body_size(head.code, said), body.len()) {
        return None;
    }
    Some(WholeResponse {
        version: version_of(head.version),
        code: head.code,
        body,
        text: bytes,
        spans,
        count: head.headers,
    })
}
