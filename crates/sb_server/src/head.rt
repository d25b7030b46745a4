// What the head of a request says of its connection and its body.
ghost use Rattle.std.specs.Prelude.{◌≡◌, ◌==◌, ◌||◌, ◌<◌, false, map, length, take, drop, All, MatchOption};
ghost use Rattle.std.specs.List.{list_all, list_any};
ghost use Rattle.httparse.specs.Spans.{IsHeaderWithin, header_bytes};
ghost use Rattle.sb_http.specs.Said.{said_by};
ghost use Rattle.sb_http.specs.Version.{minor_of};
ghost use Rattle.sb_rest.specs.Batches.{is_blank};
ghost use Rattle.sb_server.specs.Asks as asks;
ghost use Rattle.sb_server.specs.Bodies as bodies;

use httparse::spans::HeaderSpan;
use sb_http::{Request, Version, is_word};
use sb_rest::has_media_type;
use sb_routes::cut;

const CLOSE: &[u8] = b"close";

/// The media type of JSON values on a line each.
pub(crate) const LINES_TYPE: &[u8] = b"application/x-ndjson";

/// Whether the connection ends for the request's sake: the request is of HTTP/1.0, or has a line
/// `Connection` that lists `close` (RFC 9112, section 9.6).
pub(crate) fn closes(request: &Request) -> bool
    ensures { result ≡ asks.asks_close (said_by request.now) }
{
    is_old(request.version) || has_close(request.text, request.lines)
}

// Whether it is HTTP/1.0, whose connections end with a response.
fn is_old(version: Version) -> bool
    ensures { result ≡ (minor_of version == 0) }
{
    match version {
        Version::Http10 => true,
        Version::Http11 => false,
    }
}

fn is_blank(byte: u8) -> bool
    ensures { result ≡ is_blank byte }
{
    byte == b' ' || byte == b'\t'
}

fn are_blank(bytes: &[u8]) -> bool
    ensures { result ≡ list_all is_blank bytes.now }
{
    bytes.iter().all(|b| is_blank(*b))
}

fn front(bytes: &[u8], n: usize) -> &[u8]
    ensures { result.now ≡ take n bytes.now }
{
    if n <= bytes.len() { &bytes[..n] } else { bytes }
}

fn behind(bytes: &[u8], n: usize) -> &[u8]
    ensures { result.now ≡ drop n bytes.now }
{
    if n <= bytes.len() { &bytes[n..] } else { &[] }
}

// A word without the blanks before it.
fn unindented(word: &[u8]) -> &[u8]
    ensures { result.now ≡ asks.unindented word.now }
{
    match word.iter().position(|b| !is_blank(*b)) {
        Some(at) => &word[at..],
        None => &[],
    }
}

// Whether it is the word `close`, and blanks behind it alone.
fn begins_close(word: &[u8]) -> bool
    ensures { result ≡ asks.begins_close word.now }
{
    is_word(CLOSE, front(word, CLOSE.len())) && are_blank(behind(word, CLOSE.len()))
}

fn is_close_word(word: &[u8]) -> bool
    ensures { result ≡ asks.is_close_word word.now }
{
    begins_close(unindented(word))
}

// The first word of a list and the list behind it, where there is one.
fn next_word(list: &[u8]) -> Option<(&[u8], &[u8])>
    ensures word { MatchOption result (asks.lists_close list.now ≡ false) (λ x. asks.lists_close list.now ≡ (asks.is_close_word x.0.now || asks.lists_close x.1.now)) }
    ensures shorter { MatchOption result (length list.now ≡ 0) (λ x. length x.1.now < length list.now) }
{
    if list.is_empty() {
        return None;
    }
    Some(cut(list, b','))
}

// Whether a word of the list is `close`.
fn lists_close(list: &[u8]) -> bool
    ensures { result ≡ asks.lists_close list.now }
{
    let mut rest = list;
    while let Some((word, later)) = next_word(rest) {
        if is_close_word(word) {
            return true;
        }
        rest = later;
    }
    false
}

fn is_close(name: &[u8], value: &[u8]) -> bool
    ensures { result ≡ asks.is_close (name.now, value.now) }
{
    is_word(b"connection", name) && lists_close(value)
}

fn has_close(text: &[u8], lines: &[HeaderSpan]) -> bool
    requires { All (IsHeaderWithin (length text.now)) lines.now }
    ensures { result ≡ list_any asks.is_close (map (header_bytes text.now) lines.now) }
{
    for line in lines {
        if is_close(line.name.of(text), line.value.of(text)) {
            return true;
        }
    }
    false
}

// ---- the body

/// Whether the body of a request is of script lines, one or more: its last Content-Type is
/// `application/x-ndjson`, in any case and with any parameters.
pub(crate) fn has_lines(request: &Request) -> bool
    ensures { result ≡ bodies.has_lines (said_by request.now).head.fields }
{
    has_media_type(request, LINES_TYPE)
}
