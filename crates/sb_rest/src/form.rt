// Messages as JSON in the body of a response.
ghost use Rattle.std.specs.Prelude.{◌≡◌, ◌++◌, ◌+◌, ◌<◌, ◌||◌, nat_le, map, All, length, false, IfOk, OnOk, MatchOption};
ghost use Rattle.httparse.specs.Spans.{IsHeaderWithin, header_bytes};
ghost use Rattle.sb_http.specs.Responses.{field_in, field_line};
ghost use Rattle.sb_http.specs.Said.{fields_of};
ghost use Rattle.sb_rest.specs.Forms as forms;

use crate::field::{push_field, push_location};
use crate::media::{is_blank, is_media_word};
use crate::shown::broker_text;
use httparse::spans::HeaderSpan;
use sb_http::{Header, Request, is_word};
use sb_machine::CopyShown;
use sb_routes::cut;
use std::alloc::{AllocError, Global};

/// The media type of a message as JSON.
const JSON_TYPE: &[u8] = b"application/json";

/// The most fields that a message may have in a head which an ordinary client takes: 64 lines, less
/// those of Repeat-Kept, Content-Length and Connection.
const MOST_LINES: usize = 61;

/// The most bytes that their lines may take: 16,384, less what these, the status line and the empty
/// line take at the most.
const MOST_BYTES: usize = 16_284;

// ---- who asks for it

// A range without the blanks before it.
fn unindented(range: &[u8]) -> &[u8]
    ensures { result.now ≡ forms.unindented range.now }
{
    match range.iter().position(|b| !is_blank(*b)) {
        Some(at) => &range[at..],
        None => &[],
    }
}

// Whether it is the type, and blanks behind it alone.
fn is_json_word(word: &[u8]) -> bool
    ensures { result ≡ forms.is_json_word word.now }
{
    is_media_word(JSON_TYPE, word)
}

fn is_json_range(range: &[u8]) -> bool
    ensures { result ≡ forms.is_json_range range.now }
{
    is_json_word(cut(unindented(range), b';').0)
}

// The first range of a list and the list behind it, where there is one.
fn next_range(list: &[u8]) -> Option<(&[u8], &[u8])>
    ensures range { MatchOption result (forms.lists_json list.now ≡ false) (λ x. forms.lists_json list.now ≡ (forms.is_json_range x.0.now || forms.lists_json x.1.now)) }
    ensures shorter { MatchOption result (length list.now ≡ 0) (λ x. length x.1.now < length list.now) }
{
    if list.is_empty() {
        return None;
    }
    Some(cut(list, b','))
}

// Whether a range of the list names the type.
fn lists_json(list: &[u8]) -> bool
    ensures { result ≡ forms.lists_json list.now }
{
    let mut rest = list;
    while let Some((range, later)) = next_range(rest) {
        if is_json_range(range) {
            return true;
        }
        rest = later;
    }
    false
}

fn is_json_asked(name: &[u8], value: &[u8]) -> bool
    ensures { result ≡ forms.is_json_asked (name.now, value.now) }
{
    is_word(b"accept", name) && lists_json(value)
}

fn wants_json_in(text: &[u8], lines: &[HeaderSpan]) -> bool
    requires { All (IsHeaderWithin (length text.now)) lines.now }
    ensures { result ≡ forms.wants_json (map (header_bytes text.now) lines.now) }
{
    for line in lines {
        if is_json_asked(line.name.of(text), line.value.of(text)) {
            return true;
        }
    }
    false
}

/// Whether a request asks for messages as JSON: one of its `Accept` lines names `application/json`,
/// whatever parameters stand behind it.
pub fn wants_json(request: &Request) -> bool
    ensures { result ≡ forms.wants_json (fields_of request.now) }
{
    wants_json_in(request.text, request.lines)
}

// ---- what it says

/// The headers of a message that is all in the body, with the texts of its moments and of the place
/// where it was received.
pub(crate) fn json_fields(
    alloc: Global,
    host: &[u8],
    enqueued: &str,
    until: &str,
    place: &str,
    copy: &CopyShown,
) -> Result<Vec<Header>, AllocError>
    ensures { IfOk result (λ v. map field_in v.items
        ≡ forms.json_fields host.now enqueued.now until.now place.now copy.now) }
{
    let mut headers = Vec::new(alloc);
    let broker = broker_text(alloc, &[], enqueued, until, copy)?;
    push_field(alloc, &mut headers, b"BrokerProperties", &broker)?;
    push_location(alloc, &mut headers, host, place, copy)?;
    push_field(alloc, &mut headers, b"Content-Type", JSON_TYPE)?;
    Ok(headers)
}

/// Adds the header of a form that was not asked for.
pub(crate) fn push_unasked(
    alloc: Global,
    headers: &mut Vec<Header>,
    json: bool,
) -> Result<(), AllocError>
    ensures { OnOk result (map field_in headers.new.items ≡ map field_in headers.old.items ++ forms.unasked json) }
{
    if json {
        return Ok(());
    }
    push_field(alloc, headers, b"Message-Form", b"json")
}

// ---- where a head would be too large

// What is left of so many bytes behind a field's line, where that fits: two bytes stand between name
// and value, and two behind.
#[tactic(auto, unfolding(sb_http::specs::Responses::field_line))]
fn left_behind(left: usize, header: &Header) -> Option<usize>
    ensures { MatchOption result (left < length (field_line (field_in header.now))) (λ rest. left ≡ length (field_line (field_in header.now)) + rest) }
{
    let left = left.checked_sub(header.name.len())?;
    let left = left.checked_sub(header.value.len())?;
    left.checked_sub(4)
}

// Whether the lines of these fields take so many bytes at most.
fn are_within(headers: &[Header], most: usize) -> bool
    ensures { result ≡ nat_le (forms.lines_length (map field_in headers.now)) most }
{
    let mut left = most;
    for header in headers {
        let Some(rest) = left_behind(left, header) else {
            return false;
        };
        left = rest;
    }
    true
}

/// Whether an ordinary client takes a head with these fields.
#[tactic(auto, unfolding(crate::specs::Forms::fits_head))]
pub(crate) fn fits_head(headers: &[Header]) -> bool
    ensures { result ≡ forms.fits_head (map field_in headers.now) }
{
    headers.len() <= MOST_LINES && are_within(headers, MOST_BYTES)
}
