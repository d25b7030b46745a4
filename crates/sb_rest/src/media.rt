// The media type of a request's body.
ghost use Rattle.std.specs.Prelude.{◌≡◌, map, All, length, drop};
ghost use Rattle.std.specs.List.{list_all};
ghost use Rattle.httparse.specs.Spans.{IsHeaderWithin, header_bytes};
ghost use Rattle.sb_http.specs.Said.{fields_of};
ghost use Rattle.sb_rest.specs.Batches as batches;

use crate::reserved::front;
use httparse::spans::HeaderSpan;
use sb_http::{Request, is_word};
use sb_routes::cut;

/// Whether the body of a request is of this media type: that its last Content-Type names, in any case
/// and with any parameters.
pub fn has_media_type(request: &Request, media: &[u8]) -> bool
    ensures { result ≡ batches.has_media_type media.now (fields_of request.now) }
{
    has_media_type_in(request.text, request.lines, media)
}

/// The same of these lines.
pub(crate) fn has_media_type_in(text: &[u8], lines: &[HeaderSpan], media: &[u8]) -> bool
    requires { All (IsHeaderWithin (length text.now)) lines.now }
    ensures { result ≡ batches.has_media_type media.now (map (header_bytes text.now) lines.now) }
{
    let mut so_far = false;
    for line in lines {
        if is_word(b"content-type", line.name.of(text)) {
            so_far = is_media_type(media, line.value.of(text));
        }
    }
    so_far
}

#[tactic(auto, unfolding(crate::specs::Batches::is_media_type))]
fn is_media_type(media: &[u8], value: &[u8]) -> bool
    ensures { result ≡ batches.is_media_type media.now value.now }
{
    is_media_word(media, cut(value, b';').0)
}

/// Whether a word is this type, in any case, with blanks behind it alone.
pub(crate) fn is_media_word(media: &[u8], word: &[u8]) -> bool
    ensures { result ≡ batches.is_media_word media.now word.now }
{
    is_word(media, front(word, media.len())) && are_blank(behind(word, media.len()))
}

/// A space or a tab.
pub(crate) fn is_blank(byte: u8) -> bool
    ensures { result ≡ batches.is_blank byte }
{
    byte == b' ' || byte == b'\t'
}

// Whether these are spaces and tabs alone.
fn are_blank(bytes: &[u8]) -> bool
    ensures { result ≡ list_all batches.is_blank bytes.now }
{
    bytes.iter().all(|b| is_blank(*b))
}

// What stands behind so many bytes.
fn behind(bytes: &[u8], n: usize) -> &[u8]
    ensures { result.now ≡ drop n bytes.now }
{
    if n <= bytes.len() { &bytes[n..] } else { &[] }
}
