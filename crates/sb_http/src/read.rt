// Reads a head, the line of a chunk or trailers off the front of bytes, within their limits.
ghost use Rattle.std.specs.Prelude.{◌≡◌, ◌≢◌, true, false, length, take};
ghost use Rattle.httparse.specs.declared.Error.TheVariants.{TooManyHeaders};
ghost use Rattle.sb_http.specs.Heads.{max_fields};
ghost use Rattle.sb_http.specs.Found.{HeadAnswers, LineAnswers, TrailersAnswer};

use crate::fault::HttpFault;
use crate::limits::{MAX_HEAD, MAX_LINE, MAX_TRAILERS};
use httparse::spans::{HeaderSpan, RequestSpans, parse_headers, parse_request};
use httparse::{Error, Status, parse_chunk_size};

// The first so many bytes.
fn front(bytes: &[u8], n: usize) -> &[u8]
    ensures { result.now ≡ take n bytes.now }
{
    if bytes.len() <= n { bytes } else { &bytes[..n] }
}

// Whether there are more field lines than places for them.
fn is_crowded(error: Error) -> bool
    ensures crowded { result ≡ true → error ≡ TooManyHeaders }
    ensures other { result ≡ false → error ≢ TooManyHeaders }
{
    match error {
        Error::TooManyHeaders => true,
        _ => false,
    }
}

/// The head that the bytes begin with, and its fields' places; none where it may still come.
pub(crate) fn read_head(
    bytes: &[u8],
    spans: &mut [HeaderSpan],
) -> Result<Option<RequestSpans>, HttpFault>
    requires { length spans.old ≡ max_fields }
    ensures { HeadAnswers bytes.now spans.new result }
{
    match parse_request(front(bytes, MAX_HEAD), spans) {
        Ok(Status::Complete(head)) => Ok(Some(head)),
        Ok(Status::Partial) => {
            if bytes.len() < MAX_HEAD {
                Ok(None)
            } else {
                Err(HttpFault::HeadTooLarge)
            }
        }
        Err(error) => {
            if is_crowded(error) {
                Err(HttpFault::HeadTooLarge)
            } else {
                Err(HttpFault::BadHead)
            }
        }
    }
}

/// The length of the chunk line that the bytes begin with, and the size that it gives; none where it
/// may still come.
pub(crate) fn read_line(bytes: &[u8]) -> Result<Option<(usize, u64)>, HttpFault>
    ensures { LineAnswers bytes.now result }
{
    match parse_chunk_size(front(bytes, MAX_LINE)) {
        Ok(Status::Complete(found)) => Ok(Some(found)),
        Ok(Status::Partial) => {
            if bytes.len() < MAX_LINE {
                Ok(None)
            } else {
                Err(HttpFault::BadHead)
            }
        }
        Err(_) => Err(HttpFault::BadHead),
    }
}

/// The length of the trailers that the bytes begin with; none where they may still come. Too long is
/// bad here, not too large.
pub(crate) fn read_trailers(
    bytes: &[u8],
    spans: &mut [HeaderSpan],
) -> Result<Option<usize>, HttpFault>
    requires { length spans.old ≡ max_fields }
    ensures { TrailersAnswer bytes.now result }
{
    match parse_headers(front(bytes, MAX_TRAILERS), spans) {
        Ok(Status::Complete((len, _))) => Ok(Some(len)),
        Ok(Status::Partial) => {
            if bytes.len() < MAX_TRAILERS {
                Ok(None)
            } else {
                Err(HttpFault::BadHead)
            }
        }
        Err(_) => Err(HttpFault::BadHead),
    }
}
