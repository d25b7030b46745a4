// What stands at the front of bytes: a head with its framing, or the line of a chunk.
ghost use Rattle.std.specs.Prelude.{◌≡◌, ◌≢◌, ◌≤◌, true, false, length};
ghost use Rattle.httparse.specs.Spans.{IsRequestWithin};
ghost use Rattle.sb_http.specs.Heads.{max_fields, framing};
ghost use Rattle.sb_http.specs.Bodies.{max_body};
ghost use Rattle.sb_http.specs.Found.{head_at, JudgesHead, JudgesLine, Rereads};

use crate::fault::HttpFault;
use crate::fields::{Framing, framing_by, stated_by};
use crate::limits::MAX_BODY;
use crate::read::{read_head, read_line};
use httparse::spans::{HeaderSpan, RequestSpans};

/// What stands where a head is to come.
#[derive(Clone, Copy)]
pub enum Judged {
    /// Less than a head.
    Waits,
    /// A head with a body of so many bytes.
    Sized(RequestSpans, usize),
    /// A head with a chunked body.
    Chunked(RequestSpans),
}

/// What stands where the line of a chunk is to come.
#[derive(Clone, Copy)]
pub enum LineJudged {
    /// Less than a line.
    Waits,
    /// The line of the last chunk, so long.
    Last(usize),
    /// The line of a chunk: its length, and the size of the chunk.
    Chunk(usize, usize),
}

// How the body behind a head goes.
fn framing_of(text: &[u8], spans: &[HeaderSpan], head: &RequestSpans) -> Framing
    requires within { IsRequestWithin text.now spans.now head.now }
    requires ends { head.now.len ≤ length text.now }
    ensures { result ≡ framing (head_at text.now spans.now head.now) }
{
    framing_by(
        head.path.of(text),
        head.version,
        stated_by(text, &spans[..head.headers]),
    )
}

/// What stands where a head is to come.
pub(crate) fn judge_head(bytes: &[u8], spans: &mut [HeaderSpan]) -> Result<Judged, HttpFault>
    requires { length spans.old ≡ max_fields }
    ensures { JudgesHead bytes.now spans.new result }
{
    let Some(head) = read_head(bytes, spans)? else {
        return Ok(Judged::Waits);
    };
    match framing_of(&bytes[..head.len], spans, &head) {
        Framing::Refused => Err(HttpFault::BadHead),
        Framing::Sized(size) => {
            if size > MAX_BODY as u64 {
                return Err(HttpFault::BodyTooLarge);
            }
            Ok(Judged::Sized(head, size as usize))
        }
        Framing::Chunked => Ok(Judged::Chunked(head)),
    }
}

/// What stands where the line of a chunk is to come, behind so many bytes of the body.
pub(crate) fn judge_line(bytes: &[u8], have: usize) -> Result<LineJudged, HttpFault>
    requires { have ≤ max_body }
    ensures { JudgesLine have bytes.now result }
{
    match read_line(bytes)? {
        None => Ok(LineJudged::Waits),
        Some((len, 0)) => Ok(LineJudged::Last(len)),
        Some((len, size)) => {
            if size > (MAX_BODY - have) as u64 {
                return Err(HttpFault::BodyTooLarge);
            }
            Ok(LineJudged::Chunk(len, size as usize))
        }
    }
}

// Whether two framings are the same.
fn is_same(left: Framing, right: Framing) -> bool
    ensures same { result ≡ true → left ≡ right }
    ensures other { result ≡ false → left ≢ right }
{
    left == right
}

/// Finds the parts of a head again, whose text this is and whose body goes so.
pub(crate) fn reread(
    text: &[u8],
    spans: &mut [HeaderSpan],
    framing: Framing,
) -> Option<RequestSpans>
    requires { length spans.old ≡ max_fields }
    ensures { Rereads text.now framing spans.new result }
{
    match read_head(text, spans) {
        Ok(Some(head)) => {
            if head.len != text.len() {
                return None;
            }
            if is_same(framing_of(text, spans, &head), framing) {
                Some(head)
            } else {
                None
            }
        }
        Ok(None) => None,
        Err(_) => None,
    }
}
