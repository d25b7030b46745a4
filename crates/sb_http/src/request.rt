// A whole request, whose parts lie in the buffer.
ghost use Rattle.std.specs.Prelude.{◌≡◌, ◌<◌, ◌≤◌, length, All};
ghost use Rattle.httparse.specs.Spans.{IsHeaderWithin};

use crate::version::Version;
use httparse::spans::HeaderSpan;

/// A whole request. Its parts are borrowed from the buffer that it came in.
#[derive(Clone, Copy)]
pub struct Request<'a> {
    pub method: &'a [u8],
    /// The target as it was sent, in origin-form.
    pub target: &'a [u8],
    pub version: Version,
    /// The bytes of the head.
    pub text: &'a [u8],
    /// Where the names and values of the fields lie in the head, in order.
    pub lines: &'a [HeaderSpan],
    /// The body, of chunks what they hold.
    pub body: &'a [u8],
    ghost lie: { All (IsHeaderWithin (length text.now)) lines.now },
}

impl<'a> Request<'a> {
    ghost use Rattle.std.specs.Prelude.{slice_get, Some};
    ghost use Rattle.sb_http.specs.Said.{fields_of};

    /// How many fields there are.
    pub fn field_count(&self) -> usize
        ensures { result ≡ length (fields_of self.now) }
    {
        self.lines.len()
    }

    /// The name of a field as it was sent, and its value without the white space around it.
    pub fn field(&self, i: usize) -> (&'a [u8], &'a [u8])
        requires { i < length (fields_of self.now) }
        ensures { slice_get (fields_of self.now) i ≡ Some (result.0.now, result.1.now) }
    {
        let line = self.lines[i];
        (line.name.of(self.text), line.value.of(self.text))
    }
}
