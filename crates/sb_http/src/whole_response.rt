// A whole response, as the one who asked reads it.
ghost use Rattle.std.specs.Prelude.{◌≡◌, ◌≤◌, ◌<◌, length, take, All};
ghost use Rattle.httparse.specs.Spans.{IsHeaderWithin};

use crate::limits::MAX_FIELDS;
use crate::version::Version;
use httparse::spans::HeaderSpan;

/// A whole response. Its parts are borrowed from its bytes.
#[derive(Clone, Copy)]
pub struct WholeResponse<'a> {
    pub version: Version,
    /// The number of the status, 0 to 999.
    pub code: u16,
    pub body: &'a [u8],
    /// The bytes of the response.
    pub text: &'a [u8],
    /// Where the names and values of the fields lie in them: so many of these, in order.
    pub spans: [HeaderSpan; MAX_FIELDS],
    pub count: usize,
    ghost fits: { count ≤ length spans },
    ghost lie: { All (IsHeaderWithin (length text.now)) (take count spans) },
}

impl<'a> WholeResponse<'a> {
    ghost use Rattle.std.specs.Prelude.{slice_get, Some};
    ghost use Rattle.sb_http.specs.WholeResponses.{fields_in};

    /// How many fields there are.
    pub fn field_count(&self) -> usize
        ensures { result ≡ length (fields_in self.now) }
    {
        self.count
    }

    /// The name of a field as it was sent, and its value without the white space around it.
    pub fn field(&self, i: usize) -> (&'a [u8], &'a [u8])
        requires { i < length (fields_in self.now) }
        ensures { slice_get (fields_in self.now) i ≡ Some (result.0.now, result.1.now) }
    {
        let line = self.spans[..self.count][i];
        (line.name.of(self.text), line.value.of(self.text))
    }
}
