//! Requests of HTTP/1.1 out of a stream of bytes, and the bytes of responses (RFC 9112).
//!
//! It stands on `httparse` alone, whose grammar it takes for heads and the lines of chunks. Which
//! requests a stream holds, and what is left behind them, is a relation (`specs/Streams`) with no
//! word about pieces. `Incoming` stands for what is left: `feed` puts a piece behind it, and
//! `next_request` takes the next request off its front once it is whole. So the requests are the
//! same however the stream is cut, and what is refused is refused for its cause (`specs/Causes`).
//! One buffer is made in `new`, and nothing after that takes memory. `write_response` gives the
//! bytes that `specs/Responses` says, and `read_response` reads one that came whole, by
//! `specs/WholeResponses`. `docs/HTTP.md` has the rules and limits.
//!
//! ```rust
//! fn take_all(out: &mut Vec<u8>, incoming: &mut Incoming) -> Result<Option<HttpFault>, Fail> {
//!     'requests: loop {
//!         match incoming.next_request() {
//!             Ok(Some(request)) => tell(out, &request)?,
//!             Ok(None) => return Ok(None),
//!             Err(fault) => return Ok(Some(fault)),
//!         }
//!     }
//! }
//!
//! let mut incoming = Incoming::new(alloc)?;
//! for piece in [b"GET /a HTTP/1.1\r\nHo".as_slice(), b"st: h\r\n\r\nGET /b"] {
//!     assert_eq!(rt; incoming.feed(piece), piece.len());
//!     assert!(rt; take_all(&mut out, &mut incoming)?.is_none());
//! }
//! assert_eq!(rt; out.as_slice(), b"GET /a 1.1 ;".as_slice());
//! assert_eq!(rt; incoming.left(), 6);
//! ```
#![tactic(auto)]

mod buffer;
mod fault;
mod fields;
mod incoming;
mod judge;
pub mod laws;
mod limits;
mod parts;
mod places;
mod read;
mod request;
mod response;
mod steps;
mod version;
mod whole;
pub mod whole_laws;
mod whole_response;
mod write;

pub use fault::HttpFault;
pub use fields::{is_word, number};
pub use incoming::Incoming;
pub use limits::{MAX_BODY, MAX_BUFFER, MAX_FIELDS, MAX_HEAD, MAX_LINE, MAX_TRAILERS};
pub use request::Request;
pub use response::{Header, Response, Status};
pub use version::Version;
pub use whole::read_response;
pub use whole_response::WholeResponse;
pub use write::write_response;
