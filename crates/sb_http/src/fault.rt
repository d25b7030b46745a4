// Why a stream is refused.

/// Why a stream of requests is refused. Each ends the connection, behind a response with the status
/// that stands here.
#[derive(Clone, Copy, PartialEq, Eq)]
pub enum HttpFault {
    /// No continuation of the bytes left is a request: 400.
    BadHead,
    /// The head has more than 16,384 bytes or 64 field lines: 431.
    HeadTooLarge,
    /// The length, or the chunks so far, are more than 1,048,576 bytes: 413.
    BodyTooLarge,
}
