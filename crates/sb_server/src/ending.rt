// How a connection ends, and how serving does.

/// How a connection ended, for its server. Each response was written in full, but where a write failed or the
/// other side was too slow.
#[derive(Clone, Copy, PartialEq, Eq)]
pub enum Ending {
    /// The other side ended between two requests, or a response ended the connection.
    Closed,
    /// A head that can't become a request: 400.
    BadHead,
    /// A head above its limits: 431.
    HeadTooLarge,
    /// A body above its limit: 413.
    BodyTooLarge,
    /// The other side ended within a request, which has no response.
    Truncated,
    /// 2^32 bytes were taken.
    LongConnection,
    ReadFault,
    /// The other side ended, or a read failed, while a call waited: that was answered as if it had
    /// found nothing by its end.
    Gone,
    WriteFault,
    /// The other side was too slow: a request wasn't whole in time, or hadn't begun, and has no response,
    /// or a response wasn't taken in time.
    Slow,
    /// The namespace acts no more: so the last response says.
    Stopped,
    OutOfMemory,
}

/// How the workers of several doors ended.
#[derive(Clone, Copy, PartialEq, Eq)]
pub enum ServeEnding {
    /// Each worker served as many connections as were asked for, or its door ended, or the namespace
    /// acts no more.
    Done,
    /// A door failed.
    DoorFault,
    /// No door failed, and a worker ended for want of memory, or there was none to begin.
    OutOfMemory,
}
