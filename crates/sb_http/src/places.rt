// Where the parts of a request lie in the buffer, and what comes next of it.
use httparse::spans::RequestSpans;

/// What comes next of a request.
#[derive(Clone, Copy)]
pub enum Next {
    Head,
    /// A body whose size is known.
    Body,
    /// The line of a chunk.
    Line,
    /// The bytes of a chunk and its end.
    Data,
    Trailers,
}

/// Where a whole request lies in the buffer.
#[derive(Clone, Copy)]
pub struct Shape {
    pub head: RequestSpans,
    pub start: usize,
    pub body: usize,
    pub end: usize,
    /// Where the bytes behind it begin.
    pub rest: usize,
}

/// What a step came to.
#[derive(Clone, Copy)]
pub enum Step {
    Goes,
    Waits,
    Whole(Shape),
}
