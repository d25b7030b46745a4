// The bytes of a stream in one buffer, in which chunked bodies are decoded where they lie.
ghost use Rattle.std.specs.Prelude.{◌≡◌, ◌≤◌, ◌<◌, ◌+◌, ◌≢◌, length, vec_capacity};
ghost use Rattle.sb_http.specs.declared.places.Next.TheVariants.{Head, Body};

use crate::fault::HttpFault;
use crate::limits::{MAX_BUFFER, MAX_FIELDS};
use crate::parts::{append, cut, part_of};
use crate::places::{Next, Shape};
use crate::request::Request;
use crate::version::version_of;
use httparse::spans::{EMPTY_HEADER_SPAN, HeaderSpan};
use std::alloc::{AllocError, Global};

/// What was read of the request under way, and the bytes behind that.
#[derive(Drop)]
pub struct Buffer {
    pub bytes: Vec<u8>,
    pub spans: [HeaderSpan; MAX_FIELDS],
    // Where the request under way begins.
    pub start: usize,
    // Where its body begins, and where what was decoded of that ends.
    pub body: usize,
    pub done: usize,
    // Where the bytes begin that were not read.
    pub raw: usize,
    // How many bytes of a body or of a chunk are to come.
    pub to_come: usize,
    pub next: Next,
    ghost begun: { start ≤ body },
    ghost some: { next ≢ Head → start < body },
    ghost plain: { next ≡ Body → raw ≡ body },
    ghost decoded: { body ≤ done },
    ghost behind: { done ≤ raw },
    ghost within: { raw ≤ length bytes.items },
    ghost short: { body ≤ start + 16384 },
    ghost fits: { done + to_come ≤ body + 1048576 },
    ghost room: { 1082368 ≤ vec_capacity bytes },
}

impl Buffer {
    ghost use Rattle.std.specs.Prelude.{IfOk, [], ◌-◌, min, take};
    ghost use Rattle.sb_http.specs.Stages.{whole, held, and_more};
    ghost use Rattle.sb_http.specs.Bodies.{max_buffer};
    ghost use Rattle.sb_http.specs.Said.{said_by};
    ghost use Rattle.sb_http.specs.Buffers.{left_by, left_of, TakeAnswers, ReadsOn, IsShape, message_at};

    /// An empty buffer. All memory is taken here.
    pub(crate) fn new(alloc: Global) -> Result<Buffer, AllocError>
        ensures { IfOk result (λ buffer. left_of buffer ≡ whole []) }
    {
        Ok(Buffer {
            bytes: Vec::with_capacity(alloc, MAX_BUFFER)?,
            spans: [EMPTY_HEADER_SPAN; MAX_FIELDS],
            start: 0,
            body: 0,
            done: 0,
            raw: 0,
            to_come: 0,
            next: Next::Head,
        })
    }

    /// How many bytes are left.
    pub(crate) fn left(&self) -> usize
        ensures count { result ≡ held (left_of self.now) }
        ensures none { result ≡ 0 → left_of self.now ≡ whole [] }
    {
        match self.next {
            Next::Head => self.bytes.len() - self.start,
            Next::Body | Next::Line | Next::Data | Next::Trailers => {
                (self.done - self.start) + (self.bytes.len() - self.raw)
            }
        }
    }

    /// Takes the next whole request, and leaves it where it lies.
    pub(crate) fn take_next(&mut self) -> Result<Option<Shape>, HttpFault>
        ensures { TakeAnswers (left_of self.old) result self.new }
    {
        let Some(shape) = self.settle()? else {
            return Ok(None);
        };
        self.start = shape.rest;
        self.body = shape.rest;
        self.done = shape.rest;
        self.raw = shape.rest;
        self.to_come = 0;
        self.next = Next::Head;
        Ok(Some(shape))
    }

    /// The request that lies so in the buffer.
    pub(crate) fn request(&self, shape: Shape) -> Request<'_>
        requires { IsShape self.now shape }
        ensures { said_by result ≡ message_at self.now shape }
    {
        let text = part_of(&self.bytes, shape.start, shape.body);
        Request {
            method: shape.head.method.of(text),
            target: shape.head.path.of(text),
            version: version_of(shape.head.version),
            text,
            lines: &self.spans[..shape.head.headers],
            body: part_of(&self.bytes, shape.body, shape.end),
        }
    }

    fn compact_head(&mut self)
        requires { self.old.next ≡ Next.Head }
        ensures left { left_of self.new ≡ left_by Next.Head self.old }
        ensures held { length self.new.bytes.items ≡ held (left_by Next.Head self.old) }
        ensures start { self.new.start ≡ 0 }
        ensures next { self.new.next ≡ self.old.next }
    {
        cut(&mut self.bytes, 0, self.start);
        self.start = 0;
        self.body = 0;
        self.done = 0;
        self.raw = 0;
        self.to_come = 0;
    }

    fn compact_body(&mut self)
        requires { self.old.next ≢ Next.Head }
        ensures left { left_of self.new ≡ left_of self.old }
        ensures held { length self.new.bytes.items ≡ held (left_of self.old) }
        ensures start { self.new.start ≡ 0 }
        ensures gap { self.new.raw ≡ self.new.done }
    {
        cut(&mut self.bytes, self.done, self.raw);
        cut(&mut self.bytes, 0, self.start);
        self.body -= self.start;
        self.done -= self.start;
        self.raw = self.done;
        self.start = 0;
    }

    /// Drops what was read, so that what is left begins the buffer.
    pub(crate) fn compact(&mut self)
        ensures left { left_of self.new ≡ left_of self.old }
        ensures held { length self.new.bytes.items ≡ held (left_of self.old) }
        ensures start { self.new.start ≡ 0 }
        ensures gap { self.new.next ≢ Next.Head → self.new.raw ≡ self.new.done }
    {
        match self.next {
            Next::Head => self.compact_head(),
            Next::Body | Next::Line | Next::Data | Next::Trailers => self.compact_body(),
        }
    }

    // Puts a piece behind what is left.
    fn push(&mut self, piece: &[u8])
        requires { length self.old.bytes.items + length piece.now ≤ max_buffer }
        ensures { left_of self.new ≡ and_more (left_of self.old) piece.now }
    {
        append(&mut self.bytes, piece);
    }

    /// Puts as much of a piece behind what is left as there is room for, and says how much.
    pub(crate) fn put(&mut self, piece: &[u8]) -> usize
        ensures room { result ≡ min (length piece.now) (max_buffer - held (left_of self.old)) }
        ensures taken { left_of self.new ≡ and_more (left_of self.old) (take result piece.now) }
    {
        self.compact();
        let room = MAX_BUFFER.saturating_sub(self.bytes.len());
        let n = piece.len().min(room);
        if n > 0 {
            self.push(&piece[..n]);
        }
        n
    }

    /// Reads on as far as it goes, and says whether a whole request stands there.
    pub(crate) fn read_on(&mut self) -> Result<bool, HttpFault>
        ensures { ReadsOn (left_of self.old) result (left_of self.new) }
    {
        match self.settle() {
            Ok(Some(_)) => Ok(true),
            Ok(None) => Ok(false),
            Err(fault) => Err(fault),
        }
    }
}
