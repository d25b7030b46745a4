// The requests of a stream that comes in pieces.
use crate::buffer::Buffer;
use crate::fault::HttpFault;
use crate::request::Request;
use std::alloc::{AllocError, Global};
use std::marker::Model;

/// A stream of requests: what is left of it, and the fault that was met there.
#[derive(Drop)]
pub struct Incoming {
    buffer: Buffer,
    refused: Option<HttpFault>,
}

impl Model for Incoming {
    ghost use Rattle.sb_http.specs.Causes.{IsCaused};
    ghost use Rattle.sb_http.specs.Streams.{Pending};
    ghost use Rattle.sb_http.specs.Buffers.{left_of};

    ghost Value = { Pending };

    ghost view = { λ i. record { left = left_of i.buffer; fault = i.refused } };

    ghost invariant = { λ i. IsCaused i.refused (left_of i.buffer) };
}

impl Incoming {
    ghost use Rattle.std.specs.Prelude.{◌≡◌, ◌≤◌, ◌<◌, ◌-◌, ◌≢◌, ⊤, [], length, take, min, IfOk, IfSome, Some, None};
    ghost use Rattle.std.specs.Borrow.{sem};
    ghost use mathlib.Core.Option.{none};
    ghost use denote.Follow.{follows_so};
    ghost use Rattle.sb_http.specs.Bodies.{max_buffer};
    ghost use Rattle.sb_http.specs.Stages.{Continues, whole, and_more, held};
    ghost use Rattle.sb_http.specs.Causes.{IsCaused};
    ghost use Rattle.sb_http.specs.Streams.{Requests, FeedGoesOn, AnswersAt, NextAnswers, IsReady};
    ghost use Rattle.sb_http.specs.Said.{reply_of};
    ghost use Rattle.sb_http.specs.contracts.incoming.Incoming.{the_row};

    /// A stream of which nothing has come. All memory is taken here.
    pub fn new(alloc: Global) -> Result<Incoming, AllocError>
        ensures left { IfOk result (λ incoming. incoming.left ≡ whole []) }
        ensures stream { IfOk result (λ incoming. Requests [] [] incoming.left) }
        ensures unrefused { IfOk result (λ incoming. incoming.fault ≡ None) }
    {
        Ok(Incoming {
            buffer: Buffer::new(alloc)?,
            refused: None,
        })
    }

    /// How many bytes are left: what was read of the request under way, its head and its body so far,
    /// and the bytes behind that. 0 is the end of a request.
    pub fn left(&self) -> usize
        ensures count { result ≡ held self.now.left }
        ensures none { result ≡ 0 → self.now.left ≡ whole [] }
    {
        self.buffer.left()
    }

    // The answer where no fault was met before.
    fn next_unrefused(&mut self) -> Result<Option<Request<'_>>, HttpFault>
        requires { self.old.fault ≡ None }
        ensures* answers { sem 𝓛 (follows_so the_row the_row self.entry.ghost_name none (λ _ _. ⊤)
            (λ n. AnswersAt None self.old.left (reply_of result) n)) }
    {
        match self.buffer.take_next() {
            Ok(Some(shape)) => Ok(Some(self.buffer.request(shape))),
            Ok(None) => Ok(None),
            Err(fault) => {
                self.refused = Some(fault);
                Err(fault)
            }
        }
    }

    /// Takes the next request, once it is whole; none where it isn't yet. Takes no memory. After a
    /// fault each call answers it again.
    pub fn next_request(&mut self) -> Result<Option<Request<'_>>, HttpFault>
        ensures* answers { sem 𝓛 (follows_so the_row the_row self.entry.ghost_name none (λ _ _. ⊤)
            (λ n. NextAnswers self.old (reply_of result) n)) }
    {
        match self.refused {
            Some(fault) => Err(fault),
            None => self.next_unrefused(),
        }
    }

    // Puts a piece behind a buffer that may have no room before more of it is read.
    fn put_in_full(&mut self, piece: &[u8]) -> usize
        requires { self.old.fault ≡ None }
        ensures within { result ≤ length piece.now }
        ensures taken { Continues (and_more self.old.left (take result piece.now)) self.new.left }
        ensures full { result ≡ 0 → 0 < length piece.now → IsReady self.new }
        ensures caused { IsCaused self.new.fault self.new.left }
    {
        match self.buffer.read_on() {
            Ok(true) => 0,
            Ok(false) => self.buffer.put(piece),
            Err(fault) => {
                self.refused = Some(fault);
                0
            }
        }
    }

    // The same, where there may be room.
    fn put_unrefused(&mut self, piece: &[u8]) -> usize
        requires { self.old.fault ≡ None }
        ensures room { held self.old.left < max_buffer → result ≡ min (length piece.now) (max_buffer - held self.old.left) }
        ensures within { result ≤ length piece.now }
        ensures taken { Continues (and_more self.old.left (take result piece.now)) self.new.left }
        ensures full { result ≡ 0 → 0 < length piece.now → IsReady self.new }
        ensures caused { IsCaused self.new.fault self.new.left }
    {
        let taken = self.buffer.put(piece);
        if taken > 0 {
            return taken;
        }
        if piece.is_empty() {
            return 0;
        }
        self.put_in_full(piece)
    }

    // The same, whether a fault was met or not.
    fn put(&mut self, piece: &[u8]) -> usize
        ensures room { held self.old.left < max_buffer → result ≡ min (length piece.now) (max_buffer - held self.old.left) }
        ensures within { result ≤ length piece.now }
        ensures taken { Continues (and_more self.old.left (take result piece.now)) self.new.left }
        ensures full { result ≡ 0 → 0 < length piece.now → IsReady self.new }
        ensures kept { IfSome self.old.fault (λ fault. self.new.fault ≡ Some fault) }
        ensures caused { IsCaused self.new.fault self.new.left }
    {
        match self.refused {
            Some(_) => self.buffer.put(piece),
            None => self.put_unrefused(piece),
        }
    }

    /// Puts as much of a piece of the stream behind what is left as there is room for, and says how
    /// much. Takes no memory. Nothing is taken of a piece only where the next call of `next_request`
    /// answers a request or a fault.
    pub fn feed(&mut self, piece: &[u8]) -> usize
        ensures room { held self.old.left < max_buffer → result ≡ min (length piece.now) (max_buffer - held self.old.left) }
        ensures within { result ≤ length piece.now }
        ensures taken { Continues (and_more self.old.left (take result piece.now)) self.new.left }
        ensures stream { FeedGoesOn self.old.left (take result piece.now) self.new.left }
        ensures full { result ≡ 0 → 0 < length piece.now → IsReady self.new }
        ensures kept { IfSome self.old.fault (λ fault. self.new.fault ≡ Some fault) }
        ensures caused { IsCaused self.new.fault self.new.left }
    {
        self.put(piece)
    }
}
