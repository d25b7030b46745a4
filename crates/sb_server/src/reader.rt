// The bytes that came of a connection and weren't taken yet.
use sb_http::Incoming;
use std::alloc::{AllocError, Global};
use std::marker::Model;

/// What came and wasn't taken yet. It has memory only while something came, or may come soon.
#[derive(Drop)]
pub(crate) struct Reader {
    pub(crate) incoming: Option<Incoming>,
}

impl Model for Reader {
    ghost use Rattle.sb_server.specs.Readers.{Untaken, left_of};

    ghost Value = { Untaken };

    ghost view = { λ r. record { left = left_of r.incoming } };
}

impl Reader {
    ghost use Rattle.std.specs.Prelude.{◌≡◌, ◌≤◌, ◌<◌, [], length, take, IfOk, OnErr};
    ghost use Rattle.sb_http.specs.Stages.{whole, held};
    ghost use Rattle.sb_http.specs.Streams.{Requests, FeedGoesOn};
    ghost use Rattle.sb_server.specs.Readers.{HasAnswer};

    /// Nothing has come yet, and there is no memory.
    pub(crate) fn new() -> Reader
        ensures left { result.left ≡ whole [] }
        ensures requests { Requests [] [] result.left }
    {
        Reader { incoming: None }
    }

    /// How many bytes are left.
    pub(crate) fn left(&self) -> usize
        ensures count { result ≡ held self.now.left }
        ensures none { result ≡ 0 → self.now.left ≡ whole [] }
    {
        match &self.incoming {
            Some(incoming) => incoming.left(),
            None => 0,
        }
    }

    /// Whether there is memory.
    pub(crate) fn has_memory(&self) -> bool {
        self.incoming.is_some()
    }

    /// Puts as much of a piece behind what is left as there is room for, and says how much; nothing of it only where
    /// a request or a fault is to be taken first. An error where it has no memory yet, and none is to be had.
    pub(crate) fn feed(&mut self, alloc: Global, piece: &[u8]) -> Result<usize, AllocError>
        ensures err { OnErr result (self.new ≡ self.old) }
        ensures within { IfOk result (λ n. n ≤ length piece.now) }
        ensures goes { IfOk result (λ n. FeedGoesOn self.old.left (take n piece.now) self.new.left) }
        ensures full { IfOk result (λ n. n ≡ 0 → 0 < length piece.now → HasAnswer self.new.left) }
    {
        if let Some(incoming) = &mut self.incoming {
            return Ok(incoming.feed(piece));
        }
        let mut incoming = Incoming::new(alloc)?;
        let count = incoming.feed(piece);
        self.incoming = Some(incoming);
        Ok(count)
    }

    /// Gives the memory back, where nothing is left.
    pub(crate) fn give_back(&mut self)
        ensures { self.new ≡ self.old }
    {
        if self.left() == 0 {
            self.incoming = None;
        }
    }
}
