// What comes in: pieces of bytes, and requests out of them.
ghost use Rattle.std.specs.Prelude.{◌≡◌, ◌≤◌, ◌<◌, ◌-◌, [], Option, List, ℕ, length, slice_range, IfOk, OnOk, true};

use crate::came::{Came, Filled, Took, has_ended, take_one};
use crate::ending::Ending;
use crate::reader::Reader;
use sb_outside::Conn;
use sb_rest::Access;
use sb_routes::Routes;
use std::alloc::{AllocError, Global};
use std::sync::Wait;

// How many bytes one read takes at most.
const MAX_PIECE: usize = 4096;

// How many bytes of a connection are taken: once so many came, no more are.
const MAX_TAKEN: u64 = 1 << 32;

/// What came of a connection and isn't answered yet: a reader of requests, and a piece of which
/// `at..end` wasn't fed to it. The piece is taken as it is made; the reader's memory once something
/// has come, and it may be given back where nothing is left in it.
#[derive(Drop)]
pub(crate) struct Inbox {
    pub(crate) incoming: Reader,
    piece: Vec<u8>,
    at: usize,
    end: usize,
    // How many bytes were read.
    taken: u64,
    ghost ordered: { at ≤ end },
    ghost within: { end ≤ length piece.items },
    ghost room: { length piece.items ≡ 4096 },
    ghost counted: { end - at ≤ taken },
}

// What stands between two places.
fn part_of(buf: &Vec<u8>, from: usize, to: usize) -> &[u8]
    requires ordered { from ≤ to }
    requires within { to ≤ length buf.now.items }
    ensures { result.now ≡ slice_range buf.now.items from to }
{
    &buf[from..to]
}

impl Inbox {
    ghost use Rattle.sb_http.specs.Streams.{Requests};
    ghost use Rattle.sb_server.specs.Readers.{HasAnswer};
    ghost use Rattle.sb_server.specs.Reads.{Takes, Fills, EndsWith, IfNone, IfOver, Comes, IsGone, stand_of};

    /// Nothing has come yet.
    pub(crate) fn new(alloc: Global) -> Result<Inbox, AllocError>
        ensures requests { IfOk result (λ i. Requests [] [] i.incoming.left) }
        ensures stand { IfOk result (λ i. (left : Option (List ℕ)) → stand_of i left ≡ record { left = i.incoming.left; fed = 0; unfed = []; there = left }) }
    {
        Ok(Inbox {
            incoming: Reader::new(),
            piece: vec![in alloc; 0; MAX_PIECE]?,
            at: 0,
            end: 0,
            taken: 0,
        })
    }

    /// The next request, none yet, or how the connection ends. Where there is no memory for what has
    /// come, it may be asked for again.
    pub(crate) fn next<N: Conn, R: Wait>(
        &mut self,
        rt: &R,
        alloc: Global,
        routes: &Routes,
        access: &Access,
        conn: &mut N,
    ) -> Came
        ensures comes { Comes access.now (stand_of self.old (N.left conn.old)) result (stand_of self.new (N.left conn.new)) (N.reads conn.old) (N.reads conn.new) }
        ensures given { N.given conn.new ≡ N.given conn.old }
        ensures later { N.reads conn.old ≤ N.reads conn.new }
        ensures writes { N.writes conn.new ≡ N.writes conn.old }
    {
        for _ in rt.forever() {
            match take_one(alloc, routes, access, conn, &mut self.incoming) {
                Took::One(ask, closes) => return Came::Asked(ask, closes),
                Took::Fault(fault) => return Came::Refused(fault),
                Took::NoneYet => {}
            }
            if self.at < self.end {
                let Ok(()) = self.feed_piece(alloc) else {
                    return Came::NoMemory;
                };
                continue;
            }
            match self.fill(conn) {
                Filled::Full => {}
                Filled::NotYet => return Came::NothingYet,
                Filled::Over(ending) => return Came::Over(ending),
            }
        }
        unreachable!()
    }

    // Feeds the reader some of the piece, if there is memory for it.
    fn feed_piece(&mut self, alloc: Global) -> Result<(), AllocError>
        ensures takes { (left : Option (List ℕ)) → Takes (stand_of self.old left) [] (stand_of self.new left) }
        ensures full { OnOk result (self.old.at < self.old.end → self.new.at ≡ self.old.at → HasAnswer self.new.incoming.left) }
    {
        let piece = part_of(&self.piece, self.at, self.end);
        let count = self.incoming.feed(alloc, piece)?;
        self.at += count;
        Ok(())
    }

    /// Whether the reader has memory.
    pub(crate) fn has_reader(&self) -> bool {
        self.incoming.has_memory()
    }

    /// Gives the reader's memory back, where nothing is left in it.
    pub(crate) fn give_back(&mut self)
        ensures { (left : Option (List ℕ)) → stand_of self.new left ≡ stand_of self.old left }
    {
        self.incoming.give_back();
    }

    /// Reads on while a call waits: whether the other side has ended, or a read has failed. What comes
    /// is kept, as far as there is room and memory.
    pub(crate) fn watch<N: Conn>(&mut self, alloc: Global, conn: &mut N) -> bool
        ensures takes { Takes (stand_of self.old (N.left conn.old)) [] (stand_of self.new (N.left conn.new)) }
        ensures gone { result ≡ true → IsGone (stand_of self.old (N.left conn.old)).there (stand_of self.new (N.left conn.new)) (N.reads conn.old) (N.reads conn.new) }
        ensures given { N.given conn.new ≡ N.given conn.old }
        ensures later { N.reads conn.old ≤ N.reads conn.new }
        ensures writes { N.writes conn.new ≡ N.writes conn.old }
    {
        if self.at < self.end {
            let _ = self.feed_piece(alloc);
            return false;
        }
        let filled = self.fill(conn);
        has_ended(filled)
    }

    // Reads another piece, or says how the connection ends.
    fn fill<N: Conn>(&mut self, conn: &mut N) -> Filled
        requires { self.old.at ≡ self.old.end }
        ensures fills { Fills (stand_of self.old (N.left conn.old)) (stand_of self.new (N.left conn.new)) }
        ensures none { IfNone result ((stand_of self.new (N.left conn.new)).unfed ≡ []) }
        ensures ends { IfOver result (λ ending. EndsWith ending (stand_of self.old (N.left conn.old)).there (stand_of self.new (N.left conn.new)) (N.reads conn.old) (N.reads conn.new)) }
        ensures given { N.given conn.new ≡ N.given conn.old }
        ensures later { N.reads conn.old ≤ N.reads conn.new }
        ensures writes { N.writes conn.new ≡ N.writes conn.old }
    {
        if self.taken >= MAX_TAKEN {
            return Filled::Over(Ending::LongConnection);
        }
        let Ok(read) = conn.read(self.piece.as_mut_slice()) else {
            return Filled::Over(Ending::ReadFault);
        };
        let Some(count) = read else {
            return Filled::NotYet;
        };
        self.at = 0;
        self.end = count;
        self.taken += count as u64;
        if count > 0 {
            return Filled::Full;
        }
        if self.incoming.left() > 0 {
            return Filled::Over(Ending::Truncated);
        }
        Filled::Over(Ending::Closed)
    }
}
