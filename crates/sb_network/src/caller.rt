// A connection that never waits.
ghost use Rattle.std.specs.Prelude.{◌≡◌, None, IfSome};

use crate::hall::Hall;
use crate::seat::Seat;
use mio::net::TcpStream;
use sb_outside::{Conn, ReadFault, WriteFault};
use std::io;
use std::io::{ErrorKind, Read, Write};
use std::sync::Arc;

/// A connection of a place. It tells no content. Each error of the system is a counted fault, and so is
/// a write that takes nothing, and one that has found for 60 seconds that the other side takes nothing. The
/// system is asked for bytes only where something has come since a read took all that was there, but each
/// time while a request is being answered: such a read tells whether the caller of a receive has gone. Where it
/// rests between two requests for five seconds, all places are taken, and somebody waits for one, its end is told
/// as though its caller had ended it.
#[derive(Drop)]
pub struct Caller<R: std::rt::Clock + Drop> {
    stream: TcpStream,
    hall: Arc<Hall<R>>,
    place: usize,
    // A request is being answered.
    asked: bool,
    // Its end was told, as its place is wanted.
    ended: bool,
    read_faults: u64,
    write_faults: u64,
}

impl<R: std::rt::Clock + Drop> Caller<R> {
    /// A connection over this stream, at this place of a hall.
    pub(crate) fn new(stream: TcpStream, hall: Arc<Hall<R>>, place: usize) -> Self
        ensures reads { ⟦<Caller<R> as Conn>⟧.reads result ≡ 0 }
        ensures writes { ⟦<Caller<R> as Conn>⟧.writes result ≡ 0 }
    {
        let caller = Caller {
            stream,
            hall,
            place,
            asked: false,
            ended: false,
            read_faults: 0,
            write_faults: 0,
        };
        if let Some(seat) = caller.seat() {
            seat.begin();
        }
        caller
    }

    // What it shares with the hall.
    fn seat(&self) -> Option<&Seat> {
        self.hall.seat(self.place)
    }

    // Whether a read may find something, or is made anyway.
    fn may_read(&self) -> bool {
        if self.asked {
            return true;
        }
        match self.seat() {
            Some(seat) => seat.may_read(),
            None => true,
        }
    }

    // A read took so many bytes. Where there was room for more, nothing is left, unless the other side has
    // ended, which the next read tells.
    fn took(&self, count: usize, room: usize) {
        if let Some(seat) = self.seat() {
            seat.works();
        }
        if count > 0 && count < room {
            self.is_read_out(true);
        }
    }

    // Nothing is left to be read before something comes.
    fn is_read_out(&self, found: bool) {
        if let Some(seat) = self.seat() {
            seat.is_read_out(found);
        }
    }

    // There was nothing to be read: its end is told from now on, where its place is wanted. How many bytes
    // the read took, if any.
    fn nothing_read(&mut self) -> Option<usize>
        ensures reads { self.new.read_faults ≡ self.old.read_faults }
        ensures writes { self.new.write_faults ≡ self.old.write_faults }
        ensures none { IfSome result (λ n. n ≡ 0) }
    {
        self.is_read_out(false);
        let wanted = match self.seat() {
            Some(seat) => seat.is_wanted(),
            None => false,
        };
        if wanted {
            self.ended = true;
            return Some(0);
        }
        None
    }

    // A write took something. A response was written as far as it goes: it rests, unless a request is being
    // answered.
    fn flows(&self) {
        if let Some(seat) = self.seat() {
            seat.flows();
            if !self.asked {
                seat.rests();
            }
        }
    }

    // A write could take nothing yet. Whether it has waited for too long.
    fn stalls(&self) -> bool {
        match self.seat() {
            Some(seat) => seat.stalls(),
            None => false,
        }
    }
}

// Whether this error says that there is nothing yet.
fn waits(error: &io::Error) -> bool {
    error.kind() == ErrorKind::WouldBlock
}

impl<R: std::rt::Clock + Drop> Conn for Caller<R> {
    ghost left = { λ _. None };

    ghost given = { λ _. None };

    ghost reads = { λ c. c.read_faults };

    ghost writes = { λ c. c.write_faults };

    fn read(&mut self, into: &mut [u8]) -> Result<Option<usize>, ReadFault> {
        if self.ended {
            return Ok(Some(0));
        }
        if !self.may_read() {
            return Ok(None);
        }
        let room = into.len();
        match self.stream.read(into) {
            Ok(count) => {
                self.took(count, room);
                Ok(Some(count))
            }
            Err(error) if waits(&error) => Ok(self.nothing_read()),
            Err(_) => {
                self.read_faults = self.read_faults.saturating_add(1);
                Err(ReadFault)
            }
        }
    }

    fn write(&mut self, bytes: &[u8]) -> Result<Option<usize>, WriteFault> {
        match self.stream.write(bytes) {
            Ok(count) if count > 0 || bytes.is_empty() => {
                self.flows();
                Ok(Some(count))
            }
            Err(error) if waits(&error) && !self.stalls() => Ok(None),
            _ => {
                self.write_faults = self.write_faults.saturating_add(1);
                Err(WriteFault)
            }
        }
    }

    fn asked(&mut self, _method: &[u8], _path: &[u8]) {
        self.asked = true;
        if let Some(seat) = self.seat() {
            seat.works();
        }
    }

    fn answered(&mut self, _response: &[u8]) {
        self.asked = false;
    }
}
