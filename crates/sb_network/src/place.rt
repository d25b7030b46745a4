// A door of a hall.
ghost use Rattle.std.specs.Prelude.{◌≡◌, ◌≤◌, None, false};
ghost use Rattle.sb_outside.specs.Causes.{RoseByOne};

use crate::Caller;
use crate::entrance::{Entrance, has_no_room};
use crate::hall::Hall;
use mio::net::TcpStream;
use mio::{Interest, Token};
use sb_outside::{Door, DoorFault, Given};
use std::io;
use std::io::{Eprint, ErrorKind};
use std::sync::Arc;

/// One place of a hall: a door over the listener of all, which never ends. Where nobody calls, where
/// several have just been let in, and where the system has no room for a connection, it gives none yet; the
/// last is told once on standard error.
/// Any other error of the system is a counted fault, and told.
#[derive(Drop)]
pub struct Place<R: Eprint + std::rt::Clock + Drop> {
    entrance: Arc<Entrance<R>>,
    hall: Arc<Hall<R>>,
    place: usize,
    out: u64,
    faults: u64,
}

impl<R: Eprint + std::rt::Clock + Drop> Place<R> {
    /// The door of this place of a hall.
    pub(crate) fn new(entrance: Arc<Entrance<R>>, hall: Arc<Hall<R>>, place: usize) -> Self
        ensures { ⟦<Place<R> as Door>⟧.count result ≡ 0 }
    {
        Place {
            entrance,
            hall,
            place,
            out: 0,
            faults: 0,
        }
    }

    // Counts a fault, and tells it.
    fn fault(&mut self, error: io::Error) -> DoorFault
        ensures fault { RoseByOne self.old.faults self.new.faults }
        ensures later { self.old.faults ≤ self.new.faults }
        ensures out { self.new.out ≡ self.old.out }
    {
        self.entrance.tell_none(error);
        self.hall.fails(self.place);
        self.faults = self.faults.saturating_add(1);
        DoorFault
    }

    // The connection over this stream, which is watched from now on. Its responses wait for no more bytes
    // to go with them, if the system can do so.
    fn seated(&self, stream: TcpStream) -> io::Result<Caller<R>> {
        let mut stream = stream;
        let hall = self.hall.clone()?;
        let _ = stream.set_nodelay(true);
        let token = Token(self.place.saturating_add(1));
        let both = Interest::READABLE | Interest::WRITABLE;
        hall.registry().register(&mut stream, token, both)?;
        Ok(Caller::new(stream, hall, self.place))
    }

    // The next connection.
    fn next(&self) -> io::Result<Caller<R>> {
        let stream = self.entrance.next()?;
        self.seated(stream)
    }
}

impl<R: Eprint + std::rt::Clock + Drop> Door for Place<R> {
    type Conn = Caller<R>;

    ghost ended = { λ _. false };

    ghost left = { λ _. None };

    ghost taken = { λ _. None };

    ghost out = { λ d. d.out };

    ghost count = { λ d. d.faults };

    fn accept(&mut self) -> Result<Given<Caller<R>>, DoorFault> {
        if !self.hall.may_greet() {
            self.hall.waits_for_one(self.place);
            return Ok(Given::NoneYet);
        }
        match self.next() {
            Ok(caller) if self.out < u64::MAX => {
                self.hall.greeted(self.place);
                self.entrance.takes_place();
                self.out += 1;
                Ok(Given::One(caller))
            }
            Ok(_) => Err(self.fault(io::Error::from(ErrorKind::QuotaExceeded))),
            Err(error) if error.kind() == ErrorKind::WouldBlock => {
                self.hall.is_left();
                self.hall.waits_for_one(self.place);
                Ok(Given::NoneYet)
            }
            Err(error) if has_no_room(&error) => {
                self.hall.tries_again();
                self.entrance.tell_later(error);
                self.hall.waits_for_one(self.place);
                Ok(Given::NoneYet)
            }
            Err(error) => Err(self.fault(error)),
        }
    }

    fn done(&mut self, conn: Caller<R>) {
        drop(conn);
        self.entrance.leaves_place();
        self.out -= 1;
    }
}
