// A door whose connections tell their calls in a log.
ghost use Rattle.std.specs.Prelude.{◌≡◌, None};

use crate::{CallLog, Conn, Door, DoorFault, Given, ReadFault, WriteFault};
use std::alloc::Global;
use std::io::Eprint;
use std::rt::Clock;

/// A door over another, whose connections tell their calls in a log, where that is on. It tells of no
/// connection.
#[derive(Drop)]
pub struct Logging<D: Door + Drop, R: Eprint + Clock + Copy + Drop> {
    door: D,
    alloc: Global,
    rt: R,
    is_on: bool,
}

impl<D: Door + Drop, R: Eprint + Clock + Copy + Drop> Logging<D, R>
where
    D::Conn: Drop,
{
    /// This door, with a log that is on or not.
    pub fn new(door: D, alloc: Global, rt: R, is_on: bool) -> Self
        ensures ended { ⟦<Logging<D, R> as Door>⟧.ended result ≡ D.ended door }
        ensures out { ⟦<Logging<D, R> as Door>⟧.out result ≡ D.out door }
        ensures count { ⟦<Logging<D, R> as Door>⟧.count result ≡ D.count door }
    {
        Logging {
            door,
            alloc,
            rt,
            is_on,
        }
    }
}

impl<D: Door + Drop, R: Eprint + Clock + Copy + Drop> Door for Logging<D, R>
where
    D::Conn: Drop,
{
    type Conn = Logged<D::Conn, R>;

    ghost ended = { λ d. D.ended d.door };

    ghost left = { λ _. None };

    ghost taken = { λ _. None };

    ghost out = { λ d. D.out d.door };

    ghost count = { λ d. D.count d.door };

    fn accept(&mut self) -> Result<Given<Logged<D::Conn, R>>, DoorFault> {
        match self.door.accept() {
            Ok(Given::One(conn)) => {
                let log = CallLog::new(self.alloc, self.rt, self.is_on);
                Ok(Given::One(Logged { conn, log }))
            }
            Ok(Given::NoneYet) => Ok(Given::NoneYet),
            Ok(Given::End) => Ok(Given::End),
            Err(fault) => Err(fault),
        }
    }

    fn done(&mut self, conn: Logged<D::Conn, R>) {
        let Logged { conn, log } = conn;
        drop(log);
        self.door.done(conn);
    }
}

/// A connection over another, which tells its calls in a log.
#[derive(Drop)]
pub struct Logged<N: Conn + Drop, R: Eprint + Clock + Drop> {
    conn: N,
    log: CallLog<R>,
}

impl<N: Conn + Drop, R: Eprint + Clock + Drop> Conn for Logged<N, R> {
    ghost left = { λ l. N.left l.conn };

    ghost given = { λ l. N.given l.conn };

    ghost reads = { λ l. N.reads l.conn };

    ghost writes = { λ l. N.writes l.conn };

    fn read(&mut self, into: &mut [u8]) -> Result<Option<usize>, ReadFault> {
        self.conn.read(into)
    }

    fn write(&mut self, bytes: &[u8]) -> Result<Option<usize>, WriteFault> {
        self.conn.write(bytes)
    }

    fn asked(&mut self, method: &[u8], path: &[u8]) {
        self.log.asked(method, path);
        self.conn.asked(method, path);
    }

    fn answered(&mut self, response: &[u8]) {
        self.log.answered(response);
        self.conn.answered(response);
    }
}
