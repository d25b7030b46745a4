// The real network: a link that dials a server, and a door over a listener. They tell no content, and
// what std's calls do is trusted.
ghost use Rattle.std.specs.Prelude.{◌≡◌, ◌≤◌, None, false};
ghost use Rattle.sb_outside.specs.Causes.{RoseByOne};

use crate::adapters::read_some;
use crate::telling::{AFTER_DOOR, AFTER_LINK, tell};
use crate::{Connected, Door, DoorFault, Given, Link, LinkFault};
use std::io;
use std::io::{Eprint, ErrorKind, Read, Write};
use std::net::{Ipv4Addr, Net, OpenListener, OpenStream, TcpStream};
use std::time::Duration;

// A reply of so many bytes is a fault.
const LONGEST_REPLY: usize = 1 << 40;

// How much of a reply is read at once.
const PIECE: usize = 16_384;

// A connection whose other side gives nothing, or takes nothing, for so many seconds fails.
const LONGEST_SILENCE: u64 = 60;

/// A link to a server at a port of this machine (127.0.0.1). Each exchange has a connection of its own,
/// whose reply ends where the server ends it. Each error of the system is a counted fault, and told on
/// standard error, and so is a reply of 2^40 bytes, and a server that says nothing for so many seconds as
/// the patience is.
#[derive(Drop)]
pub struct Dialing<R: Net + Eprint + Drop> {
    net: R,
    port: u16,
    patience: u16,
    code: [u8; 3],
    faults: u64,
}

// Why an exchange failed.
enum Failed {
    Fault(io::Error),
    NoMemory,
}

impl<R: Net + Eprint + Drop> Dialing<R> {
    /// A link to the server at this port, which may say nothing for so many seconds.
    pub fn new(net: R, port: u16, patience: u16) -> Self
        ensures { ⟦<Dialing<R> as Link>⟧.count result ≡ 0 }
    {
        Dialing {
            net,
            port,
            patience,
            code: [b' '; 3],
            faults: 0,
        }
    }

    /// Whether the status of the last response was 401 or 403: the server doesn't let this caller in.
    pub fn is_kept_out(&self) -> bool {
        self.code == *b"401" || self.code == *b"403"
    }

    // Counts a fault, and tells it.
    fn fault(&mut self, error: io::Error)
        ensures fault { RoseByOne self.old.faults self.new.faults }
        ensures later { self.old.faults ≤ self.new.faults }
    {
        let (port, advice) = (self.port, AFTER_LINK);
        let _ = eprintln!(self.net; "bus: 127.0.0.1:{port}: {error}; {advice}");
        self.faults = self.faults.saturating_add(1);
    }
}

impl<R: Net + Eprint + Drop> Link for Dialing<R> {
    ghost told = { λ _. None };

    ghost count = { λ l. l.faults };

    fn exchange(&mut self, request: &[u8], reply: &mut Vec<u8>) -> Result<(), LinkFault> {
        match ask(&self.net, self.port, self.patience, request, reply) {
            Ok(()) => {
                self.code = code_of(reply);
                Ok(())
            }
            Err(Failed::NoMemory) => Err(LinkFault::OutOfMemory),
            Err(Failed::Fault(error)) => {
                self.fault(error);
                Err(LinkFault::Fault)
            }
        }
    }
}

// Sends the request over a connection of its own, and takes the reply.
fn ask<R: Net>(
    net: &R,
    port: u16,
    patience: u16,
    request: &[u8],
    reply: &mut Vec<u8>,
) -> Result<(), Failed> {
    match dial(net, port, patience, request) {
        Ok(mut stream) => take_reply(&mut stream, reply),
        Err(error) => Err(Failed::Fault(error)),
    }
}

// Connects and sends the request, to a server that may say nothing for so many seconds.
fn dial<R: Net>(net: &R, port: u16, patience: u16, request: &[u8]) -> io::Result<R::Stream> {
    let mut stream = TcpStream::connect(net, (Ipv4Addr::LOCALHOST, port))?;
    stream.set_read_timeout(Some(Duration::from_secs(u64::from(patience))))?;
    stream.write_all(request)?;
    Ok(stream)
}

// Reads a reply to its end.
fn take_reply<S: Read>(stream: &mut S, reply: &mut Vec<u8>) -> Result<(), Failed> {
    reply.clear();
    let mut piece = [0u8; PIECE];
    for _ in 0..u64::MAX {
        let count = match read_some(stream, &mut piece) {
            Ok(count) => count,
            Err(error) => return Err(Failed::Fault(silence_of(error))),
        };
        if count == 0 {
            return Ok(());
        }
        if reply.len() >= LONGEST_REPLY {
            return Err(Failed::Fault(io::Error::from(ErrorKind::FileTooLarge)));
        }
        let Ok(()) = reply.extend_from_slice(&piece[..count]) else {
            return Err(Failed::NoMemory);
        };
    }
    Err(Failed::Fault(io::Error::from(ErrorKind::Interrupted)))
}

// The error of a read; one that waited in vain is told as such.
fn silence_of(error: io::Error) -> io::Error {
    match error.kind() {
        ErrorKind::WouldBlock | ErrorKind::TimedOut => {
            io::Error::new(ErrorKind::TimedOut, "the server said nothing in time")
        }
        _ => error,
    }
}

// The three bytes of a response that are its status code; spaces where it has none.
pub(crate) fn code_of(reply: &[u8]) -> [u8; 3] {
    match reply {
        [b'H', b'T', b'T', b'P', b'/', _, _, _, b' ', a, b, c, ..] => [*a, *b, *c],
        _ => [b' '; 3],
    }
}

/// A door over a listener, which never ends. Each error of the system is a counted fault, and told on
/// standard error. Of its connections, a read or a write that waited for the other side for 60 seconds is
/// a fault, so that a silent caller keeps no worker.
#[derive(Drop)]
pub struct Listening<L: OpenListener + Drop, E: Eprint + Drop> {
    listener: L,
    stderr: E,
    out: u64,
    faults: u64,
}

// The next connection; a call that a signal interrupted is made again, and so is one whose caller has
// gone meanwhile.
fn next_stream<L: OpenListener>(listener: &L) -> io::Result<L::Stream> {
    for _ in 0..u64::MAX {
        match listener.accept() {
            Ok((stream, _)) => return Ok(stream),
            Err(error)
                if error.kind() == ErrorKind::Interrupted
                    || error.kind() == ErrorKind::ConnectionAborted => {}
            Err(error) => return Err(error),
        }
    }
    Err(io::Error::from(ErrorKind::Interrupted))
}

// Sets what the connections of a door have: a response waits for no more bytes to go with it, and
// nobody waits for a silent caller. Where the system can't, the connection is served without.
fn prepare<S: OpenStream>(stream: &S) {
    let silence = Some(Duration::from_secs(LONGEST_SILENCE));
    let _ = stream.set_nodelay(true);
    let _ = stream.set_read_timeout(silence);
    let _ = stream.set_write_timeout(silence);
}

impl<L: OpenListener + Drop, E: Eprint + Drop> Listening<L, E>
where
    L::Stream: Read + Write + OpenStream + Drop,
{
    /// A door over this listener.
    pub fn new(listener: L, stderr: E) -> Self
        ensures { ⟦<Listening<L, E> as Door>⟧.count result ≡ 0 }
    {
        Listening {
            listener,
            stderr,
            out: 0,
            faults: 0,
        }
    }

    // Counts a fault, and tells it.
    fn fault(&mut self, error: io::Error) -> DoorFault
        ensures fault { RoseByOne self.old.faults self.new.faults }
        ensures later { self.old.faults ≤ self.new.faults }
        ensures out { self.new.out ≡ self.old.out }
    {
        tell(
            &self.stderr,
            "a connection can't be taken",
            error,
            AFTER_DOOR,
        );
        self.faults = self.faults.saturating_add(1);
        DoorFault
    }
}

impl<L: OpenListener + Drop, E: Eprint + Drop> Door for Listening<L, E>
where
    L::Stream: Read + Write + OpenStream + Drop,
{
    type Conn = Connected<L::Stream>;

    ghost ended = { λ _. false };

    ghost left = { λ _. None };

    ghost taken = { λ _. None };

    ghost out = { λ d. d.out };

    ghost count = { λ d. d.faults };

    fn accept(&mut self) -> Result<Given<Connected<L::Stream>>, DoorFault> {
        match next_stream(&self.listener) {
            Ok(stream) if self.out < u64::MAX => {
                prepare(&stream);
                self.out += 1;
                Ok(Given::One(Connected::new(stream)))
            }
            Ok(_) => Err(self.fault(io::Error::from(ErrorKind::QuotaExceeded))),
            Err(error) => Err(self.fault(error)),
        }
    }

    fn done(&mut self, _conn: Connected<L::Stream>) {
        self.out -= 1;
    }
}
