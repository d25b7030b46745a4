// What comes of a connection, by requests.
ghost use Rattle.std.specs.Prelude.{◌≡◌};
ghost use Rattle.sb_server.specs.Reads.{TookOf};
ghost use Rattle.sb_server.specs.Reads as reads;

use crate::ask::{Ask, ask_of};
use crate::ending::Ending;
use crate::head::closes;
use crate::reader::Reader;
use sb_http::{HttpFault, Incoming};
use sb_outside::Conn;
use sb_rest::Access;
use sb_routes::Routes;
use std::alloc::Global;

/// What was taken of the bytes that came: what a request asks for and whether the connection ends
/// with its response, or no request yet, or why there is none.
#[derive(Drop)]
pub(crate) enum Took {
    One(Ask, bool),
    NoneYet,
    Fault(HttpFault),
}

/// What came of a connection: the same, or how it ended, or that there was no memory for what has come.
#[derive(Drop)]
pub(crate) enum Came {
    Asked(Ask, bool),
    NothingYet,
    Refused(HttpFault),
    Over(Ending),
    NoMemory,
}

/// What came of one read: bytes or nothing new, nothing yet, or how the connection ended.
#[derive(Clone, Copy)]
pub(crate) enum Filled {
    Full,
    NotYet,
    Over(Ending),
}

/// Whether the other side has ended, or a read has failed.
pub(crate) fn has_ended(filled: Filled) -> bool
    ensures { result ≡ reads.has_ended filled }
{
    match filled {
        Filled::Over(Ending::Closed) => true,
        Filled::Over(Ending::Truncated) => true,
        Filled::Over(Ending::ReadFault) => true,
        Filled::Over(_) | Filled::Full | Filled::NotYet => false,
    }
}

/// Takes the next request, where it is whole, of which its connection hears.
pub(crate) fn take_one<N: Conn>(
    alloc: Global,
    routes: &Routes,
    access: &Access,
    conn: &mut N,
    reader: &mut Reader,
) -> Took
    ensures took { TookOf access.now reader.old.left result reader.new.left }
    ensures left { N.left conn.new ≡ N.left conn.old }
    ensures given { N.given conn.new ≡ N.given conn.old }
    ensures reads { N.reads conn.new ≡ N.reads conn.old }
    ensures writes { N.writes conn.new ≡ N.writes conn.old }
{
    let Some(incoming) = &mut reader.incoming else {
        return Took::NoneYet;
    };
    take_from(alloc, routes, access, conn, incoming)
}

// Takes the next request of what came, where it is whole.
fn take_from<N: Conn>(
    alloc: Global,
    routes: &Routes,
    access: &Access,
    conn: &mut N,
    incoming: &mut Incoming,
) -> Took
    ensures took { TookOf access.now incoming.old.left result incoming.new.left }
    ensures left { N.left conn.new ≡ N.left conn.old }
    ensures given { N.given conn.new ≡ N.given conn.old }
    ensures reads { N.reads conn.new ≡ N.reads conn.old }
    ensures writes { N.writes conn.new ≡ N.writes conn.old }
{
    match incoming.next_request() {
        Ok(Some(request)) => {
            conn.asked(request.method, request.target);
            let ask = ask_of(alloc, routes, access, &request);
            let closes = closes(&request);
            Took::One(ask, closes)
        }
        Ok(None) => Took::NoneYet,
        Err(fault) => Took::Fault(fault),
    }
}
