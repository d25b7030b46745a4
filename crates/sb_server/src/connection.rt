// A connection, request by request.
ghost use Rattle.std.specs.Prelude.{◌≡◌};
ghost use Rattle.sb_desk.specs.Desks.{IsOf};
ghost use Rattle.sb_server.specs.Works.{ConnectionServed};

use crate::doing::{Doing, Went};
use crate::ending::Ending;
use crate::inbox::Inbox;
use crate::limits::{Limits, Since, look};
use crate::step::step_through;
use sb_desk::{Desk, Pass, Served};
use sb_outside::{Clock, Conn};
use sb_rest::Access;
use sb_routes::Routes;
use std::alloc::Global;
use std::sync::Wait;

/// Takes the requests of a connection, one after the other, makes their calls at this pass, and writes
/// their responses, until it ends, or the other side was slower than the limits. Where nothing can be read
/// or written yet, where a call waits, and where there is no memory for what has come, it goes on behind a
/// pause of the clock. It holds one piece of 4,096 bytes, and from the first byte on one buffer of requests.
pub fn serve_connection<V: Served, R: Wait, C: Clock, N: Conn>(
    rt: &R,
    alloc: Global,
    routes: &Routes,
    access: &Access,
    limits: Limits,
    desk: &Desk<V>,
    pass: Pass,
    clock: &C,
    conn: &mut N,
) -> (Pass, Ending)
    requires { IsOf desk.now pass }
    ensures ends { ConnectionServed N.Conn (C.reads clock.now) access.now limits pass (record { before = conn.old; after = conn.new; ending = result.1 }) result.0 }
    ensures desk { IsOf desk.now result.0 }
{
    let Ok(mut inbox) = Inbox::new(alloc) else {
        return (pass, Ending::OutOfMemory);
    };
    desk.board().opened();
    let mut current = pass;
    let mut doing = Doing::Reads;
    let mut since = Since::Never;
    for _ in rt.forever() {
        let (next, went) = step_through(
            rt, alloc, routes, access, desk, current, clock, conn, &mut inbox, &mut doing,
        );
        current = next;
        let (went, from, _) = look(clock, limits, &inbox, since, went, &doing);
        since = from;
        match went {
            Went::On => {}
            Went::NothingYet | Went::Blocked => clock.pause(),
            Went::Over(ending) => {
                desk.board().ended();
                drop(doing);
                return (current, ending);
            }
        }
    }
    unreachable!()
}
