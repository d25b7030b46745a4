// Whom a call is made for, while the call is with the desk.
ghost use Rattle.std.specs.Prelude.{◌≡◌};
ghost use Rattle.sb_server.specs.Responds.{waiter_call, waiter_of};

use crate::ask::{Asker, Waiter};
use sb_lines::{Form, Line};
use sb_machine::{Call, TimedCall};
use sb_rest::{Sight, Wanted};

/// What asks for a call, without that call.
#[derive(Drop)]
pub(crate) enum Caller {
    /// REST: how long a receive may wait, in s, and what its response shows, and to whom.
    ByRest {
        timeout: u64,
        sight: Sight,
        asker: Asker,
    },
    /// A script line: which reading it gives, the form of its reply, and how long it waits, in s.
    ByLine {
        reading: u64,
        form: Form,
        wait_s: u64,
    },
}

/// Takes a call from what asks for it.
pub(crate) fn apart(waiter: Waiter) -> (Call, Caller)
    ensures call { result.0 ≡ waiter_call waiter }
    ensures caller { waiter_of result.1 result.0 ≡ waiter }
{
    match waiter {
        Waiter::ByRest { wanted, asker } => {
            let Wanted {
                call,
                timeout,
                sight,
            } = wanted;
            let caller = Caller::ByRest {
                timeout,
                sight,
                asker,
            };
            (call, caller)
        }
        Waiter::ByLine { line } => {
            let Line {
                timed,
                form,
                wait_s,
            } = line;
            let TimedCall { reading, call } = timed;
            let caller = Caller::ByLine {
                reading,
                form,
                wait_s,
            };
            (call, caller)
        }
    }
}

/// Puts it back.
pub(crate) fn together(caller: Caller, call: Call) -> Waiter
    ensures { result ≡ waiter_of caller call }
{
    match caller {
        Caller::ByRest {
            timeout,
            sight,
            asker,
        } => {
            let wanted = Wanted {
                call,
                timeout,
                sight,
            };
            Waiter::ByRest { wanted, asker }
        }
        Caller::ByLine {
            reading,
            form,
            wait_s,
        } => {
            let timed = TimedCall { reading, call };
            let line = Line {
                timed,
                form,
                wait_s,
            };
            Waiter::ByLine { line }
        }
    }
}
