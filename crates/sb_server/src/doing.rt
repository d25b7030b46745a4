// What a connection does now, and what comes next.
ghost use Rattle.std.specs.Prelude.{◌≡◌};
ghost use Rattle.sb_server.specs.Doings as doings;

use crate::ending::Ending;
use crate::patience::Patience;
use crate::script::Script;
use crate::telling::Telling;
use sb_lines::Form;
use sb_machine::Answer;
use std::mem;

/// A response that is being written: how many of its bytes were written, and how the connection ends
/// behind it, if it does.
#[derive(Drop)]
pub(crate) struct Outgoing {
    pub(crate) bytes: Vec<u8>,
    pub(crate) at: usize,
    pub(crate) after: Option<Ending>,
}

/// What a connection does now: the places where it may have to wait.
#[derive(Drop)]
pub(crate) enum Doing {
    Reads,
    /// A call waits for a message, or for a session.
    Asks(Patience),
    /// Script lines are called, one after another.
    Calls(Script),
    /// A script line was called and answered so, and its reply, of this form, doesn't stand yet.
    Says(Script, Form, Answer),
    /// A request's calls were made, and there is no response yet, for want of memory.
    Tells(Telling),
    Writes(Outgoing),
}

/// How it goes on: at once, once more of a request has come, of which nothing can be read yet, once it may, or
/// not at all.
#[derive(Clone, Copy)]
pub(crate) enum Went {
    On,
    NothingYet,
    Blocked,
    Over(Ending),
}

/// What came of a request's calls: what is to be told, a call that waits, script lines that are to be
/// called, or one that was called, answered so, and whose reply, of this form, doesn't stand yet.
#[derive(Drop)]
pub(crate) enum Begun {
    Done(Telling),
    Waits(Patience),
    Calls(Script),
    Says(Script, Form, Answer),
}

/// Does this from now on.
pub(crate) fn turn(doing: &mut Doing, new: Doing)
    ensures { doing.new ≡ new }
{
    drop(mem::replace(doing, new));
}

/// Goes on behind a request's calls.
pub(crate) fn begin(doing: &mut Doing, begun: Begun) -> Went
    ensures went { result ≡ doings.went_by begun }
    ensures doing { doing.new ≡ doings.doing_by begun }
{
    match begun {
        Begun::Done(telling) => {
            turn(doing, Doing::Tells(telling));
            Went::On
        }
        Begun::Waits(patience) => {
            turn(doing, Doing::Asks(patience));
            Went::Blocked
        }
        Begun::Calls(script) => {
            turn(doing, Doing::Calls(script));
            Went::On
        }
        Begun::Says(script, form, answer) => {
            turn(doing, Doing::Says(script, form, answer));
            Went::On
        }
    }
}

/// How it goes on once all of a response is written.
pub(crate) fn behind(after: Option<Ending>) -> Went
    ensures { result ≡ doings.behind after }
{
    match after {
        Some(ending) => Went::Over(ending),
        None => Went::On,
    }
}
