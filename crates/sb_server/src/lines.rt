// Several script lines, called one after another.
ghost use Rattle.std.specs.Prelude.{◌≡◌, ◌++◌, ◌||◌, [], ℕ, List, Option, false, OnOk, OnErr};
ghost use Rattle.sb_desk.specs.Desks.{Sitting, IsOf};
ghost use Rattle.sb_desk.specs.Lists.{Each};
ghost use Rattle.sb_machine.specs.History.{stops};
ghost use Rattle.sb_lines.specs.Replies.{answer_line};
ghost use Rattle.sb_server.specs.declared.doing.Doing.TheVariants.{Calls, Says};
ghost use Rattle.sb_server.specs.declared.doing.Went.TheVariants.{On};
ghost use Rattle.sb_server.specs.Bodies.{IsLineInOrder};
ghost use Rattle.sb_server.specs.declared.telling.Said.TheVariants.{Lines as OfLines};
ghost use Rattle.sb_server.specs.Doings as doings;
ghost use Rattle.sb_server.specs.Doings.{IsInOrderAt, Steps, StepsTo, sitting_of};
ghost use Rattle.sb_server.specs.Reads.{Stand};

use crate::body::LineAsk;
use crate::doing::{Doing, turn};
use crate::pending::{Pending, post};
use crate::script::Script;
use crate::seat::Seat;
use crate::telling::{Said, Telling, stops, telling_of};
use sb_desk::{Desk, Pass, Served};
use sb_lines::{Form, Line, reply_line};
use sb_machine::{Answer, TimedCall};
use sb_model::Rows;
use sb_outside::Clock;
use sb_rest::Access;
use std::alloc::{AllocError, Global};
use std::collections::VecDeque;
use std::mem;
use std::sync::Wait;

/// None of these lines was called yet.
pub(crate) fn script_of(alloc: Global, lines: Rows<LineAsk>, closes: bool) -> Script
    ensures left { result.left.items ≡ lines }
    ensures text { result.text.items ≡ [] }
    ensures stopped { result.stopped ≡ false }
    ensures closes { result.closes ≡ closes }
{
    Script {
        left: VecDeque::from_vec(lines.into_vec()),
        text: Vec::new(alloc),
        stopped: false,
        closes,
    }
}

/// Takes what there is of a script, and leaves an empty one.
pub(crate) fn take_script(alloc: Global, script: &mut Script) -> Script
    ensures { result ≡ script.old }
{
    let none = Script {
        left: VecDeque::new(alloc),
        text: Vec::new(alloc),
        stopped: false,
        closes: false,
    };
    mem::replace(script, none)
}

/// Posts the call of the next line with this pass, at a reading of the clock of its own, or tells the replies where
/// all were called. A line that is no call is answered as it says.
pub(crate) fn call_on<V: Served, R: Wait, C: Clock>(
    rt: &R,
    access: &Access,
    desk: &Desk<V>,
    pass: Pass,
    clock: &C,
    script: Script,
    doing: &mut Doing,
) -> Seat
    requires desk { IsOf desk.now pass }
    requires order { Each IsLineInOrder script.left.items }
    ensures steps { (stand : Stand) (written : Option (List ℕ)) (reads writes : ℕ) → StepsTo (C.reads clock.now) access.now (record { pass = pass; stand = stand; written = written; reads = reads; writes = writes }) (Calls script)
        (record { pass = sitting_of result; stand = stand; written = written; reads = reads; writes = writes }) result On doing.new }
    ensures desk { IsOf desk.now (sitting_of result) }
    ensures order { IsInOrderAt result doing.new }
{
    let _ = access;
    let mut script = script;
    match script.left.pop_front() {
        Some(LineAsk::Call { line }) => {
            let Line {
                timed,
                form,
                wait_s: _,
            } = line;
            let TimedCall { reading: _, call } = timed;
            let pending = Pending::Line(script, form);
            Seat::Posts(post(rt, desk, pass, clock, clock.now(), call, pending))
        }
        Some(LineAsk::NoCall { answer }) => {
            turn(doing, Doing::Says(script, Form::Plain, answer));
            Seat::Free(pass)
        }
        None => {
            turn(doing, Doing::Tells(telling_of_all(script)));
            Seat::Free(pass)
        }
    }
}

/// Adds the reply to the line that was called last, if there is memory for it.
pub(crate) fn say_on<C: Clock>(
    alloc: Global,
    access: &Access,
    clock: &C,
    script: &mut Script,
    form: Form,
    answer: &Answer,
) -> bool
    requires order { Each IsLineInOrder script.old.left.items }
    ensures steps { (pass : Sitting) (stand : Stand) (written : Option (List ℕ)) (reads writes : ℕ) → Steps (C.reads clock.now) access.now (record { pass = pass; stand = stand; written = written; reads = reads; writes = writes }) (Says script.old form answer.now)
        (record { pass = pass; stand = stand; written = written; reads = reads; writes = writes }) (doings.said_by result) (doings.saying result script.new form answer.now) }
    ensures order { Each IsLineInOrder script.new.left.items }
{
    let _ = access;
    let _ = clock;
    let Ok(()) = push_reply(alloc, &mut script.text, form, answer) else {
        return false;
    };
    script.stopped = stops_by_now(script.stopped, answer);
    true
}

// Whether the namespace acts no more, as was told or is told now.
fn stops_by_now(stopped: bool, answer: &Answer) -> bool
    ensures { result ≡ (stopped || stops answer.now) }
{
    stopped || stops(answer)
}

// What is to be told where all lines were called.
fn telling_of_all(script: Script) -> Telling
    ensures { result ≡ doings.telling_of (OfLines script.text script.stopped) script.closes }
{
    let Script {
        left,
        text,
        stopped,
        closes,
    } = script;
    drop(left);
    telling_of(Said::Lines { text, stopped }, closes)
}

// Adds the line of a reply.
fn push_reply(
    alloc: Global,
    text: &mut Vec<u8>,
    form: Form,
    answer: &Answer,
) -> Result<(), AllocError>
    ensures added { OnOk result (text.new.items ≡ text.old.items ++ answer_line form answer.now) }
    ensures stays { OnErr result (text.new.items ≡ text.old.items) }
{
    let reply = reply_line(alloc, form, answer)?;
    text.extend_from_slice(reply.as_bytes())?;
    Ok(())
}
