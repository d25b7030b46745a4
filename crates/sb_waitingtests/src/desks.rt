// What the tests of desks over nodes share: the calls of lines, and reply lines.
ghost use Rattle.sb_machine.specs.Ordered.{IsActInOrder};
ghost use Rattle.sb_desk.specs.Desks.{Calls, IsOf};

use sb_desk::{Desk, Pass, Served};
use sb_lines::{Form, read_line, reply_line};
use sb_machine::{Answer, TimedCall};
use std::alloc::Global;
use std::process::Abort;
use std::sync::Wait;

/// The call of a line, with its reading.
pub(crate) fn call_of(rt: &impl Abort, alloc: Global, line: &str) -> TimedCall
    ensures { IsActInOrder result.call.act }
{
    match read_line(alloc, line) {
        Ok(line) => line.timed,
        Err(_) => panic!(rt; "the line is no call"),
    }
}

/// Makes a call at this pass, and gives its answer.
pub(crate) fn ask<V: Served, R: Wait>(
    rt: &R,
    desk: &Desk<V>,
    pass: Pass,
    asked: TimedCall,
) -> (Pass, Answer)
    requires desk { IsOf desk.now pass }
    requires order { IsActInOrder asked.call.act }
    ensures call { Calls pass asked.reading asked.call result.0 result.1 }
    ensures desk { IsOf desk.now result.0 }
{
    let TimedCall { reading, call } = asked;
    let (pass, call, answer) = desk.call(rt, pass, reading, call);
    drop(call);
    (pass, answer)
}

/// Puts the reply line of an answer behind the others.
pub(crate) fn put_reply(rt: &impl Abort, alloc: Global, told: &mut String, answer: Answer) {
    let line = reply_line(alloc, Form::Plain, &answer);
    drop(answer);
    let line = line.expect(rt, "memory for a reply line");
    told.push_str(line.as_str())
        .expect(rt, "memory for a reply line");
    drop(line);
}
