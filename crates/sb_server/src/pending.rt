// Calls that are posted at the desk, and whom they are for.
ghost use Rattle.std.specs.Prelude.{◌≡◌, Result};
ghost use Rattle.sb_machine.specs.Ordered.{IsActInOrder};
ghost use Rattle.sb_machine.specs.declared.reply.Answered.{Answered};
ghost use Rattle.sb_machine.specs.declared.reply.Refusal.{Refusal};
ghost use Rattle.sb_desk.specs.Desks.{IsOf};
ghost use Rattle.sb_server.specs.Doings.{IsAnswered, IsBegunInOrder, IsPendingInOrder, IsSettled};
ghost use Rattle.sb_server.specs.Responds.{waiter_call};
ghost use Rattle.sb_server.specs.Waiting.{GoesByCall};

use crate::caller::{Caller, together};
use crate::counting::{asked, kind_of, outcome_of};
use crate::doing::Begun;
use crate::patience::Patience;
use crate::script::Script;
use crate::telling::{said_of, telling_of};
use crate::waiting::is_done;
use sb_desk::{Desk, Pass, Posted, Served};
use sb_lines::Form;
use sb_machine::{Answer, Call};
use sb_numbers::Board;
use sb_outside::Clock;
use std::sync::Wait;

/// For what a call is posted.
#[derive(Drop)]
pub(crate) enum Pending {
    /// It is made once, for this caller; whether the connection ends with its response.
    Once(Caller, bool),
    /// It waits. Whether it was asked before, and so is counted as one that waits.
    Waits {
        caller: Caller,
        limit_ms: u64,
        closes: bool,
        first_ms: u64,
        asked_ms: u64,
        again: bool,
    },
    /// It is the next of several script lines, whose reply is to have this form.
    Line(Script, Form),
}

/// A call that is posted, for what, and at which microsecond of the clock.
#[derive(Drop)]
pub(crate) struct Sent {
    pub(crate) posted: Posted,
    pub(crate) pending: Pending,
    pub(crate) began: u64,
}

/// Posts a call with this pass, at a reading of the clock in ms since 1970. It is carried out with the others that
/// are posted, once one of these is collected.
pub(crate) fn post<V: Served, R: Wait, C: Clock>(
    rt: &R,
    desk: &Desk<V>,
    pass: Pass,
    clock: &C,
    reading: u64,
    call: Call,
    pending: Pending,
) -> Sent
    requires desk { IsOf desk.now pass }
    requires order { IsActInOrder call.act }
    ensures posted { result.posted ≡ record { pass = pass; reading = reading; call = call } }
    ensures pending { result.pending ≡ pending }
    ensures desk { IsOf desk.now result.posted.pass }
{
    let began = clock.micros();
    let posted = desk.post(rt, pass, reading, call);
    Sent {
        posted,
        pending,
        began,
    }
}

/// Collects a call that was posted, and says what came of it. The desk's board counts it, with how long it took from
/// its posting on.
pub(crate) fn collect<V: Served, R: Wait, C: Clock>(
    rt: &R,
    desk: &Desk<V>,
    clock: &C,
    sent: Sent,
) -> (Pass, Begun)
    requires desk { IsOf desk.now sent.posted.pass }
    requires order { IsPendingInOrder sent.pending sent.posted.call }
    ensures goes { (answer : Result Answered Refusal) × GoesByCall sent.posted.pass sent.posted.reading sent.posted.call answer result.0 × IsAnswered sent.pending sent.posted.call answer result.1 }
    ensures desk { IsOf desk.now result.0 }
    ensures order { IsBegunInOrder result.1 }
{
    let Sent {
        posted,
        pending,
        began,
    } = sent;
    let (pass, call, answer) = desk.collect(rt, posted);
    let took = clock.micros().saturating_sub(began);
    let board = desk.board();
    board.called(kind_of(&call.act), outcome_of(&answer), took);
    (pass, answered(board, pending, call, answer))
}

// What came of a call that was answered so.
fn answered(board: &Board, pending: Pending, call: Call, answer: Answer) -> Begun
    requires { IsPendingInOrder pending call }
    ensures answered { IsAnswered pending call answer result }
    ensures order { IsBegunInOrder result }
{
    match pending {
        Pending::Once(caller, closes) => {
            let waiter = together(caller, call);
            Begun::Done(telling_of(said_of(waiter, answer), closes))
        }
        Pending::Waits {
            caller,
            limit_ms,
            closes,
            first_ms,
            asked_ms,
            again,
        } => {
            let patience = Patience {
                waiter: together(caller, call),
                limit_ms,
                closes,
                first_ms,
                asked_ms,
                answer,
            };
            let begun = settle(patience);
            asked(board, again, &begun);
            begun
        }
        Pending::Line(script, form) => {
            drop(call);
            Begun::Says(script, form, answer)
        }
    }
}

// What is to be told, where it waits no longer.
fn settle(patience: Patience) -> Begun
    requires { IsActInOrder (waiter_call patience.waiter).act }
    ensures settled { IsSettled patience result }
    ensures order { IsBegunInOrder result }
{
    let p = patience;
    if !is_done(&p.answer, p.first_ms, p.limit_ms, p.asked_ms) {
        return Begun::Waits(p);
    }
    let Patience {
        waiter,
        limit_ms: _,
        closes,
        first_ms: _,
        asked_ms: _,
        answer,
    } = p;
    Begun::Done(telling_of(said_of(waiter, answer), closes))
}
