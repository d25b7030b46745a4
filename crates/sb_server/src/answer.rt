// The calls of what a request asks for.
ghost use Rattle.std.specs.Prelude.{◌≡◌};
ghost use Rattle.sb_machine.specs.Ordered.{IsActInOrder};
ghost use Rattle.sb_desk.specs.Desks.{Sitting, IsOf};
ghost use Rattle.sb_server.specs.declared.ask.Ask.TheVariants.{Patient as Asks};
ghost use Rattle.sb_server.specs.Doings.{BeginsAs, BeginsBy, IsAskedInOrder, IsPatient, IsPendingInOrder, pass_in};
ghost use Rattle.sb_server.specs.Responds as responds;
ghost use Rattle.sb_server.specs.Responds.{once, waiter_call};

use crate::ask::{Ask, Waiter};
use crate::caller::apart;
use crate::doing::Begun;
use crate::lines::script_of;
use crate::patience::Patience;
use crate::pending::{Pending, Sent, post};
use crate::telling::{Said, telling_of};
use sb_desk::{Desk, Pass, Served};
use sb_lines::Form;
use sb_outside::Clock;
use std::alloc::Global;
use std::sync::Wait;

/// What came of a request: its call is posted, or it makes none yet.
#[derive(Drop)]
pub(crate) enum Asked {
    Posts(Sent),
    Begins(Pass, Begun),
}

/// Posts the call that is asked for with this pass, of what waits the first; of several script lines none yet. Where
/// none is asked for, it says what is to be told.
pub(crate) fn answer<V: Served, R: Wait, C: Clock>(
    rt: &R,
    alloc: Global,
    desk: &Desk<V>,
    pass: Pass,
    clock: &C,
    ask: Ask,
    closes: bool,
) -> Asked
    requires desk { IsOf desk.now pass }
    requires order { responds.IsInOrder ask }
    ensures begins { BeginsAs (C.reads clock.now) pass ask closes result }
    ensures desk { IsOf desk.now (pass_in result) }
    ensures in_order { IsAskedInOrder result }
{
    match ask {
        Ask::Once { wanted, asker } => {
            let waiter = Waiter::ByRest { wanted, asker };
            Asked::Posts(post_once(rt, desk, pass, clock, waiter, closes))
        }
        Ask::Patient { waiter, limit_ms } => {
            let sent = post_first(rt, desk, pass, clock, waiter, limit_ms, closes);
            Asked::Posts(sent)
        }
        Ask::Line { line } => {
            let waiter = Waiter::ByLine { line };
            Asked::Posts(post_once(rt, desk, pass, clock, waiter, closes))
        }
        Ask::BadLine { answer } => {
            let form = Form::Plain;
            let said = Said::Line { form, answer };
            Asked::Begins(pass, Begun::Done(telling_of(said, closes)))
        }
        Ask::Lines { lines } => {
            Asked::Begins(pass, Begun::Calls(script_of(alloc, lines, closes)))
        }
        Ask::Fault { fault } => {
            let said = Said::Fault { fault };
            Asked::Begins(pass, Begun::Done(telling_of(said, closes)))
        }
    }
}

// A call that is made once.
fn post_once<V: Served, R: Wait, C: Clock>(
    rt: &R,
    desk: &Desk<V>,
    pass: Pass,
    clock: &C,
    waiter: Waiter,
    closes: bool,
) -> Sent
    requires desk { IsOf desk.now pass }
    requires order { IsActInOrder (waiter_call waiter).act }
    ensures begins { BeginsBy (C.reads clock.now) pass (once waiter) closes result.posted result.pending }
    ensures desk { IsOf desk.now result.posted.pass }
    ensures in_order { IsPendingInOrder result.pending result.posted.call }
{
    let (call, caller) = apart(waiter);
    let pending = Pending::Once(caller, closes);
    post(rt, desk, pass, clock, clock.now(), call, pending)
}

// The first call of what waits.
fn post_first<V: Served, R: Wait, C: Clock>(
    rt: &R,
    desk: &Desk<V>,
    pass: Pass,
    clock: &C,
    waiter: Waiter,
    limit_ms: u64,
    closes: bool,
) -> Sent
    requires desk { IsOf desk.now pass }
    requires order { IsActInOrder (waiter_call waiter).act }
    ensures begins { BeginsBy (C.reads clock.now) pass (Asks waiter limit_ms) closes result.posted result.pending }
    ensures desk { IsOf desk.now result.posted.pass }
    ensures in_order { IsPendingInOrder result.pending result.posted.call }
{
    let (call, caller) = apart(waiter);
    let first_ms = clock.now();
    let pending = Pending::Waits {
        caller,
        limit_ms,
        closes,
        first_ms,
        asked_ms: first_ms,
        again: false,
    };
    post(rt, desk, pass, clock, first_ms, call, pending)
}

/// Posts the next call of what waits.
pub(crate) fn post_again<V: Served, R: Wait, C: Clock>(
    rt: &R,
    desk: &Desk<V>,
    pass: Pass,
    clock: &C,
    patience: Patience,
) -> Sent
    requires desk { IsOf desk.now pass }
    requires order { IsActInOrder (waiter_call patience.waiter).act }
    ensures begins { (old : Sitting) → IsPatient (C.reads clock.now) old patience pass
        → BeginsBy (C.reads clock.now) old (Asks patience.waiter patience.limit_ms) patience.closes result.posted result.pending }
    ensures desk { IsOf desk.now result.posted.pass }
    ensures in_order { IsPendingInOrder result.pending result.posted.call }
{
    let Patience {
        waiter,
        limit_ms,
        closes,
        first_ms,
        asked_ms: _,
        answer,
    } = patience;
    drop(answer);
    let (call, caller) = apart(waiter);
    let asked_ms = clock.now();
    let pending = Pending::Waits {
        caller,
        limit_ms,
        closes,
        first_ms,
        asked_ms,
        again: true,
    };
    post(rt, desk, pass, clock, asked_ms, call, pending)
}
