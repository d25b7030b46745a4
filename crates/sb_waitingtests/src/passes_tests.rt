// Two passes of one desk over a node.
ghost use Rattle.std.specs.Prelude.{◌≡◌, ◌++◌, [], ℕ, List, Option, length};
ghost use Rattle.sb_machine.specs.Ordered.{IsActInOrder};
ghost use Rattle.sb_machine.specs.declared.history.Entry.{Entry};
ghost use Rattle.sb_desk.specs.Desks.{IsOf, IsNew};
ghost use Rattle.sb_desk.specs.Entries.{made_by};
ghost use Rattle.sb_desk.specs.Lists.{Each, IsEnd};

use crate::desks::{ask, call_of, put_reply};
use sb_calls::{ONE_EVENT, closed, node_over};
use sb_desk::{Desk, NewFault, Pass, Report, Served};
use sb_machine::{Answer, TimedCall};
use std::alloc::Global;
use std::process::Abort;
use std::sync::Wait;

const SEND: &str = "{\"at\":0,\"do\":\"send\",\"to\":\"q\",\"messages\":[{\"body\":\"hi\"}]}";

const RECEIVE: &str = "{\"at\":0,\"do\":\"receive\",\"from\":\"q\",\"mode\":\"delete\"}";

// What the two are answered.
const TOLD: &str =
    "{\"numbers\":[1],\"ok\":\"sent\"}\n{\"message\":{\"body\":\"hi\",\"delivery\":1,\"enqueued\":0,\"enqueued_seq\":1,\"props\":{},\"seq\":1,\"sys\":{}},\"ok\":\"message\"}\n";

// The first calls, the two tell each other, and then the other calls: it has seen both calls.
fn one_then_other<V: Served, R: Wait>(
    rt: &R,
    desk: &Desk<V>,
    one: Pass,
    other: Pass,
    first: TimedCall,
    second: TimedCall,
) -> (Pass, Pass, Answer, Answer)
    requires new { IsNew desk.now one × IsNew desk.now other }
    requires order { IsActInOrder first.call.act × IsActInOrder second.call.act }
    ensures seen { (t : Option ℕ) × (u : Option ℕ) × (a : List Entry) × (b : List Entry) × (result.1.seen ≡ a ++ b)
        × IsEnd (made_by one.seat t first.reading first.call result.2) a × IsEnd (made_by other.seat u second.reading second.call result.3) b }
    ensures desk { IsOf desk.now result.0 × IsOf desk.now result.1 }
{
    let (one, sent) = ask(rt, desk, one, first);
    let (one, other) = desk.tell(one, other);
    let (other, received) = ask(rt, desk, other, second);
    (one, other, sent, received)
}

// So it is with the two passes of a desk.
fn two_call<V: Served, R: Wait>(
    rt: &R,
    desk: &Desk<V>,
    passes: &mut Vec<Pass>,
    first: TimedCall,
    second: TimedCall,
) -> (Answer, Answer)
    requires new { (length passes.old.items ≡ 2) × Each (IsNew desk.now) passes.old.items }
    requires order { IsActInOrder first.call.act × IsActInOrder second.call.act }
    ensures { (length passes.new.items ≡ 2) × Each (IsOf desk.now) passes.new.items }
{
    let other = passes.pop().unwrap();
    let one = passes.pop().unwrap();
    let (one, other, sent, received) = one_then_other(rt, desk, one, other, first, second);
    passes.push_reserved(one);
    passes.push_reserved(other);
    (sent, received)
}

// The value that a desk gave back, what the two passes were answered, and the numbers of its history; the
// value alone where there is no memory for a desk.
fn desk_told<V: Served, R: Wait>(
    rt: &R,
    alloc: Global,
    value: V,
    first: TimedCall,
    second: TimedCall,
) -> Result<(V, Answer, Answer, Report), V>
    requires stands { V.stands value (V.state value) [] }
    requires order { IsActInOrder first.call.act × IsActInOrder second.call.act }
{
    let (desk, mut passes) = match Desk::new(alloc, value, 2) {
        Ok(opened) => opened,
        Err(NewFault::OutOfMemory { value }) => {
            drop(first);
            drop(second);
            return Err(value);
        }
    };
    let (sent, received) = two_call(rt, &desk, &mut passes, first, second);
    match desk.close(passes) {
        Ok((value, report)) => Ok((value, sent, received, report)),
        Err(_fault) => unreachable!(),
    }
}

// So it is over a node with the queue of the one event.
fn node_told<R: Wait + Abort>(
    rt: &R,
    alloc: Global,
    first: TimedCall,
    second: TimedCall,
) -> (Answer, Answer, Report)
    requires { IsActInOrder first.call.act × IsActInOrder second.call.act }
{
    let Ok(node) = node_over(alloc, (&ONE_EVENT, &[])) else {
        panic!(rt; "the node doesn't open")
    };
    match desk_told(rt, alloc, node, first, second) {
        Ok((node, sent, received, report)) => {
            drop(closed(node));
            (sent, received, report)
        }
        Err(node) => {
            drop(closed(node));
            panic!(rt; "no memory for a desk")
        }
    }
}

// The reply lines of a send and a receive, and the numbers.
fn send_and_receive<R: Wait + Abort>(rt: &R, alloc: Global) -> (String, Report) {
    let send = call_of(rt, alloc, SEND);
    let receive = call_of(rt, alloc, RECEIVE);
    let (sent, received, report) = node_told(rt, alloc, send, receive);
    let mut told = String::new(alloc);
    put_reply(rt, alloc, &mut told, sent);
    put_reply(rt, alloc, &mut told, received);
    (told, report)
}

#[test]
fn a_pass_tells_another(rt: HostRuntime) {
    let (told, report) = send_and_receive(&rt, rt.alloc());
    assert!(rt; told.as_str() == TOLD, "{}", told.as_str());
    drop(told);
    assert_eq!(rt;
        (report.entries, report.changing, report.refused),
        (2, 2, 0)
    );
}
