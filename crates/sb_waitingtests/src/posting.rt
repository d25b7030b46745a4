// Three calls at three passes of one desk: left there together and then answered, or made one by one.
ghost use Rattle.std.specs.Prelude.{◌≡◌, length};
ghost use Rattle.sb_machine.specs.Ordered.{IsActInOrder};
ghost use Rattle.sb_desk.specs.Desks.{IsNew, IsOf};
ghost use Rattle.sb_desk.specs.Lists.{Each};

use crate::desks::ask;
use sb_desk::{Desk, Pass, Posted, Served};
use sb_machine::{Answer, TimedCall};
use std::sync::Wait;

// Leaves a call with the desk.
fn post<V: Served, R: Wait>(rt: &R, desk: &Desk<V>, pass: Pass, asked: TimedCall) -> Posted
    requires desk { IsOf desk.now pass }
    requires order { IsActInOrder asked.call.act }
    ensures { IsOf desk.now result.pass }
{
    let TimedCall { reading, call } = asked;
    desk.post(rt, pass, reading, call)
}

// The answer to a call that was left.
fn collect<V: Served, R: Wait>(rt: &R, desk: &Desk<V>, posted: Posted) -> (Pass, Answer)
    requires { IsOf desk.now posted.pass }
    ensures { IsOf desk.now result.0 }
{
    let (pass, call, answer) = desk.collect(rt, posted);
    drop(call);
    (pass, answer)
}

// All three calls are left, and only then the last, the first and the second are asked for their answers.
fn at_once<V: Served, R: Wait>(
    rt: &R,
    desk: &Desk<V>,
    passes: &mut Vec<Pass>,
    first: TimedCall,
    second: TimedCall,
    third: TimedCall,
) -> (Answer, Answer, Answer)
    requires new { (length passes.old.items ≡ 3) × Each (IsNew desk.now) passes.old.items }
    requires order { IsActInOrder first.call.act × IsActInOrder second.call.act × IsActInOrder third.call.act }
    ensures { (length passes.new.items ≡ 3) × Each (IsOf desk.now) passes.new.items }
{
    let last = passes.pop().unwrap();
    let other = passes.pop().unwrap();
    let one = passes.pop().unwrap();
    let one = post(rt, desk, one, first);
    let other = post(rt, desk, other, second);
    let last = post(rt, desk, last, third);
    let (last, third) = collect(rt, desk, last);
    let (one, first) = collect(rt, desk, one);
    let (other, second) = collect(rt, desk, other);
    passes.push_reserved(one);
    passes.push_reserved(other);
    passes.push_reserved(last);
    (first, second, third)
}

// Each call is answered before the next one is made.
fn one_by_one<V: Served, R: Wait>(
    rt: &R,
    desk: &Desk<V>,
    passes: &mut Vec<Pass>,
    first: TimedCall,
    second: TimedCall,
    third: TimedCall,
) -> (Answer, Answer, Answer)
    requires new { (length passes.old.items ≡ 3) × Each (IsNew desk.now) passes.old.items }
    requires order { IsActInOrder first.call.act × IsActInOrder second.call.act × IsActInOrder third.call.act }
    ensures { (length passes.new.items ≡ 3) × Each (IsOf desk.now) passes.new.items }
{
    let last = passes.pop().unwrap();
    let other = passes.pop().unwrap();
    let one = passes.pop().unwrap();
    let (one, first) = ask(rt, desk, one, first);
    let (other, second) = ask(rt, desk, other, second);
    let (last, third) = ask(rt, desk, last, third);
    passes.push_reserved(one);
    passes.push_reserved(other);
    passes.push_reserved(last);
    (first, second, third)
}

/// Makes the calls at new passes, in one of these two ways.
pub(crate) fn three_answers<V: Served, R: Wait>(
    rt: &R,
    desk: &Desk<V>,
    passes: &mut Vec<Pass>,
    first: TimedCall,
    second: TimedCall,
    third: TimedCall,
    is_at_once: bool,
) -> (Answer, Answer, Answer)
    requires new { (length passes.old.items ≡ 3) × Each (IsNew desk.now) passes.old.items }
    requires order { IsActInOrder first.call.act × IsActInOrder second.call.act × IsActInOrder third.call.act }
    ensures { (length passes.new.items ≡ 3) × Each (IsOf desk.now) passes.new.items }
{
    if is_at_once {
        return at_once(rt, desk, passes, first, second, third);
    }
    one_by_one(rt, desk, passes, first, second, third)
}

/// Makes a call more at the last of the passes.
pub(crate) fn one_more<V: Served, R: Wait>(
    rt: &R,
    desk: &Desk<V>,
    passes: &mut Vec<Pass>,
    asked: TimedCall,
) -> Answer
    requires passes { (length passes.old.items ≡ 3) × Each (IsOf desk.now) passes.old.items }
    requires order { IsActInOrder asked.call.act }
    ensures { (length passes.new.items ≡ 3) × Each (IsOf desk.now) passes.new.items }
{
    let pass = passes.pop().unwrap();
    let (pass, answer) = ask(rt, desk, pass, asked);
    passes.push_reserved(pass);
    answer
}
