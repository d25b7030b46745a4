ghost use Rattle.std.specs.Prelude.{◌≡◌, ◌<◌, ◌≤◌, List, [], length, map, vec_capacity, IfOk, IfErr};
ghost use Rattle.sb_machine.specs.Ordered.{IsActInOrder};
ghost use Rattle.sb_machine.specs.declared.history.Entry.{Entry};
ghost use Rattle.sb_machine.specs.declared.state.State.{State};
ghost use Rattle.sb_desk.specs.Desks.{Open, IsOf, IsNew, Calls, HasLegal, IsKeptIn, below, value_of};
ghost use Rattle.sb_desk.specs.Entries.{IsReport};
ghost use Rattle.sb_desk.specs.Lists.{IsFront, Each, HaveSeatsBelow, longer};
ghost use Rattle.sb_desk.specs.Spared.{Spares};
ghost use Rattle.sb_desk.specs.Steps.{IsSized};

use crate::beside::Beside;
use crate::closing::{finish, gather_all};
use crate::groups::{collect_one, post_one};
use crate::notes::{note, take_in};
use crate::opening::{deal_out, open_table};
use crate::turns::{Place, Whole};
use crate::{Pass, Post, Posted, Report, Served};
use sb_machine::{Answer, Call, Path};
use sb_numbers::Board;
use std::alloc::{AllocError, Global};
use std::marker::Model;
use std::sync::Wait;

/// The most passes that a desk has; the rule of its table allows up to 2^63.
const MAX_PASSES: usize = 1 << 32;

/// One namespace that many seats use in turn. Threads share it by reference.
#[derive(Drop)]
pub struct Desk<V: Served> {
    table: Whole<V>,
    beside: Beside,
}

impl<V: Served> Model for Desk<V> {
    ghost Value = { Open };

    ghost view = { λ d. record { desk = d.table.shared.table_id; start = V.state d.table.shared.key.value.value; origin = V.origin d.table.shared.key.value.value; passes = d.table.shared.key.passes } };

    ghost invariant = { λ d. IsSized d.table.shared.table_id × (0 < d.table.shared.key.passes) };
}

/// Why there is no desk.
#[derive(Drop)]
pub enum NewFault<V> {
    /// There was no memory, or more than 2^32 passes were asked for. The value comes back.
    OutOfMemory { value: V },
}

/// Why a desk wasn't closed.
#[derive(Drop)]
pub enum CloseFault<V: Served> {
    /// There was no memory. What was given comes back.
    OutOfMemory { desk: Desk<V>, passes: Vec<Pass> },
}

impl<V: Served> Desk<V> {
    /// A desk for this value with so many passes. Their numbers are those below it.
    pub fn new(alloc: Global, value: V, passes: usize) -> Result<(Desk<V>, Vec<Pass>), NewFault<V>>
        requires some { 0 < passes }
        requires stands { V.stands value (V.state value) [] }
        ensures desk { IfOk result (λ r. (r.0.start ≡ V.state value) × (r.0.origin ≡ V.origin value) × (r.0.passes ≡ passes)) }
        ensures passes { IfOk result (λ r. (length r.1.items ≡ passes) × Each (IsNew r.0) r.1.items) }
        ensures seats { IfOk result (λ r. map (λ p. p.seat) r.1.items ≡ below passes) }
        ensures value { IfErr result (λ e. value_of e ≡ value) }
    {
        if passes > MAX_PASSES {
            return Err(NewFault::OutOfMemory { value });
        }
        let Ok((room, posts, beside)) = room_for(alloc, passes) else {
            return Err(NewFault::OutOfMemory { value });
        };
        match open_table(alloc, value, posts, passes) {
            Ok((table, place)) => {
                let dealt = deal_out(&table.shared, place, room, passes);
                Ok((Desk { table, beside }, dealt))
            }
            Err(value) => Err(NewFault::OutOfMemory { value }),
        }
    }

    /// Leaves a call for this pass with the desk, at a reading of the clock in ms since 1970. It is carried out
    /// with others that wait, at the latest when it is collected. It waits for its turn, and takes no memory.
    pub fn post<R: Wait>(&self, rt: &R, pass: Pass, reading: u64, call: Call) -> Posted
        requires desk { IsOf self.now pass }
        requires order { IsActInOrder call.act }
        ensures posted { result ≡ record { pass = pass; reading = reading; call = call } }
    {
        let Pass { badge, seat } = pass;
        let mut place: Place<V> = badge.into_seat();
        post_one(
            rt,
            &self.table.shared,
            &self.beside.bells,
            &mut place,
            seat,
            reading,
            call,
        );
        Posted {
            badge: place.into_badge(),
            seat,
        }
    }

    /// The answer to a call that was posted, with the pass and the call. It waits for its turn. Where the call still
    /// waits, all that wait are carried out as one group, which takes no memory but what the value's step takes.
    pub fn collect<R: Wait>(&self, rt: &R, posted: Posted) -> (Pass, Call, Answer)
        requires desk { IsOf self.now posted.pass }
        ensures call { Calls posted.pass posted.reading posted.call result.0 result.2 }
        ensures same { result.1 ≡ posted.call }
        ensures legal { HasLegal result.0 }
        ensures spares { Spares V.spared result.0.start result.0.seen }
        ensures seats { HaveSeatsBelow self.now.passes result.0.seen }
    {
        let Posted { badge, seat } = posted;
        let mut place: Place<V> = badge.into_seat();
        let (call, answer) = collect_one(rt, &self.table.shared, &self.beside, &mut place, seat);
        (
            Pass {
                badge: place.into_badge(),
                seat,
            },
            call,
            answer,
        )
    }

    /// Makes a call at this pass, at a reading of the clock in ms since 1970: posts it, and collects its answer.
    pub fn call<R: Wait>(
        &self,
        rt: &R,
        pass: Pass,
        reading: u64,
        call: Call,
    ) -> (Pass, Call, Answer)
        requires desk { IsOf self.now pass }
        requires order { IsActInOrder call.act }
        ensures call { Calls pass reading call result.0 result.2 }
        ensures same { result.1 ≡ call }
        ensures legal { HasLegal result.0 }
        ensures spares { Spares V.spared result.0.start result.0.seen }
        ensures seats { HaveSeatsBelow self.now.passes result.0.seen }
    {
        let posted = self.post(rt, pass, reading, call);
        self.collect(rt, posted)
    }

    /// The marks of the parts for which something to receive may have come since this was last asked,
    /// by whoever asks: who takes them tells all who wait. Nothing is promised of when one comes.
    pub fn take_arrivals(&self) -> u64 {
        self.beside.arrivals.take()
    }

    /// Before this moment, in ms since 1970, nothing comes due by itself, as the last step told it. Nothing
    /// is promised of it.
    pub fn soonest(&self) -> u64 {
        self.beside.arrivals.soonest()
    }

    /// The numbers of this desk and of who uses it, for who looks after them. Each call notes what the journal has; the
    /// rest is noted by who makes the calls.
    pub fn board(&self) -> &Board {
        &self.beside.board
    }

    /// The mark of what this path names among arrivals.
    pub fn mark_of(&self, path: &Path) -> u64 {
        V::mark_of(path)
    }

    /// Lets each of the two passes know what the other has seen. It waits for nobody.
    pub fn tell(&self, one: Pass, other: Pass) -> (Pass, Pass)
        requires desk { IsOf self.now one × IsOf self.now other }
        ensures one { result.0 ≡ record one { seen = longer one.seen other.seen } }
        ensures other { result.1 ≡ record other { seen = longer one.seen other.seen } }
        ensures longer { IsFront one.seen (longer one.seen other.seen) × IsFront other.seen (longer one.seen other.seen) }
        ensures legal { HasLegal result.0 × HasLegal result.1 }
        ensures spares { (from : State) → Spares V.spared from one.seen → Spares V.spared from other.seen → Spares V.spared from (longer one.seen other.seen) }
        ensures seats { HaveSeatsBelow self.now.passes (longer one.seen other.seen) }
    {
        let Pass {
            badge: one,
            seat: first,
        } = one;
        let Pass {
            badge: other,
            seat: second,
        } = other;
        let mut one: Place<V> = one.into_seat();
        let mut other: Place<V> = other.into_seat();
        let top = &self.table.shared;
        let news = note(top, &mut one);
        take_in(top, &mut other, news);
        let news = note(top, &mut other);
        take_in(top, &mut one, news);
        (
            Pass {
                badge: one.into_badge(),
                seat: first,
            },
            Pass {
                badge: other.into_badge(),
                seat: second,
            },
        )
    }

    /// The value with the numbers of its history, once all passes are given back: their entries,
    /// and no other. It takes no memory, and never fails.
    pub fn close(self, passes: Vec<Pass>) -> Result<(V, Report), CloseFault<V>>
        requires all { (length passes.items ≡ self.passes) × Each (IsOf self) passes.items }
        ensures ok { IfOk result (λ r. (h : List Entry) × V.stands r.0 self.start h × (V.origin r.0 ≡ self.origin) × IsReport self.start h r.1 × Each (IsKeptIn h) passes.items × HaveSeatsBelow self.passes h) }
        ensures err { IfErr result (λ _. ⊥) }
    {
        let mut passes = passes;
        let Desk { table, beside: _ } = self;
        let Pass { badge, seat: _ } = passes.pop().unwrap();
        let mut place: Place<V> = badge.into_seat();
        gather_all(&table.shared, &mut place, passes);
        let value = finish(table, place);
        let report = value.tally();
        Ok((value, report))
    }
}

// Room for so many passes and their posts, and what a desk has beside its table.
fn room_for(alloc: Global, passes: usize) -> Result<(Vec<Pass>, Vec<Post>, Beside), AllocError>
    ensures passes { IfOk result (λ r. (r.0.items ≡ []) × (passes ≤ vec_capacity r.0)) }
    ensures posts { IfOk result (λ r. (r.1.items ≡ []) × (passes ≤ vec_capacity r.1)) }
{
    let room = Vec::with_capacity(alloc, passes)?;
    let posts = Vec::with_capacity(alloc, passes)?;
    let beside = Beside::new(alloc)?;
    Ok((room, posts, beside))
}
