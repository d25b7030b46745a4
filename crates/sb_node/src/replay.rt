// Carrying out again what a journal says.
ghost use Rattle.std.specs.Bool.{MatchBool};
ghost use Rattle.std.specs.Option.{option_map};
ghost use Rattle.std.specs.Prelude.{◌≡◌, ◌≢◌, false, Some, None, IfOk, OnOk};
ghost use Rattle.sb_codec.specs.EventBytes.{read_event};
ghost use Rattle.sb_engine.specs.Engines.{engine_state, carried_out, IsSound};
ghost use Rattle.sb_laws.specs.Sweepable.{IsSweepable};
ghost use Rattle.sb_machine.specs.Namespace.{empty_state};
ghost use Rattle.sb_machine.specs.declared.call.Event.TheVariants.{Tick, Called};
ghost use Rattle.sb_machine.specs.declared.reply.Refusal.TheVariants.{OutOfMemory};
ghost use Rattle.sb_node.specs.Recovery.{base_state, if_consistent, next_state, IsReplayed, BreaksReplay};

use crate::growth::Growth;
use sb_codec::decode_event;
use sb_engine::{Engine, Plan};
use sb_journal::Judge;
use sb_judge::judge;
use sb_machine::{Call, Event, Refusal, State};
use sb_snapshot::read_state;
use std::alloc::{AllocError, Global};
use std::mem;

// The bytes of a record beside its payload.
const FRAME: u64 = 13;

/// The last moment that counts, in ms since 1970.
pub const MAX_MOMENT: u64 = 253_402_214_400_000;

// What is refused isn't taken, but for want of memory.
fn untaken(refusal: &Refusal) -> Result<bool, AllocError>
    ensures { IfOk result (λ b. (b ≡ false) × (refusal.now ≢ OutOfMemory)) }
{
    match refusal {
        Refusal::OutOfMemory => Err(AllocError),
        _ => Ok(false),
    }
}

// Carries out a plan; where memory is wanting, all stays.
fn carry_out(engine: &mut Engine, moment: u64, plan: Plan) -> Result<(), AllocError>
    requires { IsSound (engine_state engine.old) moment plan }
    ensures { OnOk result (engine_state engine.new ≡ carried_out moment plan (engine_state engine.old)) }
{
    let Ok(()) = engine.reserve(&plan) else {
        drop(plan);
        return Err(AllocError);
    };
    drop(engine.commit(moment, plan));
    Ok(())
}

// Lets time go on as a journal says; `false` where it may not.
fn take_tick(engine: &mut Engine, moment: u64) -> Result<bool, AllocError>
    requires { IsSweepable (engine_state engine.old).space }
    ensures done { IfOk result (λ b. MatchBool b (next_state (engine_state engine.old) (Some (Tick moment)) ≡ Some (engine_state engine.new))
        (next_state (engine_state engine.old) (Some (Tick moment)) ≡ None)) }
{
    if moment < engine.moment() || moment > MAX_MOMENT {
        return Ok(false);
    }
    if !engine.is_due(moment) {
        return Ok(false);
    }
    let plan = match engine.plan_tick(moment) {
        Ok(plan) => plan,
        Err(refusal) => return untaken(&refusal),
    };
    carry_out(engine, moment, plan)?;
    Ok(true)
}

// Carries out a call that a journal names; `false` where it changes nothing, or time has to go on first.
fn take_call(engine: &mut Engine, moment: u64, call: &Call) -> Result<bool, AllocError>
    ensures done { IfOk result (λ b. MatchBool b (next_state (engine_state engine.old) (Some (Called moment call.now)) ≡ Some (engine_state engine.new))
        (next_state (engine_state engine.old) (Some (Called moment call.now)) ≡ None)) }
{
    if moment < engine.moment() || moment > MAX_MOMENT {
        return Ok(false);
    }
    if engine.is_due(moment) {
        return Ok(false);
    }
    let plan = match engine.plan(moment, call) {
        Ok(plan) => plan,
        Err(refusal) => return untaken(&refusal),
    };
    if !plan.is_changing() {
        drop(plan);
        return Ok(false);
    }
    carry_out(engine, moment, plan)?;
    Ok(true)
}

// Carries out an event; `false` where it changes nothing.
fn take_event(engine: &mut Engine, event: &Event) -> Result<bool, AllocError>
    requires { IsSweepable (engine_state engine.old).space }
    ensures done { IfOk result (λ b. MatchBool b (next_state (engine_state engine.old) (Some event.now) ≡ Some (engine_state engine.new))
        (next_state (engine_state engine.old) (Some event.now) ≡ None)) }
{
    match event {
        Event::Called { moment, call } => take_call(engine, *moment, call),
        Event::Tick { moment } => take_tick(engine, *moment),
    }
}

// Carries out the event that a payload spells; `false` where it is none that changes the state.
fn take_payload(alloc: Global, engine: &mut Engine, payload: &[u8]) -> Result<bool, AllocError>
    requires { IsSweepable (engine_state engine.old).space }
    ensures done { IfOk result (λ b. MatchBool b (next_state (engine_state engine.old) (read_event payload.now) ≡ Some (engine_state engine.new))
        (next_state (engine_state engine.old) (read_event payload.now) ≡ None)) }
{
    match decode_event(alloc, payload)? {
        Some(event) => {
            let taken = take_event(engine, &event);
            drop(event);
            taken
        }
        None => Ok(false),
    }
}

// The engine in this state, if that is consistent.
fn engine_in(alloc: Global, state: State) -> Result<Option<Engine>, AllocError>
    ensures { IfOk result (λ o. option_map engine_state o ≡ if_consistent (Some state)) }
{
    let Ok(is_consistent) = judge(alloc, &state) else {
        drop(state);
        return Err(AllocError);
    };
    if !is_consistent {
        drop(state);
        return Ok(None);
    }
    match Engine::from_state(alloc, state) {
        Ok(engine) => Ok(Some(engine)),
        Err(_) => Err(AllocError),
    }
}

/// An engine that carries out what a journal says while it is read, and lets each payload go then. Its base
/// is kept until all of it was given; then the engine is the state for which it stands. It takes the bases
/// that stand for one, and the events that change its state, in order.
#[derive(Drop)]
pub(crate) struct Replaying {
    pub(crate) engine: Engine,
    // The salt of the file.
    salt: u64,
    // So much of the base as it was given.
    base: Vec<u8>,
    // How many bytes the base has. A hint, as the next is.
    base_bytes: u64,
    // How many the records have behind it.
    record_bytes: u64,
}

impl Replaying {
    /// How far the journal has grown that was read.
    pub(crate) fn growth(&self) -> Growth
        ensures { result.checkpoint_after ≡ 0 }
    {
        Growth::of(self.base_bytes, self.record_bytes)
    }

    /// The engine, with what it has carried out.
    pub(crate) fn into_engine(self) -> Engine
        ensures { result ≡ self.engine }
    {
        let Replaying { engine, base, .. } = self;
        drop(base);
        engine
    }
}

impl Judge for Replaying {
    ghost given = { λ r salt base. (engine_state r.engine ≡ empty_state salt) × ((r.salt ≡ salt) × (r.base.items ≡ base)) };

    ghost taken = { λ r salt base payloads. IsReplayed (engine_state r.engine) salt base payloads };

    ghost refuses_base = { λ salt base. base_state salt base ≡ None };

    ghost refuses = { λ salt base before payload. BreaksReplay salt base before payload };

    fn begin(alloc: Global, salt: u64) -> Self {
        Replaying {
            engine: Engine::new(alloc, salt),
            salt,
            base: Vec::new(alloc),
            base_bytes: 0,
            record_bytes: 0,
        }
    }

    fn take_base(&mut self, _alloc: Global, piece: &[u8]) -> Result<bool, AllocError> {
        self.base_bytes = self.base_bytes.saturating_add(piece.len() as u64);
        self.base.extend_from_slice(piece)?;
        Ok(true)
    }

    fn end_base(&mut self, alloc: Global) -> Result<bool, AllocError> {
        if self.base.is_empty() {
            return Ok(true);
        }
        let Some(state) = read_state(alloc, self.salt, &self.base)? else {
            return Ok(false);
        };
        drop(mem::replace(&mut self.base, Vec::new(alloc)));
        match engine_in(alloc, state)? {
            Some(engine) => {
                drop(mem::replace(&mut self.engine, engine));
                Ok(true)
            }
            None => Ok(false),
        }
    }

    fn take(&mut self, alloc: Global, payload: &[u8]) -> Result<bool, AllocError> {
        let bytes = FRAME.saturating_add(payload.len() as u64);
        self.record_bytes = self.record_bytes.saturating_add(bytes);
        take_payload(alloc, &mut self.engine, payload)
    }
}
