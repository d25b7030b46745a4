// Operations that act together, each by the fields of its act.
ghost use Rattle.std.specs.Prelude.{◌≡◌};
ghost use Rattle.serde_json.specs.View.{view, items_view};
ghost use Rattle.sb_lines.specs.Faults.{Answers, at_place};
ghost use Rattle.sb_lines.specs.Lines as lines;

use crate::fault::{KeyFault, LineFault, bad};
use crate::fields::text_at;
use crate::in_line::InStep;
use crate::keys::{Address, EntityAddress};
use crate::messages::Messages;
use crate::settlements::{Reasons, Remembered, Settled};
use crate::table::{Both, Field, Nothing, object_of};
use sb_machine::{Act, How, Step};
use sb_model::Rows;
use serde_json::Value;
use std::alloc::Global;

#[tactic(auto, unfolding(crate::specs::Lines::send_step))]
fn send_step(alloc: Global, value: &Value) -> Result<Step, LineFault>
    ensures { Answers result (lines.send_step (view value.now)) }
{
    let (to, messages) = object_of(
        alloc,
        value,
        &InStep(Both(Address("to"), Messages("messages"))),
    )?;
    Ok(Step::Send { to, messages })
}

// Complete, abandon, defer.
#[tactic(auto, unfolding(crate::specs::Lines::settle_step))]
fn settle_step(alloc: Global, value: &Value, how: How) -> Result<Step, LineFault>
    ensures { Answers result (lines.settle_step how (view value.now)) }
{
    let (from, (which, (token, (session, _)))) = object_of(
        alloc,
        value,
        &InStep(Settled(Nothing)),
    )?;
    Ok(Step::Settle {
        from,
        which,
        token,
        session,
        how,
    })
}

#[tactic(auto, unfolding(crate::specs::Lines::dead_letter_step))]
fn dead_letter_step(alloc: Global, value: &Value) -> Result<Step, LineFault>
    ensures { Answers result (lines.dead_letter_step (view value.now)) }
{
    let (from, (which, (token, (session, (reason, description))))) = object_of(
        alloc,
        value,
        &InStep(Settled(Reasons)),
    )?;
    Ok(Step::Settle {
        from,
        which,
        token,
        session,
        how: How::DeadLetter {
            reason,
            description,
        },
    })
}

#[tactic(auto, unfolding(crate::specs::Lines::session_set_step))]
fn session_set_step(alloc: Global, value: &Value) -> Result<Step, LineFault>
    ensures { Answers result (lines.session_set_step (view value.now)) }
{
    let (from, (session, state)) = object_of(alloc, value, &InStep(Remembered))?;
    Ok(Step::SessionSet {
        from,
        session,
        state,
    })
}

// The operation of this word, with its fields.
#[tactic(auto, unfolding(crate::specs::Lines::step_named))]
fn step_named(alloc: Global, value: &Value, word: &str) -> Result<Step, LineFault>
    ensures { Answers result (lines.step_named word.now (view value.now)) }
{
    match word {
        "send" => send_step(alloc, value),
        "complete" => settle_step(alloc, value, How::Complete),
        "abandon" => settle_step(alloc, value, How::Abandon),
        "defer" => settle_step(alloc, value, How::Defer),
        "dead-letter" => dead_letter_step(alloc, value),
        "session-set" => session_set_step(alloc, value),
        _ => bad(alloc, "operations"),
    }
}

fn step_of(alloc: Global, value: &Value) -> Result<Step, LineFault>
    ensures { Answers result (lines.step_of (view value.now)) }
{
    let Some(word) = text_at(value, "do") else {
        return bad(alloc, "operations");
    };
    step_named(alloc, value, word)
}

// The same at this place among those that act together.
fn step_at(alloc: Global, part: usize, value: &Value) -> Result<Step, LineFault>
    ensures { Answers result (at_place part (lines.step_of (view value.now))) }
{
    match step_of(alloc, value) {
        Ok(step) => Ok(step),
        Err(LineFault::BadKey(KeyFault { key, .. })) => Err(LineFault::BadKey(KeyFault {
            part: Some(part as u64),
            key,
        })),
        Err(LineFault::OutOfMemory) => Err(LineFault::OutOfMemory),
    }
}

fn steps_of(alloc: Global, values: &[Value]) -> Result<Rows<Step>, LineFault>
    ensures { Answers result (lines.steps_of 0 (items_view values.now)) }
{
    let mut list = Vec::new(alloc);
    for value in values {
        let step = step_at(alloc, list.len(), value)?;
        list.push(step)?;
    }
    Ok(Rows::from_vec(list))
}

/// A list of operations.
pub(crate) struct Operations;

impl Field for Operations {
    type Value = Rows<Step>;

    ghost field = { λ _. lines.operations };

    #[tactic(auto, unfolding(crate::specs::Lines::operations))]
    fn knows(&self, key: &str) -> bool {
        key == "operations"
    }

    #[tactic(auto, unfolding(crate::specs::Lines::operations))]
    fn read(&self, alloc: Global, value: &Value) -> Result<Rows<Step>, LineFault> {
        let Some(values) = value.get("operations").and_then(Value::as_array) else {
            return bad(alloc, "operations");
        };
        steps_of(alloc, values.as_slice())
    }
}

#[tactic(auto, unfolding(crate::specs::Lines::together_alone))]
fn together_alone(alloc: Global, value: &Value) -> Result<Act, LineFault>
    ensures { Answers result (lines.together_alone (view value.now)) }
{
    let (entity, steps) = object_of(
        alloc,
        value,
        &InStep(Both(EntityAddress("entity"), Operations)),
    )?;
    Ok(Act::Together { entity, steps })
}

fn together_named(alloc: Global, value: &Value, word: &str) -> Result<Act, LineFault>
    ensures { Answers result (lines.together_named word.now (view value.now)) }
{
    match word {
        "together" => together_alone(alloc, value),
        _ => bad(alloc, "do"),
    }
}

/// The operations that act together by an object which has the keys of their act's line, but none of those that stand
/// beside an act (`at`, `client`, `number`): a request of HTTP says these in its head.
///
/// Else the first key at fault: `do` where its word is none or another, then the unknown keys in byte order, then `entity`,
/// then the operations, in their order. A key at fault in one of them tells that operation's place, too.
pub fn together_of(alloc: Global, value: &Value) -> Result<Act, LineFault>
    ensures { Answers result (lines.together_of (view value.now)) }
{
    let Some(word) = text_at(value, "do") else {
        return bad(alloc, "do");
    };
    together_named(alloc, value, word)
}
