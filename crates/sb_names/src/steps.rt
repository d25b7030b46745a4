// Operations that act together: whether one transaction holds them.
ghost use Rattle.std.specs.Prelude.{◌≡◌, nat_le, not, position, sum_by, IfOk};
ghost use Rattle.sb_machine.specs.Names as names;
ghost use Rattle.sb_machine.specs.Queueing.{max_operations};
ghost use Rattle.sb_machine.specs.Sessions as sessions;
ghost use Rattle.sb_machine.specs.Together as together;

use crate::address::is_address;
use crate::limits::{MAX_BODY, MAX_OPERATIONS, MAX_STATE};
use crate::sizes::{above, all_sizes, sum};
use sb_machine::{How, Path, Step};
use sb_model::{Rows, Text};
use std::alloc::AllocError;

/// Whether each names an entity by an address.
pub fn are_addressed(steps: &[Step]) -> bool
    ensures { result ≡ together.are_addressed steps.now }
{
    steps.iter().all(|step| is_addressed(step))
}

/// The place, from 0, of the first that names none.
pub fn unaddressed(steps: &[Step]) -> Option<usize>
    ensures { result ≡ position (λ x. not (names.is_address (together.step_path x))) steps.now }
{
    steps.iter().position(|step| !is_addressed(step))
}

/// Whether their messages and settlements are no more than one transaction holds.
pub fn are_few(steps: &[Step]) -> bool
    ensures { result ≡ nat_le (sum_by together.step_weight steps.now) max_operations }
{
    let mut left = MAX_OPERATIONS;
    'steps: for step in steps {
        let weight = step_weight(step);
        if left < weight {
            return false;
        }
        left -= weight;
    }
    true
}

/// The first sum of sizes that is too large, in bytes: of bodies, properties, reasons and
/// descriptions, then of what sessions are to remember.
pub fn large_steps(steps: &[Step]) -> Result<Option<u64>, AllocError>
    ensures { IfOk result (λ size. size ≡ together.large_steps steps.now) }
{
    match above(MAX_BODY, steps_size(steps)?) {
        Some(size) => Ok(Some(size)),
        None => Ok(above(MAX_STATE as u64, states_size(steps)?)),
    }
}

fn step_path(step: &Step) -> &Path
    ensures { result.now ≡ together.step_path step.now }
{
    match step {
        Step::Send { to, .. } => to,
        Step::Settle { from, .. } | Step::SessionSet { from, .. } => from,
    }
}

fn is_addressed(step: &Step) -> bool
    ensures { result ≡ names.is_address (together.step_path step.now) }
{
    is_address(step_path(step))
}

fn step_weight(step: &Step) -> usize
    ensures { result ≡ together.step_weight step.now }
{
    match step {
        Step::Send { messages, .. } => messages.len(),
        Step::Settle { .. } => 1,
        Step::SessionSet { .. } => 0,
    }
}

// ---- sizes, in bytes

fn text_size(text: &Option<Text>) -> u64
    ensures { result ≡ sessions.size_of text.now }
{
    match text {
        Some(text) => text.as_bytes().len() as u64,
        None => 0,
    }
}

fn how_size(how: &How) -> Result<u64, AllocError>
    ensures { IfOk result (λ size. size ≡ together.how_bytes how.now) }
{
    match how {
        How::DeadLetter {
            reason,
            description,
        } => sum(text_size(reason), text_size(description)),
        How::Complete | How::Abandon | How::Defer => Ok(0),
    }
}

fn step_size(step: &Step) -> Result<u64, AllocError>
    ensures { IfOk result (λ size. size ≡ together.step_bytes step.now) }
{
    match step {
        Step::Send { messages, .. } => all_sizes(messages.as_slice()),
        Step::Settle { how, .. } => how_size(how),
        Step::SessionSet { .. } => Ok(0),
    }
}

fn steps_size(steps: &[Step]) -> Result<u64, AllocError>
    ensures { IfOk result (λ size. size ≡ sum_by together.step_bytes steps.now) }
{
    let mut size = 0_u64;
    'steps: for step in steps {
        size = sum(size, step_size(step)?)?;
    }
    Ok(size)
}

fn remembered_size(state: &Option<Rows<u8>>) -> u64
    ensures { result ≡ sessions.size_of state.now }
{
    match state {
        Some(bytes) => bytes.len() as u64,
        None => 0,
    }
}

fn state_size(step: &Step) -> u64
    ensures { result ≡ together.state_bytes step.now }
{
    match step {
        Step::SessionSet { state, .. } => remembered_size(state),
        Step::Send { .. } | Step::Settle { .. } => 0,
    }
}

fn states_size(steps: &[Step]) -> Result<u64, AllocError>
    ensures { IfOk result (λ size. size ≡ sum_by together.state_bytes steps.now) }
{
    let mut size = 0_u64;
    'steps: for step in steps {
        size = sum(size, state_size(step))?;
    }
    Ok(size)
}
