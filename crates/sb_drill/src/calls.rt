// The calls of a drill.
ghost use Rattle.std.specs.Prelude.{◌≡◌, ◌<◌, ◌+◌, ◌^◌, IfOk};
ghost use Rattle.sb_machine.specs.Ordered.{IsActInOrder};
ghost use Rattle.sb_drill.specs.Calls as calls;

use crate::acts::drawn_act;
use crate::drawing::{choice_of, value_of, word_at};
use crate::memory::Memory;
use crate::setup::{SETUP, setup_act};
use sb_machine::{Act, Call, TimedCall};
use std::alloc::{AllocError, Global};

// The ms from one drawn call to the next.
const APART_MS: u64 = 500;

/// How many calls a drill makes that draws so many: these, and its setup before them.
pub fn calls_for(count: u32) -> u64
    ensures { result ≡ count + 5 }
{
    u64::from(count) + SETUP
}

/// The call of this number, from 0 and below 2^33, by what is remembered of the answers to those before.
/// The first five are made at 0, those behind them at 500 ms, 1 s and so on.
pub fn call_at(alloc: Global, seed: u64, n: u64, memory: Memory) -> Result<TimedCall, AllocError>
    requires few { n < 2 ^ 33 }
    ensures says { IfOk result (λ a. a ≡ calls.call_at seed n memory) }
    ensures order { IfOk result (λ a. IsActInOrder a.call.act) }
{
    let act = act_at(alloc, seed, n, memory)?;
    Ok(TimedCall {
        reading: APART_MS * n.saturating_sub(SETUP - 1),
        call: Call { by: None, act },
    })
}

#[tactic(auto, unfolding(crate::specs::Calls::act_at))]
fn act_at(alloc: Global, seed: u64, n: u64, memory: Memory) -> Result<Act, AllocError>
    ensures { IfOk result (λ a. a ≡ calls.act_at seed n memory) }
{
    if n < SETUP {
        return setup_act(alloc, n);
    }
    let word = word_at(seed, n - SETUP);
    drawn_act(
        alloc,
        choice_of(word),
        n - (SETUP - 1),
        value_of(word),
        memory,
    )
}
