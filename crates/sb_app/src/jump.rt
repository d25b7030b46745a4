// Keeping time from running away: what is too far ahead of a clock, or a clock of it, is held back.
ghost use Rattle.std.specs.Prelude.{◌≡◌, ℕ, true, false, IfErr, IfOk, OnErr, OnOk, string_bytes};
ghost use Rattle.sb_app.specs.Outside.{output_of};
ghost use Rattle.sb_app.specs.Endings.{IsLineWritten};
ghost use Rattle.sb_app.specs.Held.{IsJumpStatus, IsOvertaken, IsTooFar};
ghost use Rattle.sb_app.specs.Jumps.{IsSettled, IsWithin};
ghost use Rattle.sb_app.specs.Jumps as limits;

use crate::final_line::write_final_line;
use crate::notices::{Notice, Watcher};
use crate::script_line::ScriptLine;
use sb_node::Summary;
use sb_outside::{Clock, Sink};
use std::alloc::{AllocError, Global};

// 2020-01-01 in ms since 1970.
const SETTLED_MS: u64 = 1_577_836_800_000;

const DAY_MS: u64 = 86_400_000;

/// A moment and a reading of the clock that are too far apart, both in ms since 1970.
#[derive(Clone, Copy)]
pub struct Jump {
    pub moment: u64,
    pub reading: u64,
}

/// Holds a line of a run back whose call's moment is more than so many days ahead of the clock, with
/// what the clock read; by 0 days none is.
pub fn hold_line<C: Clock>(clock: &C, days: u32, line: &ScriptLine) -> Result<(), Jump>
    ensures ok { OnOk result (IsWithin (C.reads clock.now) days line.now) }
    ensures err { IfErr result (IsTooFar (C.reads clock.now) days line.now) }
{
    match line {
        ScriptLine::Blank | ScriptLine::Malformed { .. } => Ok(()),
        ScriptLine::Request(asked, _) => hold_moment(clock, days, asked.reading),
    }
}

/// Holds a server back where the clock is more than so many days ahead of the moment of its namespace,
/// with what it read; by 0 days it never is, and a moment up to 2020-01-01 is a script's. The watcher
/// is told of the opening, where the namespace's moment is ahead, and that the server isn't held back.
pub fn hold_server<C: Clock, W: Watcher>(
    clock: &C,
    days: u32,
    opened: Summary,
    watcher: &W,
) -> Result<(), Jump>
    ensures ok { OnOk result (IsSettled (C.reads clock.now) days opened.now) }
    ensures err { IfErr result (IsOvertaken (C.reads clock.now) days opened.now) }
{
    let moment = opened.now;
    let reading = clock.now();
    tell_opening(watcher, opened, reading);
    if jumps(days, moment, reading) {
        return Err(Jump { moment, reading });
    }
    watcher.tell(Notice::Serves);
    Ok(())
}

/// Writes the line of a jump as far as the output takes it; `Err` where memory is wanting for it.
pub fn tell_jump<K: Sink>(alloc: Global, jump: Jump, output: &mut K) -> Result<(), AllocError>
    ensures ok { OnOk result (IsLineWritten (limits.jump_line jump.moment jump.reading) (output_of K.Sink output.old) (output_of K.Sink output.new)) }
    ensures err { OnErr result (output.new ≡ output.old) }
{
    let Ok(line) = jump_line(alloc, jump) else {
        return Err(AllocError);
    };
    write_final_line(output, line.as_str());
    Ok(())
}

/// The status of a server that was held back: 14, with the line of the jump, or 7 for want of memory.
pub fn jump_status<K: Sink>(alloc: Global, jump: Jump, output: &mut K) -> u8
    ensures { IsJumpStatus jump (output_of K.Sink output.old) (output_of K.Sink output.new) result }
{
    match tell_jump(alloc, jump, output) {
        Ok(()) => 14,
        Err(_) => 7,
    }
}

// Holds a moment back that is more than so many days ahead of the clock.
fn hold_moment<C: Clock>(clock: &C, days: u32, moment: u64) -> Result<(), Jump>
    ensures ok { OnOk result ((reading : ℕ) × (C.reads clock.now) reading × (limits.is_far_ahead days reading moment ≡ false)) }
    ensures err { IfErr result (λ jump. (jump.moment ≡ moment) × (C.reads clock.now) jump.reading × (limits.is_far_ahead days jump.reading jump.moment ≡ true)) }
{
    let reading = clock.now();
    if is_far_ahead(days, reading, moment) {
        return Err(Jump { moment, reading });
    }
    Ok(())
}

fn tell_opening<W: Watcher>(watcher: &W, opened: Summary, reading_ms: u64) {
    watcher.tell(Notice::Opened {
        records: opened.events,
    });
    let moment_ms = opened.now;
    if moment_ms > reading_ms {
        watcher.tell(Notice::Ahead {
            moment_ms,
            reading_ms,
        });
    }
}

// Whether a moment is more than so many days ahead of another.
fn is_far_ahead(days: u32, from: u64, moment: u64) -> bool
    ensures { result ≡ limits.is_far_ahead days from moment }
{
    days > 0 && moment.saturating_sub(from) > u64::from(days) * DAY_MS
}

fn jumps(days: u32, moment: u64, reading: u64) -> bool
    ensures { result ≡ limits.jumps days moment reading }
{
    moment > SETTLED_MS && is_far_ahead(days, moment, reading)
}

fn jump_line(alloc: Global, jump: Jump) -> Result<String, AllocError>
    ensures { IfOk result (λ s. string_bytes s ≡ limits.jump_line jump.moment jump.reading) }
{
    let Jump { moment, reading } = jump;
    format!(in alloc; "{{\"moment\":{moment},\"reading\":{reading},\"refused\":\"TimeJump\"}}\n")
}
