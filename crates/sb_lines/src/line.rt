// From the text of a line to its call.
ghost use Rattle.std.specs.Prelude.{◌≡◌, IfOk, Some, [], option_map};
ghost use Rattle.serde_json.specs.View.{view};
ghost use Rattle.sb_machine.specs.Ordered.{IsActInOrder};
ghost use Rattle.sb_lines.specs.Faults.{Answers, or_key, then_by};
ghost use Rattle.sb_lines.specs.Lines as lines;

use crate::acts::act_named;
use crate::fault::{LineFault, bad};
use crate::fields::{number_in, text_at};
use crate::form::Form;
use crate::keys::{FormWord, WaitTime, WholeOr};
use crate::looks::is_look;
use crate::table::{Both, Field};
use sb_machine::{By, Call, TimedCall};
use sb_model::Text;
use serde_json::Value;
use serde_json::error::Category;
use std::alloc::Global;

/// What a line asks for.
#[derive(Drop)]
pub struct Line {
    /// The call, and the reading of the clock at which it is made.
    pub timed: TimedCall,
    /// The form in which its reply shows copies. It is no part of the call.
    pub form: Form,
    /// How long the call waits while it finds nothing, in s, 0 to 3,600. It is no part of the call either.
    pub wait_s: u64,
}

#[tactic(auto, unfolding(crate::specs::Lines::reading_of))]
fn reading_of(alloc: Global, value: &Value) -> Result<u64, LineFault>
    ensures { Answers result (lines.reading_of (view value.now)) }
{
    WholeOr("at", 0).read(alloc, value)
}

fn is_numbered(word: &str) -> bool
    ensures { result ≡ lines.is_numbered word.now }
{
    !(word == "peek" || word == "session-state" || word == "counts" || is_look(word))
}

// Both are there.
fn named_by(alloc: Global, client: &Value, number: Option<&Value>) -> Result<By, LineFault>
    ensures { Answers result (lines.named_by (view client.now) (option_map (λ n. view n.now) number.entry)) }
{
    let Some(client) = client.as_str() else {
        return bad(alloc, "client");
    };
    let Some(number) = number.and_then(number_in) else {
        return bad(alloc, "number");
    };
    let client = Text::of(alloc, client)?;
    Ok(By { client, number })
}

fn by_of(alloc: Global, takes: bool, value: &Value) -> Result<Option<By>, LineFault>
    ensures { Answers result (lines.by_of takes (view value.now)) }
{
    let number = value.get("number");
    let Some(client) = value.get("client") else {
        return match number {
            Some(_) => bad(alloc, "client"),
            None => Ok(None),
        };
    };
    if !takes {
        return bad(alloc, "client");
    }
    let by = named_by(alloc, client, number)?;
    Ok(Some(by))
}

// What stands beside the act.
#[tactic(auto, unfolding(crate::specs::Lines::beside))]
fn beside(alloc: Global, takes: bool, value: &Value) -> Result<(u64, Option<By>), LineFault>
    ensures { Answers result (lines.beside takes (view value.now)) }
{
    let reading = reading_of(alloc, value)?;
    let by = by_of(alloc, takes, value)?;
    Ok((reading, by))
}

// The form of the reply and how long the call waits.
fn manner(alloc: Global, value: &Value) -> Result<(Form, u64), LineFault>
    ensures { Answers result (lines.manner.reads (view value.now)) }
{
    Both(FormWord("form"), WaitTime("wait")).read(alloc, value)
}

// These, and what stands beside the act.
fn formed(
    alloc: Global,
    takes: bool,
    value: &Value,
) -> Result<((Form, u64), (u64, Option<By>)), LineFault>
    ensures { Answers result (lines.formed takes (view value.now)) }
{
    let manner = manner(alloc, value)?;
    let found = beside(alloc, takes, value)?;
    Ok((manner, found))
}

#[tactic(auto, unfolding(crate::specs::Lines::named_call))]
fn named_call(alloc: Global, word: &str, value: &Value) -> Result<Line, LineFault>
    ensures { Answers result (lines.named_call word.now (view value.now)) }
{
    let act = act_named(alloc, value, word)?;
    let ((form, wait_s), (reading, by)) = match formed(alloc, is_numbered(word), value) {
        Ok(found) => found,
        Err(fault) => {
            drop(act);
            return Err(fault);
        }
    };
    let timed = TimedCall {
        reading,
        call: Call { by, act },
    };
    Ok(Line {
        timed,
        form,
        wait_s,
    })
}

fn call_of(alloc: Global, value: &Value) -> Result<Line, LineFault>
    ensures { Answers result (lines.call_of (view value.now)) }
{
    let Some(word) = text_at(value, "do") else {
        return bad(alloc, "do");
    };
    named_call(alloc, word, value)
}

fn object_call(alloc: Global, value: &Value) -> Result<Line, LineFault>
    ensures { Answers result (then_by (or_key [] (lines.object_itself (view value.now))) lines.call_of) }
{
    if !value.is_object() {
        return bad(alloc, "");
    }
    call_of(alloc, value)
}

fn call_in(alloc: Global, text: &str) -> Result<Line, LineFault>
    ensures { Answers result (lines.line_of text.now) }
{
    match Value::from_str(alloc, text) {
        Ok(value) => object_call(alloc, &value),
        Err(error) => {
            if error.classify() == Category::Memory {
                Err(LineFault::OutOfMemory)
            } else {
                bad(alloc, "")
            }
        }
    }
}

/// The call that the text of a line spells, and the reading of the clock at which it is made, in
/// ms since 1970 (0 to 2^64 - 1, and 0 where the line gives none); beside it the form of its reply and
/// how long it waits.
///
/// Else the first key at fault: the empty one where the text is no JSON object, then `do`, then
/// the unknown keys in byte order, then the act's own keys in their order, then `form`, `wait`, `at`,
/// `client` and `number`. Inside an object its unknown keys come first, too.
pub fn read_line(alloc: Global, text: &str) -> Result<Line, LineFault>
    ensures call { Answers result (lines.line_of text.now) }
    ensures in_order { IfOk result (λ line. IsActInOrder line.timed.call.act) }
{
    call_in(alloc, text)
}
