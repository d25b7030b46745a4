// From an answer to the line of a reply.
ghost use Rattle.std.specs.Prelude.{◌≡◌, ◌++◌, ◌∷◌, [], Ok, Err, IfOk, false, string_bytes};
ghost use Rattle.serde_json.specs.View.{view};
ghost use Rattle.serde_json.specs.Written.{has_float, compact_text};
ghost use Rattle.sb_machine.specs.declared.reply.Answered.TheVariants.{Kept};
ghost use Rattle.sb_machine.specs.declared.reply.Refusal.TheVariants.{DiskFault, OutOfMemory};
ghost use Rattle.sb_lines.specs.declared.form.Form.TheVariants.{Plain};
ghost use Rattle.sb_lines.specs.Replies as replies;

use crate::compact::compact;
use crate::form::Form;
use crate::members::tag_with;
use crate::refusals::refusal_value;
use crate::replies::reply_value;
use sb_machine::{Answer, Answered, Reply};
use serde_json::Value;
use std::alloc::{AllocError, Global};

fn kept_value(alloc: Global, form: Form, reply: &Reply) -> Result<Value, AllocError>
    ensures { IfOk result (λ v. view v ≡ replies.answer_data form (Ok (Kept reply.now))) }
{
    let kept = reply_value(alloc, form, reply)?;
    tag_with(alloc, "ok", "kept", "kept", kept)
}

fn answer_value(alloc: Global, form: Form, answer: &Answer) -> Result<Value, AllocError>
    ensures { IfOk result (λ v. view v ≡ replies.answer_data form answer.now) }
{
    match answer {
        Ok(Answered::New(reply)) => reply_value(alloc, form, reply),
        Ok(Answered::Kept(reply)) => kept_value(alloc, form, reply),
        Err(refusal) => refusal_value(alloc, refusal),
    }
}

// The text of a value with no float, and a line feed.
fn line_text(alloc: Global, value: &Value) -> Result<String, AllocError>
    requires { has_float (view value.now) ≡ false }
    ensures { IfOk result (λ s. string_bytes s ≡ compact_text (view value.now) ++ 10 ∷ []) }
{
    let mut text = compact(alloc, value)?;
    text.push('\n')?;
    Ok(text)
}

/// The object of a reply, which shows copies in this form, as the line has it without its line feed. It fails for
/// want of memory alone.
pub fn reply_text(alloc: Global, form: Form, reply: &Reply) -> Result<String, AllocError>
    ensures { IfOk result (λ s. string_bytes s ≡ replies.reply_text form reply.now) }
{
    let value = reply_value(alloc, form, reply)?;
    compact(alloc, &value)
}

/// The line of a reply, with its line feed, which shows copies in this form. It fails for want of
/// memory alone.
pub fn reply_line(alloc: Global, form: Form, answer: &Answer) -> Result<String, AllocError>
    ensures { IfOk result (λ s. string_bytes s ≡ replies.answer_line form answer.now) }
{
    let value = answer_value(alloc, form, answer)?;
    line_text(alloc, &value)
}

/// The line of the refusal `DiskFault` in each form, which takes no memory.
pub fn disk_fault_line() -> &'static str
    ensures { result.now ≡ replies.answer_line Plain (Err DiskFault) }
{
    "{\"refused\":\"DiskFault\"}\n"
}

/// The line of the refusal `OutOfMemory` in each form, which takes no memory itself.
pub fn out_of_memory_line() -> &'static str
    ensures { result.now ≡ replies.answer_line Plain (Err OutOfMemory) }
{
    "{\"refused\":\"OutOfMemory\"}\n"
}
