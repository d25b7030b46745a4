// What a line of the script asks for.
ghost use Rattle.std.specs.Prelude.{◌≡◌, ◌≤◌, ℕ, List, length, IfOk, None};
ghost use Rattle.sb_input.specs.Limits.{max_line};
ghost use Rattle.sb_app.specs.Lines.{script_line, script_line_of, IsLineInOrder};
ghost use Rattle.sb_input.specs.PartialLines.{StandsFor};
ghost use Rattle.sb_app.specs.declared.script_line.ScriptLine.TheVariants.{Malformed};
ghost use Rattle.sb_lines.specs.Lines.{line_of};

use sb_input::{PartialLine, is_blank_line};
use sb_lines::{Form, KeyFault, Line, LineFault, read_line};
use sb_machine::TimedCall;
use sb_model::Text;
use std::alloc::{AllocError, Global};

/// What a line asks for: nothing; no call, by the fault of a key, of the operation at this place where it is one of those that
/// act together; or a call and the form of its reply.
#[derive(Drop)]
pub enum ScriptLine {
    Blank,
    Malformed { part: Option<u64>, key: Text },
    Request(TimedCall, Form),
}

// A line that is no call, by the fault of this key.
fn malformed(alloc: Global, key: &str) -> Result<ScriptLine, AllocError>
    ensures { IfOk result (λ x. x ≡ Malformed None key.now) }
{
    let key = Text::of(alloc, key)?;
    Ok(ScriptLine::Malformed { part: None, key })
}

fn parse_text(alloc: Global, text: &str) -> Result<ScriptLine, AllocError>
    ensures says { IfOk result (λ x. x ≡ script_line_of (line_of text.now)) }
    ensures order { IfOk result IsLineInOrder }
{
    match read_line(alloc, text) {
        Ok(Line { timed, form, .. }) => Ok(ScriptLine::Request(timed, form)),
        Err(LineFault::BadKey(KeyFault { part, key })) => Ok(ScriptLine::Malformed { part, key }),
        Err(LineFault::OutOfMemory) => Err(AllocError),
    }
}

fn parse_bytes(alloc: Global, line: &[u8]) -> Result<ScriptLine, AllocError>
    ensures says { length line.now ≤ max_line → IfOk result (λ x. x ≡ script_line line.now) }
    ensures order { IfOk result IsLineInOrder }
{
    if is_blank_line(line) {
        return Ok(ScriptLine::Blank);
    }
    match std::str::from_utf8(line) {
        Ok(text) => parse_text(alloc, text),
        Err(_) => malformed(alloc, ""),
    }
}

/// What a line that was read asks for.
pub fn parse_line(alloc: Global, partial: PartialLine) -> Result<ScriptLine, AllocError>
    ensures says { (line : List ℕ) → StandsFor partial line → IfOk result (λ x. x ≡ script_line line) }
    ensures order { IfOk result IsLineInOrder }
{
    match partial {
        PartialLine::Short(kept) => parse_bytes(alloc, &kept),
        PartialLine::Long(true) => Ok(ScriptLine::Blank),
        PartialLine::Long(false) => malformed(alloc, "line"),
    }
}
