// What a body of script lines asks for.
ghost use Rattle.std.specs.Prelude.{◌≡◌, ◌<◌, ◌==◌, position, IfSome, [], ◌∷◌, true, length, IfOk, MatchOption, None, Err};
ghost use Rattle.sb_desk.specs.Lists.{Each};
ghost use Rattle.sb_machine.specs.Ordered.{IsActInOrder};
ghost use Rattle.sb_input.specs.Lines.{lines_of};
ghost use Rattle.sb_lines.specs.Faults.{Answers, bad_key};
ghost use Rattle.sb_server.specs.Bodies as bodies;

use sb_input::is_blank_line;
use sb_lines::{KeyFault, LineFault, bad, read_line, refusal_of};
use sb_machine::Answer;
use sb_model::{Rows, Text};
use std::alloc::{AllocError, Global};

/// The most script lines of one body.
const MAX_LINES: usize = 100;

/// What one of several script lines asks for.
#[derive(Drop)]
pub enum LineAsk {
    /// A call.
    Call { line: sb_lines::Line },
    /// No call: it is answered so.
    NoCall { answer: Answer },
}

/// The call of a script line, or the key at fault.
#[tactic(auto, using(crate::proofs::Texts::text_tests))]
pub(crate) fn line_in(alloc: Global, line: &[u8]) -> Result<sb_lines::Line, LineFault>
    ensures said { Answers result (bodies.line_in line.now) }
    ensures in_order { IfOk result (λ line. IsActInOrder line.timed.call.act) }
{
    match std::str::from_utf8(line) {
        Ok(text) => read_line(alloc, text),
        Err(_) => bad(alloc, ""),
    }
}

/// What the lines of a body ask for: of 1 to 100 that aren't blank each, else of none.
pub(crate) fn lines_in(alloc: Global, body: &[u8]) -> Result<Rows<LineAsk>, AllocError>
    ensures lines { IfOk result (λ lines. lines ≡ bodies.lines_in body.now) }
    ensures in_order { IfOk result (λ lines. Each bodies.IsLineInOrder lines) }
{
    if are_lines(body) {
        return each_line(alloc, body);
    }
    no_lines(alloc)
}

// The next line, up to its line feed or the end, and what is behind it.
fn next_line(text: &[u8]) -> Option<(&[u8], &[u8])>
    ensures line { MatchOption result (text.now ≡ []) (λ x. bodies.IsNextLine text.now x.0.now x.1.now) }
    ensures shorter { MatchOption result (length text.now ≡ 0) (λ x. length x.1.now < length text.now) }
{
    if text.is_empty() {
        return None;
    }
    match feed_in(text) {
        Some(at) => Some((&text[..at], &text[at + 1..])),
        None => Some((text, &[])),
    }
}

// Where the first line feed stands.
fn feed_in(text: &[u8]) -> Option<usize>
    ensures place { result ≡ position (λ b. b == 10) text.now }
    ensures within { IfSome result (λ at. at < length text.now) }
{
    text.iter().position(|b| *b == b'\n')
}

// Whether a body has 1 to 100 lines, none of which is blank.
fn are_lines(body: &[u8]) -> bool
    ensures { result ≡ bodies.are_lines (lines_of body.now) }
{
    let mut count = 0;
    let mut rest = body;
    while let Some((line, behind)) = next_line(rest) {
        if count >= MAX_LINES || is_blank_line(line) {
            return false;
        }
        count += 1;
        rest = behind;
    }
    count > 0
}

// What one line asks for.
fn asked_by(alloc: Global, line: &[u8]) -> Result<LineAsk, AllocError>
    ensures asked { IfOk result (λ ask. ask ≡ bodies.asked_by (bodies.line_in line.now)) }
    ensures in_order { IfOk result (λ ask. bodies.IsLineInOrder ask) }
{
    match line_in(alloc, line) {
        Ok(line) => Ok(LineAsk::Call { line }),
        Err(LineFault::BadKey(fault)) => Ok(no_call(fault)),
        Err(LineFault::OutOfMemory) => Err(AllocError),
    }
}

// What each line asks for.
fn each_line(alloc: Global, body: &[u8]) -> Result<Rows<LineAsk>, AllocError>
    requires { bodies.are_lines (lines_of body.now) ≡ true }
    ensures lines { IfOk result (λ lines. lines ≡ bodies.lines_in body.now) }
    ensures in_order { IfOk result (λ lines. Each bodies.IsLineInOrder lines) }
{
    let mut lines = Vec::new(alloc);
    let mut rest = body;
    while let Some((line, behind)) = next_line(rest) {
        let ask = asked_by(alloc, line)?;
        lines.push(ask)?;
        rest = behind;
    }
    Ok(Rows::from_vec(lines))
}

// A body that is refused as one line.
fn no_lines(alloc: Global) -> Result<Rows<LineAsk>, AllocError>
    ensures lines { IfOk result (λ lines. lines ≡ bodies.asked_by (Err (bad_key None [])) ∷ []) }
    ensures in_order { IfOk result (λ lines. Each bodies.IsLineInOrder lines) }
{
    let key = Text::of(alloc, "")?;
    let lines = vec![in alloc; no_call(KeyFault { part: None, key })]?;
    Ok(Rows::from_vec(lines))
}

// A line that is no call, by this fault.
fn no_call(fault: KeyFault) -> LineAsk
    ensures { result ≡ bodies.asked_by (Err fault) }
{
    LineAsk::NoCall {
        answer: Err(refusal_of(LineFault::BadKey(fault))),
    }
}
