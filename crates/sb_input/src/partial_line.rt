// The part of a line that was read so far.
ghost use Rattle.std.specs.Prelude.{◌≡◌, ◌++◌, [], ◌∷◌, ℕ, List, length, IfOk, OnOk};
ghost use Rattle.std.specs.List.{list_all};
ghost use Rattle.sb_input.specs.Lines.{is_blank, is_space};
ghost use Rattle.sb_input.specs.PartialLines.{StandsFor, IsLastOf};

use crate::limits::MAX_LINE;
use std::alloc::{AllocError, Global};

/// What is kept of a line: its bytes, or of a line that is too long whether it is blank so far.
#[derive(Drop)]
pub enum PartialLine {
    Short(Vec<u8>),
    Long(bool),
}

fn is_space_byte(b: u8) -> bool
    ensures { result ≡ is_space b }
{
    b == b' ' || b == b'\t' || b == b'\r'
}

/// Whether these are spaces, tabs and carriage returns alone.
pub fn is_blank_line(bytes: &[u8]) -> bool
    ensures { result ≡ is_blank bytes.now }
{
    bytes.iter().all(|b| is_space_byte(*b))
}

/// These bytes follow.
pub fn extended(partial: PartialLine, bytes: &[u8]) -> Result<PartialLine, AllocError>
    ensures { (line : List ℕ) → StandsFor partial line → IfOk result (λ p. StandsFor p (line ++ bytes.now)) }
{
    match partial {
        PartialLine::Short(mut kept) => {
            if bytes.len() > MAX_LINE.saturating_sub(kept.len()) {
                return Ok(PartialLine::Long(is_blank_line(&kept) && is_blank_line(bytes)));
            }
            kept.extend_from_slice(bytes)?;
            Ok(PartialLine::Short(kept))
        }
        PartialLine::Long(blank) => Ok(PartialLine::Long(blank && is_blank_line(bytes))),
    }
}

/// What was read of a line as the source ended: a last line, if there is any of it.
pub fn last_line(partial: PartialLine) -> Option<PartialLine>
    ensures { (line : List ℕ) → StandsFor partial line → IsLastOf line result }
{
    match partial {
        PartialLine::Short(kept) => {
            if kept.is_empty() {
                None
            } else {
                Some(PartialLine::Short(kept))
            }
        }
        PartialLine::Long(blank) => Some(PartialLine::Long(blank)),
    }
}
