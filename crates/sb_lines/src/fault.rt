// What is at fault in a text.
ghost use Rattle.std.specs.Prelude.{◌≡◌, None, Err};
ghost use Rattle.sb_lines.specs.Faults as faults;
ghost use Rattle.sb_lines.specs.Faults.{Answers, bad_key};
ghost use Rattle.sb_lines.specs.declared.fault.LineFault.TheVariants.{OutOfMemory};

use sb_machine::{Refusal, at_part_or_whole};
use sb_model::Text;
use std::alloc::{AllocError, AllocFailed, Global};

/// The first key at fault in a text; it is empty where a line is no JSON object. Where the key stands in one
/// of the operations that act together, the part is that operation's place, from 0.
#[derive(Drop)]
pub struct KeyFault {
    pub part: Option<u64>,
    pub key: Text,
}

/// Why a text was not read as a call.
#[derive(Drop)]
pub enum LineFault {
    /// It spells none: a key is at fault.
    BadKey(KeyFault),
    /// Want of memory: the text may spell a call.
    OutOfMemory,
}

impl From<AllocError> for LineFault {
    ghost from_gives = { λ _ e. e ≡ OutOfMemory };

    fn from(_: AllocError) -> Self {
        LineFault::OutOfMemory
    }
}

impl<T: Drop> From<AllocFailed<T>> for LineFault {
    ghost from_gives = { λ _ e. e ≡ OutOfMemory };

    fn from(_: AllocFailed<T>) -> Self {
        LineFault::OutOfMemory
    }
}

/// The fault that names this key, which stands in none of the operations that act together.
pub fn bad<T>(alloc: Global, key: &str) -> Result<T, LineFault>
where
    T: Drop,
    ensures { Answers result (Err (bad_key None key.now)) }
{
    let key = Text::of(alloc, key)?;
    Err(LineFault::BadKey(KeyFault { part: None, key }))
}

/// The refusal by which a line is answered that was not read as a call.
pub fn refusal_of(fault: LineFault) -> Refusal
    ensures { result ≡ faults.answer_of_fault fault }
{
    match fault {
        LineFault::BadKey(KeyFault { part, key }) => {
            at_part_or_whole(part, Refusal::BadCall { key })
        }
        LineFault::OutOfMemory => Refusal::OutOfMemory,
    }
}
