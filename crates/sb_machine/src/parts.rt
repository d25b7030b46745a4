// The refusal of one of the operations that act together.
ghost use Rattle.std.specs.Prelude.{◌≡◌};
ghost use Rattle.sb_machine.specs.Parts as parts;

use crate::{PartRefusal, Refusal};

/// This refusal of the operation at a place, from 0. One that no test of an operation of its own gives is of the whole call, and
/// stays as it is.
pub fn at_part(part: u64, refusal: Refusal) -> Refusal
    ensures { result ≡ parts.at_part part refusal }
{
    let why = match refusal {
        Refusal::BadCall { key } => PartRefusal::BadCall { key },
        Refusal::EntityNotFound => PartRefusal::EntityNotFound,
        Refusal::BadName => PartRefusal::BadName,
        Refusal::WrongKind => PartRefusal::WrongKind,
        Refusal::TooLarge { size } => PartRefusal::TooLarge { size },
        Refusal::SessionRequired => PartRefusal::SessionRequired,
        Refusal::SessionNotAllowed => PartRefusal::SessionNotAllowed,
        Refusal::SessionLost => PartRefusal::SessionLost,
        Refusal::LockLost => PartRefusal::LockLost,
        Refusal::TxnPending { txn } => PartRefusal::TxnPending { txn },
        Refusal::TxnScope => PartRefusal::TxnScope,
        Refusal::TxnFull => PartRefusal::TxnFull,
        whole => return whole,
    };
    Refusal::InPart { part, why }
}

/// The same where there is such an operation, else the refusal of the whole.
pub fn at_part_or_whole(part: Option<u64>, refusal: Refusal) -> Refusal
    ensures { result ≡ parts.at_part_or_whole part refusal }
{
    match part {
        Some(part) => at_part(part, refusal),
        None => refusal,
    }
}
