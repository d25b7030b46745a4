// A refusal as JSON.
ghost use Rattle.std.specs.Prelude.{◌≡◌, IfOk};
ghost use Rattle.serde_json.specs.Data.{object, string, number, unsigned, put as with_member};
ghost use Rattle.serde_json.specs.View.{view, members_view};
ghost use Rattle.sb_machine.specs.declared.reply.Refusal.TheVariants.{QuotaExceeded};
ghost use Rattle.sb_lines.specs.Refusals as refusals;

use crate::members::{Members, put_number, put_text, tagged};
use sb_machine::{PartRefusal, Refusal};
use serde_json::Value;
use std::alloc::{AllocError, Global};

fn plain(alloc: Global, name: &str) -> Result<Members, AllocError>
    ensures { IfOk result (λ m. members_view m.entries ≡ refusals.refused name.now) }
{
    tagged(alloc, "refused", name)
}

fn with_text(alloc: Global, name: &str, key: &str, text: &str) -> Result<Members, AllocError>
    ensures { IfOk result (λ m. members_view m.entries
        ≡ with_member key.now (string text.now) (refusals.refused name.now)) }
{
    let mut members = plain(alloc, name)?;
    put_text(&mut members, alloc, key, text)?;
    Ok(members)
}

fn with_number(alloc: Global, name: &str, key: &str, n: u64) -> Result<Members, AllocError>
    ensures { IfOk result (λ m. members_view m.entries
        ≡ with_member key.now (number (unsigned n)) (refusals.refused name.now)) }
{
    let mut members = plain(alloc, name)?;
    put_number(&mut members, alloc, key, n)?;
    Ok(members)
}

fn quota_exceeded(alloc: Global, copies: u64, adds: u64) -> Result<Members, AllocError>
    ensures { IfOk result (λ m. object (members_view m.entries) ≡ refusals.refusal_data (QuotaExceeded copies adds)) }
{
    let mut members = with_number(alloc, "QuotaExceeded", "copies", copies)?;
    put_number(&mut members, alloc, "adds", adds)?;
    Ok(members)
}

fn part_members(alloc: Global, why: &PartRefusal) -> Result<Members, AllocError>
    ensures { IfOk result (λ m. members_view m.entries ≡ refusals.part_members why.now) }
{
    match why {
        PartRefusal::BadCall { key } => with_text(alloc, "BadCall", "key", key.as_str()),
        PartRefusal::EntityNotFound => plain(alloc, "EntityNotFound"),
        PartRefusal::BadName => plain(alloc, "BadName"),
        PartRefusal::WrongKind => plain(alloc, "WrongKind"),
        PartRefusal::TooLarge { size } => with_number(alloc, "TooLarge", "size", *size),
        PartRefusal::SessionRequired => plain(alloc, "SessionRequired"),
        PartRefusal::SessionNotAllowed => plain(alloc, "SessionNotAllowed"),
        PartRefusal::SessionLost => plain(alloc, "SessionLost"),
        PartRefusal::LockLost => plain(alloc, "LockLost"),
        PartRefusal::TxnPending { txn } => with_number(alloc, "TxnPending", "txn", *txn),
        PartRefusal::TxnScope => plain(alloc, "TxnScope"),
        PartRefusal::TxnFull => plain(alloc, "TxnFull"),
    }
}

fn of_part(alloc: Global, part: u64, why: &PartRefusal) -> Result<Members, AllocError>
    ensures { IfOk result (λ m. object (members_view m.entries) ≡ refusals.of_part part why.now) }
{
    let mut members = part_members(alloc, why)?;
    put_number(&mut members, alloc, "part", part)?;
    Ok(members)
}

fn refusal_members(alloc: Global, refusal: &Refusal) -> Result<Members, AllocError>
    ensures { IfOk result (λ m. object (members_view m.entries) ≡ refusals.refusal_data refusal.now) }
{
    match refusal {
        Refusal::BadCall { key } => with_text(alloc, "BadCall", "key", key.as_str()),
        Refusal::EntityNotFound => plain(alloc, "EntityNotFound"),
        Refusal::EntityExists => plain(alloc, "EntityExists"),
        Refusal::BadName => plain(alloc, "BadName"),
        Refusal::BadDescription { field } => {
            with_text(alloc, "BadDescription", "field", field.as_str())
        }
        Refusal::BadFilter { at } => with_number(alloc, "BadFilter", "at", *at),
        Refusal::WrongKind => plain(alloc, "WrongKind"),
        Refusal::TooLarge { size } => with_number(alloc, "TooLarge", "size", *size),
        Refusal::QuotaExceeded { copies, adds } => quota_exceeded(alloc, *copies, *adds),
        Refusal::SessionRequired => plain(alloc, "SessionRequired"),
        Refusal::SessionNotAllowed => plain(alloc, "SessionNotAllowed"),
        Refusal::SessionHeld { until } => with_number(alloc, "SessionHeld", "until", *until),
        Refusal::SessionLost => plain(alloc, "SessionLost"),
        Refusal::LockLost => plain(alloc, "LockLost"),
        Refusal::NotDeferred => plain(alloc, "NotDeferred"),
        Refusal::NotScheduled => plain(alloc, "NotScheduled"),
        Refusal::TxnNotFound => plain(alloc, "TxnNotFound"),
        Refusal::TxnPending { txn } => with_number(alloc, "TxnPending", "txn", *txn),
        Refusal::TxnScope => plain(alloc, "TxnScope"),
        Refusal::TxnFull => plain(alloc, "TxnFull"),
        Refusal::StaleNumber { kept } => with_number(alloc, "StaleNumber", "kept", *kept),
        Refusal::NumberReused => plain(alloc, "NumberReused"),
        Refusal::ClientsFull => plain(alloc, "ClientsFull"),
        Refusal::ClientNotFound => plain(alloc, "ClientNotFound"),
        Refusal::TxnsFull => plain(alloc, "TxnsFull"),
        Refusal::Exhausted => plain(alloc, "Exhausted"),
        Refusal::InPart { part, why } => of_part(alloc, *part, why),
        Refusal::DiskFault => plain(alloc, "DiskFault"),
        Refusal::Stopped { faults } => with_number(alloc, "Stopped", "faults", *faults),
        Refusal::OutOfMemory => plain(alloc, "OutOfMemory"),
    }
}

/// A refusal as JSON: its name under `refused`, and its fields under their names. That of one of the operations that
/// act together has its place, from 0, under `part`.
pub fn refusal_value(alloc: Global, refusal: &Refusal) -> Result<Value, AllocError>
    ensures { IfOk result (λ v. view v ≡ refusals.refusal_data refusal.now) }
{
    let members = refusal_members(alloc, refusal)?;
    Ok(Value::Object(members))
}
