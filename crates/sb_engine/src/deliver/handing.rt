// Handing a copy out, under a lock or with deletion.
ghost use Rattle.std.specs.Prelude.{◌≡◌, ◌≤◌, ◌+◌, ◌^◌, IfOk, OnErr};
ghost use Rattle.std.specs.Option.{option_map};
ghost use Rattle.sb_machine.specs.Receiving as spec;
ghost use Rattle.sb_entities.specs.Stores.{entity_in, space_in};
ghost use Rattle.sb_engine.specs.Drafts.{DraftsRow};
ghost use Rattle.sb_engine.specs.Heads.{claim_in};

use crate::Draft;
use crate::deliver::release::in_part;
use crate::find::claims::Claim;
use sb_entities::{EntityStore, SpaceStore};
use sb_machine::{
    Cause, CopyShown, Hold, LeafChange, Mode, Part, Reply, Showing, StoredCopy, Token,
};
use std::alloc::{AllocError, Global};

/// The moment up to which a lock lives that begins at `moment`, in ms since 1970. Memory is wanting
/// where 64 bits don't hold it, to which no description leads that an entity may have.
pub fn lock_end(entity: &EntityStore, moment: u64) -> Result<u64, AllocError>
    ensures ok { IfOk result (λ end. end ≡ spec.lock_end (entity_in entity.now) moment) }
    ensures err { OnErr result (2 ^ 64 ≤ spec.lock_end (entity_in entity.now) moment) }
{
    let Some(life) = entity.about().description.lock.checked_mul(1000) else {
        return Err(AllocError);
    };
    match moment.checked_add(life) {
        Some(end) => Ok(end),
        None => Err(AllocError),
    }
}

/// The token of the next lock. Memory is wanting where 64 bits don't hold its number, to which no
/// namespace leads, since numbers end before.
pub fn next_token(space: &SpaceStore) -> Result<Token, AllocError>
    ensures ok { IfOk result (λ token. token ≡ spec.next_token (space_in space.now)) }
    ensures err { OnErr result (2 ^ 64 ≤ (space_in space.now).last_lock + 1) }
{
    match space.last_lock().checked_add(1) {
        Some(lock) => Ok(Token {
            salt: space.salt(),
            lock,
        }),
        None => Err(AllocError),
    }
}

// How long a copy is held, and up to when that lives as it is handed out.
#[derive(Clone, Copy)]
struct Lease {
    hold: Hold,
    until: u64,
}

fn lease_of(entity: &EntityStore, moment: u64, claim: Option<Claim>) -> Result<Lease, AllocError>
    ensures hold { IfOk result (λ l. l.hold ≡ spec.hold_of (entity_in entity.now) moment (option_map claim_in claim.entry)) }
    ensures until { IfOk result (λ l. l.until ≡ spec.until_of (entity_in entity.now) moment (option_map claim_in claim.entry)) }
{
    match claim {
        Some(claim) => Ok(Lease {
            hold: Hold::Session(claim.lock),
            until: claim.until,
        }),
        None => {
            let until = lock_end(entity, moment)?;
            Ok(Lease {
                hold: Hold::Until(until),
                until,
            })
        }
    }
}

fn shown(copy: &StoredCopy, showing: Showing) -> Result<CopyShown, AllocError>
    ensures { IfOk result (λ s. s ≡ spec.shown (copy.now.count + 1) showing copy.now) }
{
    Ok(CopyShown {
        number: copy.number,
        enqueued_seq: copy.enqueued_seq,
        enqueued: copy.enqueued,
        delivery: u64::from(copy.count) + 1,
        message: copy.message.clone()?,
        showing,
    })
}

/// A copy is handed out at `moment`, in ms since 1970.
pub fn handed_out(
    alloc: Global,
    space: &SpaceStore,
    moment: u64,
    entity: &EntityStore,
    part: Part,
    mode: Mode,
    claim: Option<Claim>,
    copy: &StoredCopy,
) -> Result<Draft, AllocError>
    ensures { DraftsRow result (spec.handed_out (space_in space.now) moment (entity_in entity.now) part mode (option_map claim_in claim.entry) copy.now) }
{
    let (showing, change) = match mode {
        Mode::Lock => {
            let Lease { hold, until } = lease_of(entity, moment, claim)?;
            let token = next_token(space)?;
            let number = copy.number;
            (
                Showing::Locked { token, until },
                LeafChange::Holds { number, hold },
            )
        }
        Mode::Delete => (
            Showing::Removed,
            LeafChange::Ends {
                number: copy.number,
                settled: false,
                cause: Cause::Received,
            },
        ),
    };
    let reply = Reply::Message(shown(copy, showing)?);
    Ok(Draft::changing(alloc, reply, in_part(entity, part, change)))
}
