// From bytes to the state that they spell.
ghost use Rattle.std.specs.Prelude.{◌≡◌, IfOk};
ghost use Rattle.sb_codec.specs.Forms.{◌then◌, number64};
ghost use Rattle.sb_codec.specs.Messages.{any_next};
ghost use Rattle.sb_codec.specs.Readers.{Gives};
ghost use Rattle.sb_snapshot.specs.Base as base;
ghost use Rattle.sb_snapshot.specs.Entities as entities;
ghost use Rattle.sb_snapshot.specs.Lists.{listed64};
ghost use Rattle.sb_snapshot.specs.Replies as replies;
ghost use Rattle.sb_snapshot.specs.Sessions as sessions;
ghost use Rattle.sb_snapshot.specs.Transactions as transactions;

use crate::clients::KeptPiece;
use crate::counted::Listed64;
use crate::entities::HeadPiece;
use crate::gathering::gathered;
use crate::leaves::LeafPiece;
use crate::parts::{EntityHead, Parts, PlacedLeaf, PlacedSession};
use crate::sessions::SessionPiece;
use crate::transactions::TransactionPiece;
use sb_codec::{Number64, Piece, Unread};
use sb_machine::{Kept, State, Transaction};
use sb_model::Rows;
use std::alloc::{AllocError, Global};

/// The state of this salt whose base is all of these bytes, if they are one's. Its consistency is
/// not judged.
#[tactic(auto, unfolding(crate::specs::Base::state_of))]
pub fn read_state(alloc: Global, salt: u64, bytes: &[u8]) -> Result<Option<State>, AllocError>
    ensures { IfOk result (λ o. o ≡ base.state_of salt bytes.now) }
{
    match read_parts(alloc, bytes) {
        Ok((parts, rest)) => {
            if rest.is_empty() {
                gathered(alloc, salt, parts)
            } else {
                Ok(None)
            }
        }
        Err(Unread::NoSpelling) => Ok(None),
        Err(Unread::Memory) => Err(AllocError),
    }
}

// What the base lists, and the bytes behind it.
#[tactic(auto, unfolding(crate::specs::Base::parts))]
fn read_parts(alloc: Global, bytes: &[u8]) -> Result<(Parts, &[u8]), Unread>
    ensures { Gives (λ x. (x.0, x.1.now)) result (base.parts.reads bytes.now) }
{
    let ((now, (last_lock, (last_txn, last_entity))), rest) = read_numbers(alloc, bytes)?;
    let ((entities, (leaves, removed)), rest) = read_entities(alloc, rest)?;
    match read_others(alloc, rest) {
        Ok(((sessions, (transactions, clients)), rest)) => {
            let parts = Parts {
                now,
                last_lock,
                last_txn,
                last_entity,
                entities,
                leaves,
                removed,
                sessions,
                transactions,
                clients,
            };
            Ok((parts, rest))
        }
        Err(unread) => {
            drop(entities);
            drop(leaves);
            Err(unread)
        }
    }
}

fn read_numbers(alloc: Global, bytes: &[u8]) -> Result<((u64, (u64, (u64, u64))), &[u8]), Unread>
    ensures { Gives (λ x. (x.0, x.1.now)) result ((number64 then number64 then number64 then number64).reads bytes.now) }
{
    let (now, rest) = Number64::take(alloc, bytes)?;
    let (last_lock, rest) = Number64::take(alloc, rest)?;
    let (last_txn, rest) = Number64::take(alloc, rest)?;
    let (last_entity, rest) = Number64::take(alloc, rest)?;
    Ok(((now, (last_lock, (last_txn, last_entity))), rest))
}

fn read_entities(
    alloc: Global,
    bytes: &[u8],
) -> Result<((Rows<EntityHead>, (Rows<PlacedLeaf>, u64)), &[u8]), Unread>
    ensures { Gives (λ x. (x.0, x.1.now)) result
        ((listed64 entities.is_next_head entities.head then listed64 any_next sessions.leaf then number64).reads bytes.now) }
{
    let (heads, rest) = Listed64::<HeadPiece>::take(alloc, bytes)?;
    let (leaves, rest) = Listed64::<LeafPiece>::take(alloc, rest)?;
    let (removed, rest) = Number64::take(alloc, rest)?;
    Ok(((heads, (leaves, removed)), rest))
}

fn read_others(
    alloc: Global,
    bytes: &[u8],
) -> Result<
    (
        (Rows<PlacedSession>, (Rows<Transaction>, Rows<Kept>)),
        &[u8],
    ),
    Unread,
>
    ensures { Gives (λ x. (x.0, x.1.now)) result
        ((listed64 sessions.is_next_session sessions.session
        then listed64 transactions.is_next_transaction transactions.transaction
        then listed64 replies.is_next_kept replies.kept).reads bytes.now) }
{
    let (placed, rest) = Listed64::<SessionPiece>::take(alloc, bytes)?;
    let (open, rest) = Listed64::<TransactionPiece>::take(alloc, rest)?;
    let (clients, rest) = Listed64::<KeptPiece>::take(alloc, rest)?;
    Ok(((placed, (open, clients)), rest))
}
