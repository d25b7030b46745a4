// The base of a state: how long it is, and its bytes.
ghost use Rattle.std.specs.Prelude.{◌≡◌, ◌<◌, ◌^◌, ◌++◌, ℕ, List, length, map, IfOk, OnOk};
ghost use Rattle.std.specs.List.{flat_map};
ghost use Rattle.sb_codec.specs.Forms.{◌then◌, number64, Puts};
ghost use Rattle.sb_codec.specs.Messages.{any_next};
ghost use Rattle.sb_entities.specs.Stores.{space_in};
ghost use Rattle.sb_snapshot.specs.Base.{base_of, head_of, leaves_in, sessions_in, HasSpelling, IsSpellable};
ghost use Rattle.sb_snapshot.specs.Entities.{head, is_next_head};
ghost use Rattle.sb_snapshot.specs.Lists.{listed64};
ghost use Rattle.sb_snapshot.specs.Replies.{is_next_kept, kept};
ghost use Rattle.sb_snapshot.specs.Sessions.{is_next_session, leaf, session};
ghost use Rattle.sb_snapshot.specs.Transactions.{is_next_transaction, transaction};
ghost use Rattle.sb_checkpoint.specs.Counts.{IsCount};
ghost use Rattle.sb_checkpoint.specs.Stores.{held_state};
ghost use Rattle.sb_checkpoint.specs.Refusals.{OnRefused};
ghost use Rattle.sb_checkpoint.specs.Takings.{Takes};

use crate::clients::put_clients;
use crate::counting::Counter;
use crate::heads::put_heads;
use crate::items::{put_bytes, put_number};
use crate::leaves::put_leaves;
use crate::sessions::put_sessions;
use crate::transactions::put_transactions;
use crate::{Held, Pieces, Unput};
use sb_codec::{Number64, Piece, put_fields};
use sb_entities::SpaceStore;
use std::alloc::{AllocError, Global};

/// How many bytes the base of this state has; `None` where they are more than 64 bits count.
pub fn base_length(alloc: Global, held: &Held<'_>) -> Result<Option<u64>, AllocError>
    requires { IsSpellable (held_state held.now) }
    ensures { IfOk result (λ n. IsCount n (length (base_of (held_state held.now)))) }
{
    let mut counter = Counter { length: Some(0) };
    match write_base(alloc, held, &mut counter) {
        Ok(()) => Ok(counter.length),
        Err(Unput::Memory) => Err(AllocError),
        Err(Unput::Refused) => unreachable!(),
    }
}

/// Hands the base of this state on, a piece after another. Beside the state no more stands in memory than one of the
/// items that it lists, and the places of the messages of one part.
pub fn write_base<P: Pieces>(alloc: Global, held: &Held<'_>, out: &mut P) -> Result<(), Unput>
    // A consistent state has it, as `consistent_is_written` of sb_snapshot says.
    requires { IsSpellable (held_state held.now) }
    ensures since { P.since out.new ≡ P.since out.old }
    ensures stays { P.stays out.old → P.stays out.new }
    ensures has { (text : List ℕ) → P.has out.old text → OnOk result (P.has out.new (text ++ base_of (held_state held.now))) }
    // What was written whole is read back: its counts fit, since it isn't longer than 64 bits count.
    ensures spelled { length (base_of (held_state held.now)) < 2 ^ 64 → OnOk result (HasSpelling (held_state held.now)) }
    ensures refused { OnRefused result (P.refuses out.new) }
{
    let mut scratch = Vec::new(alloc);
    put_state(held, &mut scratch, out)
}

// All of it, in the order of the base.
#[tactic(auto, unfolding(sb_snapshot::specs::Base::parts))]
fn put_state<P: Pieces>(held: &Held<'_>, scratch: &mut Vec<u8>, out: &mut P) -> Result<(), Unput>
    requires { IsSpellable (held_state held.now) }
    ensures takes { Takes P.Pieces out.old out.new (base_of (held_state held.now)) result }
    ensures fits { length (base_of (held_state held.now)) < 2 ^ 64 → OnOk result (HasSpelling (held_state held.now)) }
{
    put_numbers(held, scratch, out)?;
    put_entities(held.space, scratch, out)?;
    put_rest(held, scratch, out)
}

// The moment, and the last numbers given.
fn put_numbers<P: Pieces>(held: &Held<'_>, scratch: &mut Vec<u8>, out: &mut P) -> Result<(), Unput>
    ensures takes { let s = held_state held.now in Takes P.Pieces out.old out.new
        ((number64 then number64 then number64 then number64).spell (s.now, (s.space.last_lock, (s.space.last_txn, s.space.last_entity)))) result }
    ensures fits { let s = held_state held.now in OnOk result
        ((number64 then number64 then number64 then number64).Fits (s.now, (s.space.last_lock, (s.space.last_txn, s.space.last_entity)))) }
{
    scratch.clear();
    spell_numbers(held, scratch)?;
    put_bytes(scratch, out)
}

fn spell_numbers(held: &Held<'_>, out: &mut Vec<u8>) -> Result<(), AllocError>
    ensures puts { let s = held_state held.now in Puts
        ((number64 then number64 then number64 then number64).spell (s.now, (s.space.last_lock, (s.space.last_txn, s.space.last_entity)))) out.old out.new result }
    ensures fits { let s = held_state held.now in OnOk result
        ((number64 then number64 then number64 then number64).Fits (s.now, (s.space.last_lock, (s.space.last_txn, s.space.last_entity)))) }
{
    let space = held.space;
    put_fields!(out,
        &held.moment => Number64,
        &space.last_lock() => Number64,
        &space.last_txn() => Number64,
        &space.last_entity() => Number64)
}

// The entities, and their parts.
fn put_entities<P: Pieces>(
    space: &SpaceStore,
    scratch: &mut Vec<u8>,
    out: &mut P,
) -> Result<(), Unput>
    requires { let s = space_in space.now in (listed64 is_next_head head then listed64 any_next leaf).Asks (map head_of s.entities, flat_map leaves_in s.entities) }
    ensures takes { let s = space_in space.now in Takes P.Pieces out.old out.new
        ((listed64 is_next_head head then listed64 any_next leaf).spell (map head_of s.entities, flat_map leaves_in s.entities)) result }
    ensures fits { let s = space_in space.now in length (flat_map leaves_in s.entities) < 2 ^ 64 → OnOk result
        ((listed64 is_next_head head then listed64 any_next leaf).Fits (map head_of s.entities, flat_map leaves_in s.entities)) }
{
    put_heads(space, scratch, out)?;
    put_leaves(space, scratch, out)
}

// What was removed, the sessions, the transactions and what is kept of clients.
fn put_rest<P: Pieces>(held: &Held<'_>, scratch: &mut Vec<u8>, out: &mut P) -> Result<(), Unput>
    requires { let s = held_state held.now in
        (number64 then listed64 is_next_session session then listed64 is_next_transaction transaction then listed64 is_next_kept kept).Asks
        (s.space.removed, (flat_map sessions_in s.space.entities, (s.space.transactions, s.clients))) }
    ensures takes { let s = held_state held.now in Takes P.Pieces out.old out.new
        ((number64 then listed64 is_next_session session then listed64 is_next_transaction transaction then listed64 is_next_kept kept).spell
        (s.space.removed, (flat_map sessions_in s.space.entities, (s.space.transactions, s.clients)))) result }
    ensures fits { let s = held_state held.now in length (flat_map sessions_in s.space.entities) < 2 ^ 64 → OnOk result
        ((number64 then listed64 is_next_session session then listed64 is_next_transaction transaction then listed64 is_next_kept kept).Fits
        (s.space.removed, (flat_map sessions_in s.space.entities, (s.space.transactions, s.clients)))) }
{
    put_number(held.space.removed(), scratch, out)?;
    put_lists(held, scratch, out)
}

fn put_lists<P: Pieces>(held: &Held<'_>, scratch: &mut Vec<u8>, out: &mut P) -> Result<(), Unput>
    requires { let s = held_state held.now in
        (listed64 is_next_session session then listed64 is_next_transaction transaction then listed64 is_next_kept kept).Asks
        (flat_map sessions_in s.space.entities, (s.space.transactions, s.clients)) }
    ensures takes { let s = held_state held.now in Takes P.Pieces out.old out.new
        ((listed64 is_next_session session then listed64 is_next_transaction transaction then listed64 is_next_kept kept).spell
        (flat_map sessions_in s.space.entities, (s.space.transactions, s.clients))) result }
    ensures fits { let s = held_state held.now in length (flat_map sessions_in s.space.entities) < 2 ^ 64 → OnOk result
        ((listed64 is_next_session session then listed64 is_next_transaction transaction then listed64 is_next_kept kept).Fits
        (flat_map sessions_in s.space.entities, (s.space.transactions, s.clients))) }
{
    put_sessions(held.space, scratch, out)?;
    put_transactions(held.space, scratch, out)?;
    put_clients(held.clients, scratch, out)
}
