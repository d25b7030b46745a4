// A state put together from what the base lists.
ghost use Rattle.std.specs.Prelude.{◌≡◌, ◌≤◌, map, drop, Some, None, IfOk, OnOk, IfSome, IfNone, IsTrue};
ghost use Rattle.std.specs.VecDeque.{deque_len};
ghost use Rattle.sb_snapshot.specs.Base as base;
ghost use Rattle.sb_snapshot.specs.Gathering as steps;

use crate::parts::{EntityHead, Parts, PlacedLeaf, PlacedSession};
use crate::sessions::is_same_key;
use sb_machine::{Entity, Leaf, LeafKey, Part, Session, Space, State};
use sb_model::Rows;
use std::alloc::{AllocError, Global};
use std::collections::VecDeque;

/// The state of this salt that these parts make, if they make one.
#[tactic(auto, unfolding(crate::specs::Base::gathered))]
pub(crate) fn gathered(alloc: Global, salt: u64, parts: Parts) -> Result<Option<State>, AllocError>
    ensures { IfOk result (λ o. o ≡ base.gathered salt parts) }
{
    let Parts {
        now,
        last_lock,
        last_txn,
        last_entity,
        entities,
        leaves,
        removed,
        sessions,
        transactions,
        clients,
    } = parts;
    let entities = match entities_with(alloc, entities, leaves, sessions) {
        Ok(Some(entities)) => entities,
        Ok(None) => {
            drop(transactions);
            drop(clients);
            return Ok(None);
        }
        Err(e) => {
            drop(transactions);
            drop(clients);
            return Err(e);
        }
    };
    let space = Space {
        salt,
        last_entity,
        last_lock,
        last_txn,
        removed,
        entities,
        transactions,
    };
    Ok(Some(State {
        now,
        clients,
        space,
    }))
}

// The entities with their parts and sessions.
fn entities_with(
    alloc: Global,
    heads: Rows<EntityHead>,
    leaves: Rows<PlacedLeaf>,
    sessions: Rows<PlacedSession>,
) -> Result<Option<Rows<Entity>>, AllocError>
    ensures { IfOk result (λ o. o ≡ base.entities_with heads leaves sessions) }
{
    let mut heads = VecDeque::from_vec(heads.into_vec());
    let mut leaves = VecDeque::from_vec(leaves.into_vec());
    let mut sessions = VecDeque::from_vec(sessions.into_vec());
    let mut entities = Rows::new(alloc);
    'next: while let Some(head) = heads.pop_front() {
        let Some(entity) = first_entity(alloc, head, &mut leaves, &mut sessions)? else {
            return Ok(None);
        };
        entities.push(entity)?;
    }
    if leaves.is_empty() && sessions.is_empty() {
        Ok(Some(entities))
    } else {
        Ok(None)
    }
}

// The entity of this head, with its parts and sessions from the front.
fn first_entity(
    alloc: Global,
    head: EntityHead,
    leaves: &mut VecDeque<PlacedLeaf>,
    sessions: &mut VecDeque<PlacedSession>,
) -> Result<Option<Entity>, AllocError>
    ensures found { IfOk result (λ o. IfSome o (λ e. steps.first_entity head leaves.old.items sessions.old.items ≡ Some (e, (leaves.new.items, sessions.new.items)))) }
    ensures none { IfOk result (λ o. IfNone o (steps.first_entity head leaves.old.items sessions.old.items ≡ None)) }
{
    let Some((main, dead, transfer)) = first_three(leaves) else {
        drop(head);
        return Ok(None);
    };
    if !has_parts(&head, &main, &dead, &transfer) {
        drop(head);
        drop(main);
        drop(dead);
        drop(transfer);
        return Ok(None);
    }
    match leaves_with(alloc, main, dead, transfer, sessions) {
        Ok((main, dead, transfer)) => {
            let EntityHead { about, ids } = head;
            Ok(Some(Entity {
                about,
                ids,
                main,
                dead,
                transfer,
            }))
        }
        Err(e) => {
            drop(head);
            Err(e)
        }
    }
}

fn first_three(leaves: &mut VecDeque<PlacedLeaf>) -> Option<(PlacedLeaf, PlacedLeaf, PlacedLeaf)>
    ensures three { result ≡ steps.first_three leaves.old.items }
    ensures rest { IfSome result (λ _. leaves.new.items ≡ drop 3 leaves.old.items) }
{
    let Some(main) = leaves.pop_front() else {
        return None;
    };
    let Some(dead) = leaves.pop_front() else {
        drop(main);
        return None;
    };
    let Some(transfer) = leaves.pop_front() else {
        drop(main);
        drop(dead);
        return None;
    };
    Some((main, dead, transfer))
}

fn is_part(head: &EntityHead, part: Part, leaf: &PlacedLeaf) -> bool
    ensures { result ≡ base.is_part head.now part leaf.now }
{
    let key = LeafKey {
        entity: head.about.number,
        part,
    };
    is_same_key(&leaf.key, &key)
}

fn has_parts(head: &EntityHead, main: &PlacedLeaf, dead: &PlacedLeaf, transfer: &PlacedLeaf) -> bool
    ensures { result ≡ base.has_parts head.now main.now dead.now transfer.now }
{
    is_part(head, Part::Main, main)
        && is_part(head, Part::Dead, dead)
        && is_part(head, Part::Transfer, transfer)
}

// Three parts, each with the sessions at the front that lie in it.
fn leaves_with(
    alloc: Global,
    main: PlacedLeaf,
    dead: PlacedLeaf,
    transfer: PlacedLeaf,
    sessions: &mut VecDeque<PlacedSession>,
) -> Result<(Leaf, Leaf, Leaf), AllocError>
    ensures leaves { IfOk result (λ l. l ≡ steps.leaves_with main dead transfer sessions.old.items) }
    ensures rest { OnOk result (sessions.new.items ≡ steps.behind_three main dead transfer sessions.old.items) }
{
    let main = match leaf_with(alloc, main, sessions) {
        Ok(main) => main,
        Err(e) => {
            drop(dead);
            drop(transfer);
            return Err(e);
        }
    };
    let dead = match leaf_with(alloc, dead, sessions) {
        Ok(dead) => dead,
        Err(e) => {
            drop(main);
            drop(transfer);
            return Err(e);
        }
    };
    match leaf_with(alloc, transfer, sessions) {
        Ok(transfer) => Ok((main, dead, transfer)),
        Err(e) => {
            drop(main);
            drop(dead);
            Err(e)
        }
    }
}

// A part with the sessions at the front that lie in it.
fn leaf_with(
    alloc: Global,
    leaf: PlacedLeaf,
    sessions: &mut VecDeque<PlacedSession>,
) -> Result<Leaf, AllocError>
    ensures leaf { IfOk result (λ l. l ≡ base.leaf_with leaf sessions.old.items) }
    ensures rest { OnOk result (sessions.new.items ≡ base.behind leaf.key sessions.old.items) }
{
    let PlacedLeaf { key, last, copies } = leaf;
    let sessions = front_of(alloc, &key, sessions)?;
    Ok(Leaf {
        last,
        copies,
        sessions,
    })
}

// The sessions at the front that lie in this part.
fn front_of(
    alloc: Global,
    key: &LeafKey,
    left: &mut VecDeque<PlacedSession>,
) -> Result<Rows<Session>, AllocError>
    ensures front { IfOk result (λ r. r ≡ map (λ x. x.session) (base.front_of key.now left.old.items)) }
    ensures rest { OnOk result (left.new.items ≡ base.behind key.now left.old.items) }
{
    let mut front = Rows::new(alloc);
    'next: while starts_in(key, left) {
        let Some(placed) = left.pop_front() else {
            break 'next;
        };
        front.push(placed.session)?;
    }
    Ok(front)
}

fn starts_in(key: &LeafKey, left: &VecDeque<PlacedSession>) -> bool
    ensures is { result ≡ steps.starts_in key.now left.now.items }
    ensures there { IsTrue result → 1 ≤ deque_len left.now }
{
    match left.front() {
        Some(first) => is_same_key(&first.key, key),
        None => false,
    }
}
