// Whether something is due, and when the next thing is.
ghost use Rattle.std.specs.Prelude.{◌≡◌, nat_le};
ghost use Rattle.std.specs.List.{list_any};
ghost use Rattle.sb_machine.specs.Due as machine;
ghost use Rattle.sb_entities.specs.Stores.{leaf_in, entity_in, entities_in, space_in};
ghost use Rattle.sb_txn.specs.Txns.{transactions_of};
ghost use Rattle.sb_engine.specs.Deadlines as spec;

use crate::time::deadlines::{copy_deadline, has_passed, session_deadline};
use sb_copies::Shelf;
use sb_entities::{EntityStore, PartStore, SpaceStore};
use sb_machine::{Part, Session, StoredCopy};
use sb_txn::OpenTransaction;

fn copy_comes(part: Part, copy: &StoredCopy, moment: u64) -> bool
    ensures { result ≡ spec.has_passed moment (spec.copy_deadline part copy.now) }
{
    has_passed(copy_deadline(part, copy), moment)
}

// Looks at one copy after another, and takes no memory.
fn any_copy(part: Part, copies: &Shelf, moment: u64) -> bool
    ensures { result ≡ list_any (λ c. spec.has_passed moment (spec.copy_deadline part c)) copies.now.copies }
{
    copies.rises();
    let mut from: u128 = 0;
    'copies: while let Some(copy) = copies.first_from(from) {
        if copy_comes(part, copy, moment) {
            return true;
        }
        from = u128::from(copy.number) + 1;
    }
    false
}

/// Whether the lock of one of these sessions has ended by `moment`, in ms since 1970.
pub fn any_session(sessions: &[Session], moment: u64) -> bool
    ensures { result ≡ list_any (λ x. spec.has_passed moment (spec.session_deadline x)) sessions.now }
{
    sessions
        .iter()
        .any(|x| has_passed(session_deadline(x), moment))
}

fn comes_in(part: Part, store: &PartStore, moment: u64) -> bool
    ensures { result ≡ spec.comes_in moment part (leaf_in store.now) }
{
    any_session(store.sessions().as_slice(), moment) || any_copy(part, store.copies(), moment)
}

fn comes_of(entity: &EntityStore, moment: u64) -> bool
    ensures { result ≡ spec.comes_of moment (entity_in entity.now) }
{
    comes_in(Part::Main, entity.part(Part::Main), moment)
        || comes_in(Part::Dead, entity.part(Part::Dead), moment)
        || comes_in(Part::Transfer, entity.part(Part::Transfer), moment)
}

fn any_entity(entities: &[EntityStore], moment: u64) -> bool
    ensures { result ≡ list_any (spec.comes_of moment) (entities_in entities.now) }
{
    for entity in entities {
        if comes_of(entity, moment) {
            return true;
        }
    }
    false
}

fn any_transaction(rows: &[OpenTransaction], moment: u64) -> bool
    ensures { result ≡ list_any (λ x. nat_le x.deadline moment) (transactions_of rows.now) }
{
    for row in rows {
        if row.deadline() <= moment {
            return true;
        }
    }
    false
}

// Looks at each copy, session and transaction.
fn comes(space: &SpaceStore, moment: u64) -> bool
    ensures { result ≡ spec.comes moment (space_in space.now) }
{
    any_entity(space.entities(), moment) || any_transaction(space.txns().as_slice(), moment)
}

fn least_deadline(rows: &[OpenTransaction]) -> u64
    ensures { result ≡ spec.least_deadline (transactions_of rows.now) }
{
    let mut least = u64::MAX;
    for row in rows {
        least = least.min(row.deadline());
    }
    least
}

/// The first moment at which something is due, in ms since 1970; `u64::MAX` where nothing ever is.
/// This looks at each open transaction, at no entity.
pub fn soonest(space: &SpaceStore) -> u64
    ensures { result ≡ spec.soonest (space_in space.now) }
{
    space
        .least_due()
        .min(least_deadline(space.txns().as_slice()))
}

/// Whether something is due at `moment`, in ms since 1970. At the last moment that there is the
/// soonest one doesn't tell: it is the same where nothing ever is due.
pub fn is_due(space: &SpaceStore, moment: u64) -> bool
    ensures { result ≡ machine.is_due moment (space_in space.now) }
{
    if moment < u64::MAX {
        return soonest(space) <= moment;
    }
    comes(space, moment)
}
