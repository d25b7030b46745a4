// A namespace in memory, made at once of what stands in one.
ghost use Rattle.std.specs.Prelude.{◌≡◌, ◌<◌, ◌≤◌, ◌++◌, ◌∷◌, [], sum_by, IfOk, OnOk};
ghost use Rattle.sb_machine.specs.Changes.{max_number};
ghost use Rattle.sb_machine.specs.Each.{Each};
ghost use Rattle.sb_machine.specs.Keyed.{AreRising};
ghost use Rattle.sb_machine.specs.Namespace.{live_in, made_in};
ghost use Rattle.sb_entities.specs.Stores.{entities_in, entity_in, space_in};
ghost use Rattle.sb_entities.specs.Tables.{number_of};
ghost use Rattle.sb_entities.specs.Whole.{IsHoldable, IsOrdered};

use crate::entities::Entities;
use crate::entity::EntityStore;
use crate::space::SpaceStore;
use sb_machine::{Entity, Space};
use sb_model::Rows;
use sb_txn::Txns;
use std::alloc::{AllocError, Global};
use std::collections::VecDeque;

impl SpaceStore {
    /// A namespace in memory that is this one.
    pub fn from_space(alloc: Global, space: Space) -> Result<SpaceStore, AllocError>
        requires { IsHoldable space }
        ensures { IfOk result (λ s. space_in s ≡ space) }
    {
        let Space {
            salt,
            last_entity,
            last_lock,
            last_txn,
            removed,
            entities,
            transactions,
        } = space;
        let entities = entities_of(alloc, last_entity, entities)?;
        let txns = Txns::from_rows(alloc, transactions)?;
        let live = copies_of(entities.as_slice());
        let made = removed + numbers_of(entities.as_slice());
        Ok(SpaceStore {
            alloc,
            salt,
            last_lock,
            last_txn,
            removed,
            live,
            made,
            entities,
            txns,
        })
    }
}

// ---- its entities

// `last` is the last number given to one.
fn entities_of(alloc: Global, last: u64, entities: Rows<Entity>) -> Result<Entities, AllocError>
    requires numbers { AreRising number_of 0 last entities }
    requires ordered { Each IsOrdered entities }
    ensures rows { IfOk result (λ s. entities_in s.rows ≡ entities) }
    ensures last { IfOk result (λ s. s.last ≡ last) }
{
    let mut made = Entities::new(alloc);
    let mut left = VecDeque::from_vec(entities.into_vec());
    while let Some(entity) = left.pop_front() {
        add(alloc, &mut made, entity)?;
    }
    drop(left);
    made.pass(last);
    Ok(made)
}

// Puts an entity of a higher number behind all others.
fn add(alloc: Global, made: &mut Entities, entity: Entity) -> Result<(), AllocError>
    requires above { made.old.last < number_of entity }
    requires ordered { IsOrdered entity }
    ensures rows { OnOk result (entities_in made.new.rows ≡ entities_in made.old.rows ++ entity ∷ []) }
    ensures last { OnOk result (made.new.last ≡ number_of entity) }
{
    let entity = EntityStore::from_entity(alloc, entity)?;
    let Ok(()) = made.reserve() else {
        drop(entity);
        return Err(AllocError);
    };
    put(made, entity);
    Ok(())
}

fn put(made: &mut Entities, entity: EntityStore)
    requires room { 1 ≤ made.old.spare }
    requires above { made.old.last < number_of (entity_in entity) }
    ensures rows { made.new.rows ≡ made.old.rows ++ entity ∷ [] }
    ensures last { made.new.last ≡ number_of (entity_in entity) }
{
    made.pass(entity.about().number - 1);
    made.push(entity);
}

// ---- its counts

// The copies that live in their parts.
fn copies_of(rows: &[EntityStore]) -> u64
    requires { sum_by live_in (entities_in rows.now) ≤ max_number }
    ensures { result ≡ sum_by live_in (entities_in rows.now) }
{
    let mut all = 0;
    for entity in rows {
        all += entity.copies();
    }
    all
}

// The copy numbers given in their parts.
fn numbers_of(rows: &[EntityStore]) -> u64
    requires { sum_by made_in (entities_in rows.now) ≤ max_number }
    ensures { result ≡ sum_by made_in (entities_in rows.now) }
{
    let mut all = 0;
    for entity in rows {
        all += entity.numbers();
    }
    all
}
