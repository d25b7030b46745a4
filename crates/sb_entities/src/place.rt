// At which place a change needs a slot.
ghost use Rattle.std.specs.Prelude.{◌≡◌};
ghost use Rattle.sb_entities.specs.Places as spec;

use sb_machine::{Change, LeafChange, Part, Standing};

/// What a part promises slots to.
#[derive(Clone, Copy)]
pub enum PartPlace {
    Copies,
    Sessions,
    /// The locks under which its copies are held.
    Locks,
}

/// What an entity promises slots to.
#[derive(Clone, Copy)]
pub enum EntityPlace {
    OfPart(Part, PartPlace),
    Ids,
    Rules,
}

/// What a namespace promises slots to.
#[derive(Clone, Copy)]
pub enum Place {
    Entities,
    Transactions,
    /// In the entity of this number.
    InEntity(u64, EntityPlace),
    /// Operations of the transaction of this number.
    InTransaction(u64),
}

fn part_place(change: &LeafChange) -> Option<PartPlace>
    ensures { result ≡ spec.part_place change.now }
{
    match change {
        LeafChange::Enters(_) => Some(PartPlace::Copies),
        LeafChange::Opens { .. } => Some(PartPlace::Sessions),
        LeafChange::Holds { .. } => Some(PartPlace::Locks),
        LeafChange::Stands { standing, .. } => place_to_stand(*standing),
        _ => None,
    }
}

fn place_to_stand(standing: Standing) -> Option<PartPlace>
    ensures { result ≡ spec.place_to_stand standing }
{
    match standing {
        Standing::Held { .. } => Some(PartPlace::Locks),
        _ => None,
    }
}

fn place_in_part(entity: u64, part: Part, change: &LeafChange) -> Option<Place>
    ensures { result ≡ spec.place_in_part entity part change.now }
{
    let place = part_place(change)?;
    Some(Place::InEntity(entity, EntityPlace::OfPart(part, place)))
}

/// Where a change needs a slot.
pub fn place_of(change: &Change) -> Option<Place>
    ensures { result ≡ spec.place_of change.now }
{
    match change {
        Change::InLeaf { key, change } => place_in_part(key.entity, key.part, change),
        Change::Notes { entity, .. } => Some(Place::InEntity(*entity, EntityPlace::Ids)),
        Change::AddsRule { entity, .. } => Some(Place::InEntity(*entity, EntityPlace::Rules)),
        Change::Makes { .. } => Some(Place::Entities),
        Change::Begins { .. } => Some(Place::Transactions),
        Change::Queues { txn, .. } => Some(Place::InTransaction(*txn)),
        _ => None,
    }
}
