// When something of an entity comes due by itself, in ms since 1970.
ghost use Rattle.std.specs.Prelude.{◌≡◌, ◌++◌, find, map, IfOk};
ghost use Rattle.std.specs.Option.{option_map};
ghost use Rattle.sb_machine.specs.Each.{IsSorted};
ghost use Rattle.sb_entities.specs.DueRows as spec;
ghost use Rattle.sb_entities.specs.EntityDues.{due_entities, entity_due, least_due_of};
ghost use Rattle.sb_entities.specs.Stores.{entities_in, entity_in, space_in};
ghost use Rattle.sb_entities.specs.Tables.{is_earlier};

use crate::entity::EntityStore;
use crate::rows::numbered;
use crate::space::SpaceStore;
use sb_index::{Index, Row};
use std::alloc::{AllocError, Global};

/// The last moment that there is.
pub const NEVER: u64 = u64::MAX;

impl SpaceStore {
    /// The entities of which something has come due by `moment`, in ms since 1970, in order of
    /// number: no other is looked at.
    pub fn due_by(&self, moment: u64) -> Result<Vec<&EntityStore>, AllocError>
        ensures { IfOk result (λ found. map (λ e. entity_in e.now) found.items ≡ due_entities moment (space_in self.now).entities) }
    {
        self.entities.due_by(self.alloc, moment)
    }

    /// The least moment at which something of an entity comes due, in ms since 1970; `u64::MAX`
    /// where nothing ever does.
    pub fn least_due(&self) -> u64
        ensures { result ≡ least_due_of (space_in self.now).entities }
    {
        self.entities.least_due()
    }
}

// ---- rows by number

/// The row of an entity.
pub fn row_of(entity: &EntityStore) -> Row
    ensures { result ≡ spec.due_row (entity_in entity.now) }
{
    let number = entity.about().number;
    Row {
        key: u128::from(number),
        value: number,
        marked: false,
        due: entity.due(),
    }
}

/// Tells when the entity of this number comes due.
pub fn tell(dues: &mut Index, rows: &[EntityStore], number: u64)
    requires { IsSorted is_earlier rows.now }
    ensures rows { dues.new.rows ≡ spec.told_due number (entities_in rows.now) dues.old.rows }
    ensures spare { dues.new.spare ≡ dues.old.spare }
{
    if let Some(entity) = numbered(rows, number) {
        dues.change(u128::from(number), false, entity.due());
    }
}

// ---- of numbers

/// The entities of these numbers, in their order.
pub fn entities_of<'a>(
    alloc: Global,
    rows: &'a [EntityStore],
    numbers: &[u64],
) -> Result<Vec<&'a EntityStore>, AllocError>
    requires { IsSorted is_earlier rows.now }
    ensures { IfOk result (λ found. map (λ e. entity_in e.now) found.items ≡ spec.those_of numbers.now (entities_in rows.now)) }
{
    let mut found = Vec::new(alloc);
    for number in numbers {
        found = with_one(found, rows, *number)?;
    }
    Ok(found)
}

#[tactic(auto, using(crate::proofs::WhenDue::one_more_there, crate::proofs::WhenDue::none_there))]
fn with_one<'a>(
    found: Vec<&'a EntityStore>,
    rows: &'a [EntityStore],
    number: u64,
) -> Result<Vec<&'a EntityStore>, AllocError>
    requires { IsSorted is_earlier rows.now }
    ensures { IfOk result (λ v. map (λ e. entity_in e.now) v.items ≡ map (λ e. entity_in e.now) found.entry.items ++ spec.one_of number (entities_in rows.now)) }
{
    let mut found = found;
    if let Some(entity) = numbered(rows, number) {
        found.push(entity)?;
    }
    Ok(found)
}
