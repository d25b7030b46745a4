// The open transactions, as a list shows them.
ghost use Rattle.std.specs.Prelude.{◌≡◌, map, IfOk};
ghost use Rattle.std.specs.Option.{option_map};
ghost use Rattle.sb_machine.specs.Looks as looks;
ghost use Rattle.sb_machine.specs.Namespace.{entity_of};
ghost use Rattle.sb_txn.specs.Txns.{transactions_of};
ghost use Rattle.sb_entities.specs.Stores.{space_in};

use crate::space::SpaceStore;
use sb_machine::{Path, TransactionShown};
use sb_model::Rows;
use sb_txn::OpenTransaction;
use std::alloc::{AllocError, Global};

impl SpaceStore {
    /// The open transactions as a list shows them.
    pub fn transactions_shown(&self, alloc: Global) -> Result<Rows<TransactionShown>, AllocError>
        ensures { IfOk result (λ x. x ≡ map (looks.transaction_shown (space_in self.now)) (space_in self.now).transactions) }
    {
        all_shown(alloc, self, self.txns().as_slice())
    }
}

fn all_shown(
    alloc: Global,
    space: &SpaceStore,
    rows: &[OpenTransaction],
) -> Result<Rows<TransactionShown>, AllocError>
    ensures { IfOk result (λ x. x ≡ map (looks.transaction_shown (space_in space.now)) (transactions_of rows.now)) }
{
    let mut shown = Rows::new(alloc);
    for row in rows {
        let one = row_shown(space, row)?;
        shown.push(one)?;
    }
    Ok(shown)
}

fn row_shown(space: &SpaceStore, row: &OpenTransaction) -> Result<TransactionShown, AllocError>
    ensures { IfOk result (λ x. x ≡ looks.transaction_shown (space_in space.now) row.now.transaction) }
{
    Ok(TransactionShown {
        number: row.number(),
        entity: path_of(space, row.entity())?,
        deadline: row.deadline(),
        operations: row.operations().len() as u64,
    })
}

// The address of the entity of this number.
fn path_of(space: &SpaceStore, number: u64) -> Result<Option<Path>, AllocError>
    ensures { IfOk result (λ p. p ≡ option_map (λ e. e.about.path) (entity_of number (space_in space.now))) }
{
    match space.entity(number) {
        Some(entity) => Ok(Some(entity.about().path.clone()?)),
        None => Ok(None),
    }
}
