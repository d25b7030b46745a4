// Sends in a transaction to another entity than the transaction's.
ghost use Rattle.std.specs.Prelude.{◌≡◌};
ghost use Rattle.sb_entities.specs.Stores.{space_in};
ghost use Rattle.sb_machine.specs.Queueing.{open_in};
ghost use Rattle.sb_machine.specs.SendRow as sends;

use sb_entities::SpaceStore;
use sb_machine::Path;
use sb_names::is_same_entity;

/// Whether a send in a transaction goes to another entity than the transaction's.
pub fn is_via(space: &SpaceStore, to: &Path, txn: Option<u64>) -> bool
    ensures { result ≡ sends.is_via (space_in space.now) to.now (open_in txn (space_in space.now)) }
{
    let Some(number) = txn else {
        return false;
    };
    let Some(open) = space.txns().get(number) else {
        return false;
    };
    match space.entity(open.entity()) {
        Some(entity) => !is_same_entity(to, &entity.about().path),
        None => false,
    }
}
