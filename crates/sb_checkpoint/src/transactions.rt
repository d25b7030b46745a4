// The open transactions, each with what it has queued.
ghost use Rattle.std.specs.Prelude.{◌<◌, ◌^◌, length, OnOk};
ghost use Rattle.std.specs.List.{All, flat_map};
ghost use Rattle.sb_codec.specs.Forms.{◌then◌, number32, number64};
ghost use Rattle.sb_entities.specs.Stores.{space_in};
ghost use Rattle.sb_snapshot.specs.Lists.{listed64};
ghost use Rattle.sb_snapshot.specs.Transactions.{is_next_transaction, transaction};
ghost use Rattle.sb_txn.specs.Txns.{transactions_of};
ghost use Rattle.sb_checkpoint.specs.Takings.{Takes};

use crate::items::{put_bytes, put_items, put_number};
use crate::{Pieces, Unput};
use sb_entities::SpaceStore;
use sb_snapshot::{OperationPiece, put_transaction_head};
use sb_txn::OpenTransaction;

/// Hands the open transactions on, by number.
pub(crate) fn put_transactions<P: Pieces>(
    space: &SpaceStore,
    scratch: &mut Vec<u8>,
    out: &mut P,
) -> Result<(), Unput>
    requires { (listed64 is_next_transaction transaction).Asks (space_in space.now).transactions }
    ensures takes { Takes P.Pieces out.old out.new ((listed64 is_next_transaction transaction).spell (space_in space.now).transactions) result }
    ensures fits { OnOk result ((listed64 is_next_transaction transaction).Fits (space_in space.now).transactions) }
{
    let txns = space.txns().as_slice();
    put_number(txns.len() as u64, scratch, out)?;
    put_each(txns, scratch, out)
}

fn put_each<P: Pieces>(
    txns: &[OpenTransaction],
    scratch: &mut Vec<u8>,
    out: &mut P,
) -> Result<(), Unput>
    requires { All transaction.Asks (transactions_of txns.now) }
    ensures takes { Takes P.Pieces out.old out.new (flat_map transaction.spell (transactions_of txns.now)) result }
    ensures fits { OnOk result (All transaction.Fits (transactions_of txns.now)) }
{
    for txn in txns {
        put_one(txn, scratch, out)?;
    }
    Ok(())
}

#[tactic(auto, unfolding(sb_snapshot::specs::Transactions::transaction))]
fn put_one<P: Pieces>(
    txn: &OpenTransaction,
    scratch: &mut Vec<u8>,
    out: &mut P,
) -> Result<(), Unput>
    requires { transaction.Asks txn.now.transaction }
    ensures takes { Takes P.Pieces out.old out.new (transaction.spell txn.now.transaction) result }
    ensures fits { OnOk result (transaction.Fits txn.now.transaction) }
{
    put_front(txn, scratch, out)?;
    put_items::<OperationPiece, P>(txn.operations(), scratch, out)
}

// What stands before the operations of a transaction.
fn put_front<P: Pieces>(
    txn: &OpenTransaction,
    scratch: &mut Vec<u8>,
    out: &mut P,
) -> Result<(), Unput>
    requires { length txn.now.transaction.operations < 2 ^ 32 }
    ensures takes { let t = txn.now.transaction in Takes P.Pieces out.old out.new
        ((number64 then number64 then number64 then number32).spell (t.number, (t.entity, (t.deadline, length t.operations)))) result }
    ensures fits { let t = txn.now.transaction in OnOk result
        ((number64 then number64 then number64 then number32).Fits (t.number, (t.entity, (t.deadline, length t.operations)))) }
{
    let count = txn.operations().len() as u64;
    scratch.clear();
    put_transaction_head(
        &txn.number(),
        &txn.entity(),
        &txn.deadline(),
        &count,
        scratch,
    )?;
    put_bytes(scratch, out)
}
