// Open transactions, each with what it has queued.
ghost use Rattle.std.specs.Prelude.{◌≡◌, OnOk};
ghost use Rattle.std.specs.Option.{option_copied};
ghost use Rattle.sb_codec.specs.Forms.{Form, Puts, ◌then◌, number32, number64};
ghost use Rattle.sb_codec.specs.Messages.{any_next};
ghost use Rattle.sb_codec.specs.Readers.{Gives};
ghost use Rattle.sb_snapshot.specs.Transactions as transactions;

use crate::coded::split_code;
use sb_codec::{
    HowPiece, Item, Listed, MessagePiece, Number32, Number64, Opt, PathPiece, Piece, TokenPiece,
    Unread, put_fields, take_fields,
};
use sb_machine::{How, Operation, Path, Token, Transaction};
use std::alloc::{AllocError, Global};

// The fields of a settlement.
fn put_settlement(
    from: &Path,
    number: &u64,
    token: &Token,
    session: &Option<Token>,
    how: &How,
    out: &mut Vec<u8>,
) -> Result<(), AllocError>
    requires { transactions.settle.form.Asks (from.now, (number.now, (token.now, (session.now, how.now)))) }
    ensures puts { Puts (transactions.settle.form.spell (from.now, (number.now, (token.now, (session.now, how.now))))) out.old out.new result }
    ensures fits { OnOk result (transactions.settle.form.Fits (from.now, (number.now, (token.now, (session.now, how.now))))) }
{
    put_fields!(out, from => PathPiece, number => Number64, token => TokenPiece, session => Opt<TokenPiece>, how => HowPiece)
}

/// What a transaction has queued.
pub struct OperationPiece;

impl Piece for OperationPiece {
    type Value = Operation;

    ghost form = { transactions.operation };

    #[tactic(auto, unfolding(crate::specs::Transactions::operation))]
    fn put(value: &Operation, out: &mut Vec<u8>) -> Result<(), AllocError> {
        match value {
            Operation::Send { to, messages } => {
                out.push(0)?;
                put_fields!(out, to => PathPiece, messages => Listed<MessagePiece>)
            }
            Operation::Settle {
                from,
                number,
                token,
                session,
                how,
            } => {
                out.push(1)?;
                put_settlement(from, number, token, session, how, out)
            }
        }
    }

    #[tactic(auto, unfolding(crate::specs::Transactions::operation, sb_codec::specs::Forms::chosen_at))]
    fn take(alloc: Global, bytes: &[u8]) -> Result<(Operation, &[u8]), Unread> {
        let Some((code, rest)) = split_code(bytes) else {
            return Err(Unread::NoSpelling);
        };
        match code {
            0 =>
                take_fields!(alloc, rest, Operation::Send { to: PathPiece, messages: Listed<MessagePiece> }),
            1 => take_fields!(alloc, rest, Operation::Settle {
                from: PathPiece,
                number: Number64,
                token: TokenPiece,
                session: Opt<TokenPiece>,
                how: HowPiece
            }),
            _ => Err(Unread::NoSpelling),
        }
    }
}

impl Item for OperationPiece {
    ghost follows = { any_next };

    fn follows(_last: Option<&Operation>, _next: &Operation) -> bool {
        true
    }
}

/// Adds what stands before the operations of a transaction: its number, its entity's, the moment at
/// which it ends, and how many operations it has queued.
pub fn put_transaction_head(
    number: &u64,
    entity: &u64,
    deadline: &u64,
    count: &u64,
    out: &mut Vec<u8>,
) -> Result<(), AllocError>
    requires { (number64 then number64 then number64 then number32).Asks (number.now, (entity.now, (deadline.now, count.now))) }
    ensures puts { Puts ((number64 then number64 then number64 then number32).spell (number.now, (entity.now, (deadline.now, count.now)))) out.old out.new result }
    ensures fits { OnOk result ((number64 then number64 then number64 then number32).Fits (number.now, (entity.now, (deadline.now, count.now)))) }
{
    put_fields!(out, number => Number64, entity => Number64, deadline => Number64, count => Number32)
}

/// An open transaction.
pub struct TransactionPiece;

impl Piece for TransactionPiece {
    type Value = Transaction;

    ghost form = { transactions.transaction };

    #[tactic(auto, unfolding(crate::specs::Transactions::transaction))]
    fn put(value: &Transaction, out: &mut Vec<u8>) -> Result<(), AllocError> {
        put_fields!(out,
            &value.number => Number64,
            &value.entity => Number64,
            &value.deadline => Number64,
            &value.operations => Listed<OperationPiece>)
    }

    #[tactic(auto, unfolding(crate::specs::Transactions::transaction))]
    fn take(alloc: Global, bytes: &[u8]) -> Result<(Transaction, &[u8]), Unread> {
        take_fields!(alloc, bytes, Transaction {
            number: Number64,
            entity: Number64,
            deadline: Number64,
            operations: Listed<OperationPiece>
        })
    }
}

impl Item for TransactionPiece {
    ghost follows = { transactions.is_next_transaction };

    fn follows(last: Option<&Transaction>, next: &Transaction) -> bool {
        match last {
            None => true,
            Some(last) => last.number < next.number,
        }
    }
}
