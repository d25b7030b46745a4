// Replies that are remembered.
ghost use Rattle.std.specs.Prelude.{◌≡◌, ◌∷◌, OnOk};
ghost use Rattle.sb_codec.specs.Forms.{Form, Puts};
ghost use Rattle.sb_codec.specs.Readers.{Gives, mapped};
ghost use Rattle.sb_snapshot.specs.Replies as replies;

use crate::coded::{put_code, put_coded, split_code};
use crate::shown::{ReceiptPiece, ShownPiece};
use crate::step_replies::StepReplyPiece;
use sb_codec::{
    Listed, Number64, PartPiece, Piece, TokenPiece, Unread, Words, put_fields, take_fields,
};
use sb_machine::{Part, Reply, Token};
use sb_model::Text;
use std::alloc::{AllocError, Global};

// The fields of a session's lock.
fn put_held(id: &Text, session: &Token, until: &u64, out: &mut Vec<u8>) -> Result<(), AllocError>
    requires { replies.session_held.form.Asks (id.now, (session.now, until.now)) }
    ensures puts { Puts (5 ∷ replies.session_held.form.spell (id.now, (session.now, until.now))) out.old out.new result }
    ensures fits { OnOk result (replies.session_held.form.Fits (id.now, (session.now, until.now))) }
{
    out.push(5)?;
    put_fields!(out, id => Words, session => TokenPiece, until => Number64)
}

// The copy at which a transaction ended.
fn put_aborted(part: &Part, number: &u64, out: &mut Vec<u8>) -> Result<(), AllocError>
    requires { replies.aborted.form.Asks (part.now, number.now) }
    ensures puts { Puts (10 ∷ replies.aborted.form.spell (part.now, number.now)) out.old out.new result }
    ensures fits { OnOk result (replies.aborted.form.Fits (part.now, number.now)) }
{
    out.push(10)?;
    put_fields!(out, part => PartPiece, number => Number64)
}

fn take_sent(alloc: Global, bytes: &[u8]) -> Result<(Reply, &[u8]), Unread>
    ensures { Gives (λ x. (x.0, x.1.now)) result (mapped replies.sent.make replies.sent.form.reads bytes.now) }
{
    let (receipts, rest) = Listed::<ReceiptPiece>::take(alloc, bytes)?;
    Ok((Reply::Sent(receipts), rest))
}

fn take_given(alloc: Global, bytes: &[u8]) -> Result<(Reply, &[u8]), Unread>
    ensures { Gives (λ x. (x.0, x.1.now)) result (mapped replies.given.make replies.given.form.reads bytes.now) }
{
    let (shown, rest) = ShownPiece::take(alloc, bytes)?;
    Ok((Reply::Message(shown), rest))
}

fn take_expired(alloc: Global, bytes: &[u8]) -> Result<(Reply, &[u8]), Unread>
    ensures { Gives (λ x. (x.0, x.1.now)) result (mapped replies.expired.make replies.expired.form.reads bytes.now) }
{
    take_fields!(alloc, bytes, Reply::Expired { number: Number64 })
}

fn take_held(alloc: Global, bytes: &[u8]) -> Result<(Reply, &[u8]), Unread>
    ensures { Gives (λ x. (x.0, x.1.now)) result (mapped replies.session_held.make replies.session_held.form.reads bytes.now) }
{
    take_fields!(
        alloc,
        bytes,
        Reply::Session {
            id: Words,
            session: TokenPiece,
            until: Number64
        }
    )
}

fn take_renewed(alloc: Global, bytes: &[u8]) -> Result<(Reply, &[u8]), Unread>
    ensures { Gives (λ x. (x.0, x.1.now)) result (mapped replies.renewed.make replies.renewed.form.reads bytes.now) }
{
    take_fields!(alloc, bytes, Reply::Renewed { until: Number64 })
}

fn take_begun(alloc: Global, bytes: &[u8]) -> Result<(Reply, &[u8]), Unread>
    ensures { Gives (λ x. (x.0, x.1.now)) result (mapped replies.begun.make replies.begun.form.reads bytes.now) }
{
    take_fields!(alloc, bytes, Reply::Begun { txn: Number64 })
}

fn take_aborted(alloc: Global, bytes: &[u8]) -> Result<(Reply, &[u8]), Unread>
    ensures { Gives (λ x. (x.0, x.1.now)) result (mapped replies.aborted.make replies.aborted.form.reads bytes.now) }
{
    take_fields!(
        alloc,
        bytes,
        Reply::Aborted {
            part: PartPiece,
            number: Number64
        }
    )
}

fn take_together(alloc: Global, bytes: &[u8]) -> Result<(Reply, &[u8]), Unread>
    ensures { Gives (λ x. (x.0, x.1.now)) result (mapped replies.together.make replies.together.form.reads bytes.now) }
{
    let (steps, rest) = Listed::<StepReplyPiece>::take(alloc, bytes)?;
    Ok((Reply::Together(steps), rest))
}

/// A reply that is remembered: none to a call that only looks.
pub(crate) struct ReplyPiece;

impl Piece for ReplyPiece {
    type Value = Reply;

    ghost form = { replies.answer };

    #[tactic(auto, unfolding(crate::specs::Replies::answer))]
    fn put(value: &Reply, out: &mut Vec<u8>) -> Result<(), AllocError> {
        match value {
            Reply::Done => put_code(0, out),
            Reply::Sent(receipts) => put_coded::<Listed<ReceiptPiece>>(1, receipts, out),
            Reply::Message(shown) => put_coded::<ShownPiece>(2, shown, out),
            Reply::Empty => put_code(3, out),
            Reply::Expired { number } => put_coded::<Number64>(4, number, out),
            Reply::Session { id, session, until } => put_held(id, session, until, out),
            Reply::Renewed { until } => put_coded::<Number64>(6, until, out),
            Reply::Begun { txn } => put_coded::<Number64>(7, txn, out),
            Reply::Queued => put_code(8, out),
            Reply::Committed => put_code(9, out),
            Reply::Aborted { part, number } => put_aborted(part, number, out),
            Reply::Together(steps) => put_coded::<Listed<StepReplyPiece>>(32, steps, out),
            // Of these none is asked for.
            Reply::Copies(_) | Reply::State(_) | Reply::Counts { .. } | Reply::Seen(_) => {
                put_code(11, out)
            }
        }
    }

    #[tactic(auto, unfolding(crate::specs::Replies::answer, sb_codec::specs::Forms::chosen_at))]
    fn take(alloc: Global, bytes: &[u8]) -> Result<(Reply, &[u8]), Unread> {
        let Some((code, rest)) = split_code(bytes) else {
            return Err(Unread::NoSpelling);
        };
        match code {
            0 => Ok((Reply::Done, rest)),
            1 => take_sent(alloc, rest),
            2 => take_given(alloc, rest),
            3 => Ok((Reply::Empty, rest)),
            4 => take_expired(alloc, rest),
            5 => take_held(alloc, rest),
            6 => take_renewed(alloc, rest),
            7 => take_begun(alloc, rest),
            8 => Ok((Reply::Queued, rest)),
            9 => Ok((Reply::Committed, rest)),
            10 => take_aborted(alloc, rest),
            32 => take_together(alloc, rest),
            _ => Err(Unread::NoSpelling),
        }
    }
}
