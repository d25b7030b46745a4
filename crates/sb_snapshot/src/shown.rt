// What became of the messages of a send, and a message as it was handed out.
ghost use Rattle.std.specs.Prelude.{◌≡◌, OnOk};
ghost use Rattle.std.specs.Option.{option_copied};
ghost use Rattle.sb_codec.specs.Forms.{Form, Puts, ◌then◌};
ghost use Rattle.sb_codec.specs.Messages.{any_next, message};
ghost use Rattle.sb_codec.specs.Readers.{Gives};
ghost use Rattle.sb_snapshot.specs.Replies as replies;

use crate::coded::{put_code, put_coded};
use crate::counted::Count32;
use sb_codec::{
    Item, MessagePiece, Number32, Number64, Opt, Piece, TokenPiece, Unread, put_fields, take_fields,
};
use sb_machine::{CopyShown, Receipt, Showing};
use std::alloc::{AllocError, Global};

// The receipt that a number or none stands for.
fn receipt_of(number: Option<u64>) -> Receipt
    ensures { result ≡ replies.receipt_of number }
{
    match number {
        None => Receipt::Duplicate,
        Some(number) => Receipt::Number(number),
    }
}

/// What became of one message of a send.
pub(crate) struct ReceiptPiece;

impl Piece for ReceiptPiece {
    type Value = Receipt;

    ghost form = { replies.receipt };

    #[tactic(auto, unfolding(crate::specs::Replies::receipt))]
    fn put(value: &Receipt, out: &mut Vec<u8>) -> Result<(), AllocError> {
        match value {
            Receipt::Duplicate => put_code(0, out),
            Receipt::Number(number) => put_coded::<Number64>(1, number, out),
        }
    }

    #[tactic(auto, unfolding(crate::specs::Replies::receipt))]
    fn take(alloc: Global, bytes: &[u8]) -> Result<(Receipt, &[u8]), Unread> {
        let (number, rest) = Opt::<Number64>::take(alloc, bytes)?;
        Ok((receipt_of(number), rest))
    }
}

impl Item for ReceiptPiece {
    ghost follows = { any_next };

    fn follows(_last: Option<&Receipt>, _next: &Receipt) -> bool {
        true
    }
}

/// How a copy was handed out.
pub(crate) struct ShowingPiece;

impl Piece for ShowingPiece {
    type Value = Showing;

    ghost form = { replies.showing };

    // One that was only looked at isn't asked for.
    #[tactic(auto, unfolding(crate::specs::Replies::showing))]
    fn put(value: &Showing, out: &mut Vec<u8>) -> Result<(), AllocError> {
        match value {
            Showing::Removed | Showing::Browsed(_) => put_code(0, out),
            Showing::Locked { token, until } => {
                out.push(1)?;
                put_fields!(out, token => TokenPiece, until => Number64)
            }
        }
    }

    #[tactic(auto, unfolding(crate::specs::Replies::showing, sb_codec::specs::Readers::optional_at))]
    fn take(alloc: Global, bytes: &[u8]) -> Result<(Showing, &[u8]), Unread> {
        match bytes {
            [0, rest @ ..] => Ok((Showing::Removed, rest)),
            [1, rest @ ..] => take_fields!(
                alloc,
                rest,
                Showing::Locked {
                    token: TokenPiece,
                    until: Number64
                }
            ),
            _ => Err(Unread::NoSpelling),
        }
    }
}

/// How often a copy was handed out, this time included: from 1.
pub(crate) struct DeliveryPiece;

impl Piece for DeliveryPiece {
    type Value = u64;

    ghost form = { replies.delivery };

    #[tactic(auto, unfolding(crate::specs::Replies::delivery))]
    fn put(value: &u64, out: &mut Vec<u8>) -> Result<(), AllocError> {
        Number32::put(&(*value - 1), out)
    }

    #[tactic(auto, unfolding(crate::specs::Replies::delivery))]
    fn take(alloc: Global, bytes: &[u8]) -> Result<(u64, &[u8]), Unread> {
        let (before, rest) = Count32::take(alloc, bytes)?;
        Ok((u64::from(before) + 1, rest))
    }
}

// What a copy that was handed out has behind its numbers and its moment.
fn put_rest(value: &CopyShown, out: &mut Vec<u8>) -> Result<(), AllocError>
    requires { (replies.delivery then replies.showing then message).Asks
        (value.now.delivery, (value.now.showing, value.now.message)) }
    ensures puts { Puts ((replies.delivery then replies.showing then message).spell
        (value.now.delivery, (value.now.showing, value.now.message))) out.old out.new result }
    ensures fits { OnOk result ((replies.delivery then replies.showing then message).Fits
        (value.now.delivery, (value.now.showing, value.now.message))) }
{
    put_fields!(out,
        &value.delivery => DeliveryPiece,
        &value.showing => ShowingPiece,
        &value.message => MessagePiece)
}

/// A copy as it was handed out.
pub(crate) struct ShownPiece;

impl Piece for ShownPiece {
    type Value = CopyShown;

    ghost form = { replies.shown };

    #[tactic(auto, unfolding(crate::specs::Replies::shown))]
    fn put(value: &CopyShown, out: &mut Vec<u8>) -> Result<(), AllocError> {
        Number64::put(&value.number, out)?;
        Number64::put(&value.enqueued_seq, out)?;
        Number64::put(&value.enqueued, out)?;
        put_rest(value, out)?;
        Ok(())
    }

    #[tactic(auto, unfolding(crate::specs::Replies::shown))]
    fn take(alloc: Global, bytes: &[u8]) -> Result<(CopyShown, &[u8]), Unread> {
        take_fields!(
            alloc,
            bytes,
            CopyShown {
                number: Number64,
                enqueued_seq: Number64,
                enqueued: Number64,
                delivery: DeliveryPiece,
                showing: ShowingPiece,
                message: MessagePiece
            }
        )
    }
}
