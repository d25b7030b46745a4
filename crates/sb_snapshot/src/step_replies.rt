// Replies to operations that acted together.
ghost use Rattle.std.specs.Prelude.{◌≡◌, OnOk};
ghost use Rattle.sb_codec.specs.Forms.{Form, Puts};
ghost use Rattle.sb_codec.specs.Messages.{any_next};
ghost use Rattle.sb_codec.specs.Readers.{Gives, mapped};
ghost use Rattle.sb_snapshot.specs.Replies as replies;

use crate::coded::{put_code, put_coded, split_code};
use crate::shown::ReceiptPiece;
use sb_codec::{Item, Listed, Piece, Unread};
use sb_machine::StepReply;
use std::alloc::{AllocError, Global};

fn take_sent(alloc: Global, bytes: &[u8]) -> Result<(StepReply, &[u8]), Unread>
    ensures { Gives (λ x. (x.0, x.1.now)) result (mapped replies.step_sent.make replies.step_sent.form.reads bytes.now) }
{
    let (receipts, rest) = Listed::<ReceiptPiece>::take(alloc, bytes)?;
    Ok((StepReply::Sent(receipts), rest))
}

/// What one of the operations was answered that acted together.
pub(crate) struct StepReplyPiece;

impl Piece for StepReplyPiece {
    type Value = StepReply;

    ghost form = { replies.step_reply };

    #[tactic(auto, unfolding(crate::specs::Replies::step_reply))]
    fn put(value: &StepReply, out: &mut Vec<u8>) -> Result<(), AllocError> {
        match value {
            StepReply::Done => put_code(0, out),
            StepReply::Sent(receipts) => put_coded::<Listed<ReceiptPiece>>(1, receipts, out),
        }
    }

    #[tactic(auto, unfolding(crate::specs::Replies::step_reply, sb_codec::specs::Forms::chosen_at))]
    fn take(alloc: Global, bytes: &[u8]) -> Result<(StepReply, &[u8]), Unread> {
        let Some((code, rest)) = split_code(bytes) else {
            return Err(Unread::NoSpelling);
        };
        match code {
            0 => Ok((StepReply::Done, rest)),
            1 => take_sent(alloc, rest),
            _ => Err(Unread::NoSpelling),
        }
    }
}

impl Item for StepReplyPiece {
    ghost follows = { any_next };

    fn follows(_last: Option<&StepReply>, _next: &StepReply) -> bool {
        true
    }
}
