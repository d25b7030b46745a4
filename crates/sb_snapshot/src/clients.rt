// What is remembered for clients: their last act, and what it was answered.
ghost use Rattle.std.specs.Prelude.{◌≡◌, OnOk};
ghost use Rattle.std.specs.Option.{option_copied};
ghost use Rattle.sb_codec.specs.Acts.{any_act};
ghost use Rattle.sb_codec.specs.Forms.{Form, Puts, ◌then◌, number64};
ghost use Rattle.sb_codec.specs.Readers.{Gives};
ghost use Rattle.sb_snapshot.specs.Replies as replies;

use crate::replies::ReplyPiece;
use crate::texts::is_before;
use sb_codec::{ActPiece, Item, Number64, Piece, Unread, Words, put_fields, take_fields};
use sb_machine::Kept;
use std::alloc::{AllocError, Global};

// What is remembered behind a client's name.
fn put_rest(value: &Kept, out: &mut Vec<u8>) -> Result<(), AllocError>
    requires { (number64 then any_act then replies.answer).Asks (value.now.number, (value.now.act, value.now.reply)) }
    ensures puts { Puts ((number64 then any_act then replies.answer).spell (value.now.number, (value.now.act, value.now.reply))) out.old out.new result }
    ensures fits { OnOk result ((number64 then any_act then replies.answer).Fits (value.now.number, (value.now.act, value.now.reply))) }
{
    put_fields!(out, &value.number => Number64, &value.act => ActPiece, &value.reply => ReplyPiece)
}

/// What is remembered for a client.
pub struct KeptPiece;

impl Piece for KeptPiece {
    type Value = Kept;

    ghost form = { replies.kept };

    #[tactic(auto, unfolding(crate::specs::Replies::kept))]
    fn put(value: &Kept, out: &mut Vec<u8>) -> Result<(), AllocError> {
        Words::put(&value.client, out)?;
        put_rest(value, out)?;
        Ok(())
    }

    #[tactic(auto, unfolding(crate::specs::Replies::kept))]
    fn take(alloc: Global, bytes: &[u8]) -> Result<(Kept, &[u8]), Unread> {
        take_fields!(
            alloc,
            bytes,
            Kept {
                client: Words,
                number: Number64,
                act: ActPiece,
                reply: ReplyPiece
            }
        )
    }
}

impl Item for KeptPiece {
    ghost follows = { replies.is_next_kept };

    fn follows(last: Option<&Kept>, next: &Kept) -> bool {
        match last {
            None => true,
            Some(last) => is_before(&last.client, &next.client),
        }
    }
}
