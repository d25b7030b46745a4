// Copies of messages as an entity holds them.
ghost use Rattle.std.specs.Prelude.{◌≡◌, OnOk};
ghost use Rattle.std.specs.Option.{option_copied};
ghost use Rattle.sb_codec.specs.Forms.{Form, Puts, ◌then◌};
ghost use Rattle.sb_codec.specs.Messages.{message};
ghost use Rattle.sb_codec.specs.Readers.{Gives};
ghost use Rattle.sb_snapshot.specs.Copies as copies;
ghost use Rattle.sb_snapshot.specs.Lists.{count32, number8};

use crate::coded::{put_code, put_coded, split_code};
use crate::counted::{Count32, Number8};
use sb_codec::{Item, MessagePiece, Number64, Piece, Truth, Unread, put_fields, take_fields};
use sb_machine::{Hold, Standing, StoredCopy};
use std::alloc::{AllocError, Global};

/// How long a lock holds a copy.
pub(crate) struct HoldPiece;

impl Piece for HoldPiece {
    type Value = Hold;

    ghost form = { copies.hold };

    #[tactic(auto, unfolding(crate::specs::Copies::hold))]
    fn put(value: &Hold, out: &mut Vec<u8>) -> Result<(), AllocError> {
        match value {
            Hold::Until(moment) => put_coded::<Number64>(0, moment, out),
            Hold::Session(lock) => put_coded::<Number64>(1, lock, out),
        }
    }

    #[tactic(auto, unfolding(crate::specs::Copies::hold, sb_codec::specs::Forms::chosen_at))]
    fn take(alloc: Global, bytes: &[u8]) -> Result<(Hold, &[u8]), Unread> {
        let Some((code, rest)) = split_code(bytes) else {
            return Err(Unread::NoSpelling);
        };
        match code {
            0 => {
                let (moment, rest) = Number64::take(alloc, rest)?;
                Ok((Hold::Until(moment), rest))
            }
            1 => {
                let (lock, rest) = Number64::take(alloc, rest)?;
                Ok((Hold::Session(lock), rest))
            }
            _ => Err(Unread::NoSpelling),
        }
    }
}

/// How a copy stands.
pub(crate) struct StandingPiece;

impl Piece for StandingPiece {
    type Value = Standing;

    ghost form = { copies.standing };

    #[tactic(auto, unfolding(crate::specs::Copies::standing))]
    fn put(value: &Standing, out: &mut Vec<u8>) -> Result<(), AllocError> {
        match value {
            Standing::Ready => put_code(0, out),
            Standing::Deferred => put_code(1, out),
            Standing::Held {
                lock,
                hold,
                deferred,
            } => {
                out.push(2)?;
                put_fields!(out, lock => Number64, hold => HoldPiece, deferred => Truth)
            }
            Standing::Scheduled(moment) => put_coded::<Number64>(3, moment, out),
        }
    }

    #[tactic(auto, unfolding(crate::specs::Copies::standing, sb_codec::specs::Forms::chosen_at))]
    fn take(alloc: Global, bytes: &[u8]) -> Result<(Standing, &[u8]), Unread> {
        let Some((code, rest)) = split_code(bytes) else {
            return Err(Unread::NoSpelling);
        };
        match code {
            0 => Ok((Standing::Ready, rest)),
            1 => Ok((Standing::Deferred, rest)),
            2 => take_fields!(
                alloc,
                rest,
                Standing::Held {
                    lock: Number64,
                    hold: HoldPiece,
                    deferred: Truth
                }
            ),
            3 => {
                let (moment, rest) = Number64::take(alloc, rest)?;
                Ok((Standing::Scheduled(moment), rest))
            }
            _ => Err(Unread::NoSpelling),
        }
    }
}

// What a copy has behind its numbers.
fn put_rest(value: &StoredCopy, out: &mut Vec<u8>) -> Result<(), AllocError>
    requires { (count32 then number8 then copies.standing then message).Asks
        (value.now.count, (value.now.hops, (value.now.standing, value.now.message))) }
    ensures puts { Puts ((count32 then number8 then copies.standing then message).spell
        (value.now.count, (value.now.hops, (value.now.standing, value.now.message)))) out.old out.new result }
    ensures fits { OnOk result ((count32 then number8 then copies.standing then message).Fits
        (value.now.count, (value.now.hops, (value.now.standing, value.now.message)))) }
{
    put_fields!(out,
        &value.count => Count32,
        &value.hops => Number8,
        &value.standing => StandingPiece,
        &value.message => MessagePiece)
}

/// A copy of a message.
pub struct CopyPiece;

impl Piece for CopyPiece {
    type Value = StoredCopy;

    ghost form = { copies.copy };

    #[tactic(auto, unfolding(crate::specs::Copies::copy))]
    fn put(value: &StoredCopy, out: &mut Vec<u8>) -> Result<(), AllocError> {
        Number64::put(&value.number, out)?;
        Number64::put(&value.enqueued_seq, out)?;
        Number64::put(&value.enqueued, out)?;
        put_rest(value, out)?;
        Ok(())
    }

    #[tactic(auto, unfolding(crate::specs::Copies::copy))]
    fn take(alloc: Global, bytes: &[u8]) -> Result<(StoredCopy, &[u8]), Unread> {
        take_fields!(
            alloc,
            bytes,
            StoredCopy {
                number: Number64,
                enqueued_seq: Number64,
                enqueued: Number64,
                count: Count32,
                hops: Number8,
                standing: StandingPiece,
                message: MessagePiece
            }
        )
    }
}

impl Item for CopyPiece {
    ghost follows = { copies.is_next_copy };

    fn follows(last: Option<&StoredCopy>, next: &StoredCopy) -> bool {
        match last {
            None => true,
            Some(last) => last.number < next.number,
        }
    }
}
