// Operations that act together, each by the code of the act that it stands for.
ghost use Rattle.std.specs.Prelude.{◌≡◌, OnOk};
ghost use Rattle.sb_codec.specs.Messages.{any_next};
ghost use Rattle.sb_codec.specs.Readers.{Gives};
ghost use Rattle.sb_codec.specs.Forms.{Form, Puts};
ghost use Rattle.sb_codec.specs.Steps as steps;

use crate::choices::{HowPiece, WhichPiece};
use crate::coded::split_code;
use crate::fields::{Blob, Opt};
use crate::lists::{Item, Listed};
use crate::messages::MessagePiece;
use crate::piece::{Piece, put_fields, take_fields};
use crate::pieces::{PathPiece, TokenPiece};
use crate::unread::Unread;
use sb_machine::Step;
use std::alloc::{AllocError, Global};

pub(crate) struct StepPiece;

impl Piece for StepPiece {
    type Value = Step;

    ghost form = { steps.step };

    #[tactic(auto, unfolding(crate::specs::Steps::step))]
    fn put(value: &Step, out: &mut Vec<u8>) -> Result<(), AllocError> {
        match value {
            Step::Send { to, messages } => {
                out.push(7)?;
                put_fields!(out, to => PathPiece, messages => Listed<MessagePiece>)
            }
            Step::Settle {
                from,
                which,
                token,
                session,
                how,
            } => {
                out.push(11)?;
                put_fields!(out, from => PathPiece, which => WhichPiece, token => TokenPiece, session => Opt<TokenPiece>, how => HowPiece)
            }
            Step::SessionSet {
                from,
                session,
                state,
            } => {
                out.push(16)?;
                put_fields!(out, from => PathPiece, session => TokenPiece, state => Opt<Blob>)
            }
        }
    }

    #[tactic(auto, unfolding(crate::specs::Steps::step, crate::specs::Forms::chosen_at))]
    fn take(alloc: Global, bytes: &[u8]) -> Result<(Step, &[u8]), Unread> {
        let Some((code, rest)) = split_code(bytes) else {
            return Err(Unread::NoSpelling);
        };
        take_behind_code(alloc, code, rest)
    }
}

impl Item for StepPiece {
    ghost follows = { any_next };

    fn follows(_last: Option<&Step>, _next: &Step) -> bool {
        true
    }
}

// The operation whose fields these bytes begin with, where its code stood ahead of them.
fn take_behind_code(alloc: Global, code: u8, rest: &[u8]) -> Result<(Step, &[u8]), Unread>
    ensures { Gives (λ x. (x.0, x.1.now)) result (steps.step_choice code rest.now) }
{
    match code {
        7 =>
            take_fields!(alloc, rest, Step::Send { to: PathPiece, messages: Listed<MessagePiece> }),
        11 =>
            take_fields!(alloc, rest, Step::Settle { from: PathPiece, which: WhichPiece, token: TokenPiece, session: Opt<TokenPiece>, how: HowPiece }),
        16 =>
            take_fields!(alloc, rest, Step::SessionSet { from: PathPiece, session: TokenPiece, state: Opt<Blob> }),
        _ => Err(Unread::NoSpelling),
    }
}
