// What stands in acts as one of several.
ghost use Rattle.std.specs.Prelude.{◌≡◌, OnOk};
ghost use Rattle.sb_codec.specs.Choices as choices;
ghost use Rattle.sb_codec.specs.Readers.{Gives};
ghost use Rattle.sb_codec.specs.Forms.{Form, Puts};

use crate::coded::split_code;
use crate::fields::{Number64, Opt, Words};
use crate::messages::ConditionsPiece;
use crate::piece::{Piece, put_fields, take_fields};
use crate::unread::Unread;
use sb_machine::{FilterText, How, Which};
use sb_model::Text;
use std::alloc::{AllocError, Global};

pub(crate) struct WhichPiece;

impl Piece for WhichPiece {
    type Value = Which;

    ghost form = { choices.which };

    #[tactic(auto, unfolding(crate::specs::Choices::which))]
    fn put(value: &Which, out: &mut Vec<u8>) -> Result<(), AllocError> {
        match value {
            Which::Number(number) => {
                out.push(0)?;
                Number64::put(number, out)
            }
            Which::Id(id) => {
                out.push(1)?;
                Words::put(id, out)
            }
        }
    }

    #[tactic(auto, unfolding(crate::specs::Choices::which, crate::specs::Forms::chosen_at))]
    fn take(alloc: Global, bytes: &[u8]) -> Result<(Which, &[u8]), Unread> {
        let Some((code, rest)) = split_code(bytes) else {
            return Err(Unread::NoSpelling);
        };
        match code {
            0 => take_fields!(alloc, rest, Which::Number(Number64)),
            1 => take_fields!(alloc, rest, Which::Id(Words)),
            _ => Err(Unread::NoSpelling),
        }
    }
}

/// What becomes of a message that is settled.
pub struct HowPiece;

impl Piece for HowPiece {
    type Value = How;

    ghost form = { choices.how };

    #[tactic(auto, unfolding(crate::specs::Choices::how))]
    fn put(value: &How, out: &mut Vec<u8>) -> Result<(), AllocError> {
        match value {
            How::Complete => {
                out.push(0)?;
                Ok(())
            }
            How::Abandon => {
                out.push(1)?;
                Ok(())
            }
            How::Defer => {
                out.push(2)?;
                Ok(())
            }
            How::DeadLetter {
                reason,
                description,
            } => {
                out.push(3)?;
                put_fields!(out, reason => Opt<Words>, description => Opt<Words>)
            }
        }
    }

    #[tactic(auto, unfolding(crate::specs::Choices::how, crate::specs::Forms::chosen_at))]
    fn take(alloc: Global, bytes: &[u8]) -> Result<(How, &[u8]), Unread> {
        let Some((code, rest)) = split_code(bytes) else {
            return Err(Unread::NoSpelling);
        };
        match code {
            0 => Ok((How::Complete, rest)),
            1 => Ok((How::Abandon, rest)),
            2 => Ok((How::Defer, rest)),
            3 =>
                take_fields!(alloc, rest, How::DeadLetter { reason: Opt<Words>, description: Opt<Words> }),
            _ => Err(Unread::NoSpelling),
        }
    }
}

pub(crate) struct FilterPiece;

impl Piece for FilterPiece {
    type Value = FilterText;

    ghost form = { choices.filter_text };

    #[tactic(auto, unfolding(crate::specs::Choices::filter_text))]
    fn put(value: &FilterText, out: &mut Vec<u8>) -> Result<(), AllocError> {
        match value {
            FilterText::Sql(text) => {
                out.push(0)?;
                Words::put(text, out)
            }
            FilterText::Correlation(conditions) => {
                out.push(1)?;
                ConditionsPiece::put(conditions, out)
            }
        }
    }

    #[tactic(auto, unfolding(crate::specs::Choices::filter_text, crate::specs::Forms::chosen_at))]
    fn take(alloc: Global, bytes: &[u8]) -> Result<(FilterText, &[u8]), Unread> {
        let Some((code, rest)) = split_code(bytes) else {
            return Err(Unread::NoSpelling);
        };
        match code {
            0 => take_fields!(alloc, rest, FilterText::Sql(Words)),
            1 => take_fields!(alloc, rest, FilterText::Correlation(ConditionsPiece)),
            _ => Err(Unread::NoSpelling),
        }
    }
}
