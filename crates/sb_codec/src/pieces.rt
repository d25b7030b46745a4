// The pieces that stand in many acts.
ghost use Rattle.std.specs.Prelude.{◌≡◌, OnOk};
ghost use Rattle.sb_codec.specs.Readers.{Gives};
ghost use Rattle.sb_codec.specs.Forms.{Form, Puts};
ghost use Rattle.sb_codec.specs.Pieces as pieces;

use crate::fields::{Number32, Number64, Opt, Truth, Words};
use crate::piece::{Piece, put_fields, take_fields};
use crate::unread::Unread;
use sb_machine::{By, Description, Mode, Part, Path, Token};
use sb_model::Text;
use std::alloc::{AllocError, Global};

/// A part of an entity, as one byte.
pub struct PartPiece;

impl Piece for PartPiece {
    type Value = Part;

    ghost form = { pieces.part };

    fn put(value: &Part, out: &mut Vec<u8>) -> Result<(), AllocError> {
        let code = match value {
            Part::Main => 0,
            Part::Dead => 1,
            Part::Transfer => 2,
        };
        out.push(code)?;
        Ok(())
    }

    #[tactic(auto, unfolding(crate::specs::Forms::coded_at))]
    fn take(_alloc: Global, bytes: &[u8]) -> Result<(Part, &[u8]), Unread> {
        match bytes {
            [0, rest @ ..] => Ok((Part::Main, rest)),
            [1, rest @ ..] => Ok((Part::Dead, rest)),
            [2, rest @ ..] => Ok((Part::Transfer, rest)),
            _ => Err(Unread::NoSpelling),
        }
    }
}

pub(crate) struct ModePiece;

impl Piece for ModePiece {
    type Value = Mode;

    ghost form = { pieces.mode };

    fn put(value: &Mode, out: &mut Vec<u8>) -> Result<(), AllocError> {
        let code = match value {
            Mode::Lock => 0,
            Mode::Delete => 1,
        };
        out.push(code)?;
        Ok(())
    }

    #[tactic(auto, unfolding(crate::specs::Forms::coded_at))]
    fn take(_alloc: Global, bytes: &[u8]) -> Result<(Mode, &[u8]), Unread> {
        match bytes {
            [0, rest @ ..] => Ok((Mode::Lock, rest)),
            [1, rest @ ..] => Ok((Mode::Delete, rest)),
            _ => Err(Unread::NoSpelling),
        }
    }
}

/// An address.
pub struct PathPiece;

impl Piece for PathPiece {
    type Value = Path;

    ghost form = { pieces.path };

    #[tactic(auto, unfolding(crate::specs::Pieces::path))]
    fn put(value: &Path, out: &mut Vec<u8>) -> Result<(), AllocError> {
        put_fields!(out, &value.name => Words, &value.subscription => Opt<Words>, &value.part => PartPiece)
    }

    #[tactic(auto, unfolding(crate::specs::Pieces::path))]
    fn take(alloc: Global, bytes: &[u8]) -> Result<(Path, &[u8]), Unread> {
        take_fields!(alloc, bytes, Path { name: Words, subscription: Opt<Words>, part: PartPiece })
    }
}

/// A lock token.
pub struct TokenPiece;

impl Piece for TokenPiece {
    type Value = Token;

    ghost form = { pieces.token };

    #[tactic(auto, unfolding(crate::specs::Pieces::token))]
    fn put(value: &Token, out: &mut Vec<u8>) -> Result<(), AllocError> {
        put_fields!(out, &value.salt => Number64, &value.lock => Number64)
    }

    #[tactic(auto, unfolding(crate::specs::Pieces::token))]
    fn take(alloc: Global, bytes: &[u8]) -> Result<(Token, &[u8]), Unread> {
        take_fields!(
            alloc,
            bytes,
            Token {
                salt: Number64,
                lock: Number64
            }
        )
    }
}

pub(crate) struct ByPiece;

impl Piece for ByPiece {
    type Value = By;

    ghost form = { pieces.by };

    #[tactic(auto, unfolding(crate::specs::Pieces::by))]
    fn put(value: &By, out: &mut Vec<u8>) -> Result<(), AllocError> {
        put_fields!(out, &value.client => Words, &value.number => Number64)
    }

    #[tactic(auto, unfolding(crate::specs::Pieces::by))]
    fn take(alloc: Global, bytes: &[u8]) -> Result<(By, &[u8]), Unread> {
        take_fields!(
            alloc,
            bytes,
            By {
                client: Words,
                number: Number64
            }
        )
    }
}

/// The description of an entity.
pub struct DescriptionPiece;

impl Piece for DescriptionPiece {
    type Value = Description;

    ghost form = { pieces.description };

    #[tactic(auto, unfolding(crate::specs::Pieces::description))]
    fn put(value: &Description, out: &mut Vec<u8>) -> Result<(), AllocError> {
        put_fields!(out,
            &value.lock => Number32,
            &value.ttl => Opt<Number64>,
            &value.max_delivery => Number32,
            &value.window => Opt<Number32>,
            &value.requires_session => Truth,
            &value.dead_on_expiry => Truth,
            &value.dead_on_fault => Truth,
            &value.forward_to => Opt<Words>,
            &value.forward_dead_to => Opt<Words>)
    }

    #[tactic(auto, unfolding(crate::specs::Pieces::description))]
    fn take(alloc: Global, bytes: &[u8]) -> Result<(Description, &[u8]), Unread> {
        take_fields!(alloc, bytes, Description {
            lock: Number32,
            ttl: Opt<Number64>,
            max_delivery: Number32,
            window: Opt<Number32>,
            requires_session: Truth,
            dead_on_expiry: Truth,
            dead_on_fault: Truth,
            forward_to: Opt<Words>,
            forward_dead_to: Opt<Words>
        })
    }
}
