// The fields that stand in many places.
ghost use Rattle.std.specs.Prelude.{◌≡◌, OnOk, IfOk};
ghost use Rattle.sb_codec.specs.Readers.{Gives};
ghost use Rattle.sb_codec.specs.Forms as forms;
ghost use Rattle.sb_codec.specs.Pieces as pieces;
ghost use Rattle.sb_codec.specs.Forms.{Form, Puts};

use crate::piece::Piece;
use crate::unread::Unread;
use sb_model::{Body, Rows, Text};
use std::alloc::{AllocError, Global};
use std::marker::PhantomData;

/// A number in 4 bytes.
pub struct Number32;

impl Piece for Number32 {
    type Value = u64;

    ghost form = { forms.number32 };

    fn put(value: &u64, out: &mut Vec<u8>) -> Result<(), AllocError> {
        out.extend_from_slice(&(*value as u32).to_be_bytes())
    }

    #[tactic(auto, unfolding(crate::specs::Readers::number_at))]
    fn take(_alloc: Global, bytes: &[u8]) -> Result<(u64, &[u8]), Unread> {
        if bytes.len() < 4 {
            return Err(Unread::NoSpelling);
        }
        let (front, rest) = bytes.split_at(4);
        let number = u32::from_be_bytes([front[0], front[1], front[2], front[3]]);
        Ok((u64::from(number), rest))
    }
}

/// A number in 8 bytes.
pub struct Number64;

impl Piece for Number64 {
    type Value = u64;

    ghost form = { forms.number64 };

    fn put(value: &u64, out: &mut Vec<u8>) -> Result<(), AllocError> {
        out.extend_from_slice(&value.to_be_bytes())
    }

    #[tactic(auto, unfolding(crate::specs::Readers::number_at))]
    fn take(_alloc: Global, bytes: &[u8]) -> Result<(u64, &[u8]), Unread> {
        if bytes.len() < 8 {
            return Err(Unread::NoSpelling);
        }
        let (front, rest) = bytes.split_at(8);
        let number = u64::from_be_bytes([
            front[0], front[1], front[2], front[3], front[4], front[5], front[6], front[7],
        ]);
        Ok((number, rest))
    }
}

// Writes a length and so many bytes.
#[tactic(auto, unfolding(crate::specs::Bytes::sized))]
fn put_sized(bytes: &[u8], out: &mut Vec<u8>) -> Result<(), AllocError>
    requires { forms.blob.Asks bytes.now }
    ensures { Puts (forms.blob.spell bytes.now) out.old out.new result }
{
    Number32::put(&(bytes.len() as u64), out)?;
    out.extend_from_slice(bytes)
}

// The bytes behind a length.
#[tactic(auto, unfolding(crate::specs::Readers::sized_at))]
fn sized_of(alloc: Global, bytes: &[u8]) -> Result<(&[u8], &[u8]), Unread>
    ensures { Gives (λ x. (x.0.now, x.1.now)) result (forms.blob.reads bytes.now) }
{
    let (len, rest) = Number32::take(alloc, bytes)?;
    if (rest.len() as u64) < len {
        return Err(Unread::NoSpelling);
    }
    Ok(rest.split_at(len as usize))
}

/// Bytes behind their length in 4 bytes.
pub struct Blob;

impl Piece for Blob {
    type Value = Rows<u8>;

    ghost form = { forms.blob };

    fn put(value: &Rows<u8>, out: &mut Vec<u8>) -> Result<(), AllocError> {
        put_sized(value.as_slice(), out)
    }

    fn take(alloc: Global, bytes: &[u8]) -> Result<(Rows<u8>, &[u8]), Unread> {
        let (content, rest) = sized_of(alloc, bytes)?;
        Ok((Rows::of(alloc, content)?, rest))
    }
}

/// The same bytes, as those of a message.
pub(crate) struct Shared;

impl Piece for Shared {
    type Value = Body;

    ghost form = { forms.blob };

    fn put(value: &Body, out: &mut Vec<u8>) -> Result<(), AllocError> {
        put_sized(value.as_slice(), out)
    }

    fn take(alloc: Global, bytes: &[u8]) -> Result<(Body, &[u8]), Unread> {
        let (content, rest) = sized_of(alloc, bytes)?;
        Ok((Body::of(alloc, content)?, rest))
    }
}

/// A text behind its length in 4 bytes.
pub struct Words;

impl Piece for Words {
    type Value = Text;

    ghost form = { forms.text };

    // That it is UTF-8 is found here, of its type.
    #[tactic(auto, using(crate::proofs::Texts::text_tests))]
    fn put(value: &Text, out: &mut Vec<u8>) -> Result<(), AllocError> {
        put_sized(value.as_str().as_bytes(), out)
    }

    #[tactic(auto, using(crate::proofs::Texts::text_tests))]
    fn take(alloc: Global, bytes: &[u8]) -> Result<(Text, &[u8]), Unread> {
        let (content, rest) = sized_of(alloc, bytes)?;
        let Ok(text) = str::from_utf8(content) else {
            return Err(Unread::NoSpelling);
        };
        Ok((Text::of(alloc, text)?, rest))
    }
}

/// 00 or 01.
pub struct Truth;

impl Piece for Truth {
    type Value = bool;

    ghost form = { pieces.truth };

    fn put(value: &bool, out: &mut Vec<u8>) -> Result<(), AllocError> {
        out.push(u8::from(*value))?;
        Ok(())
    }

    #[tactic(auto, unfolding(crate::specs::Forms::coded_at))]
    fn take(_alloc: Global, bytes: &[u8]) -> Result<(bool, &[u8]), Unread> {
        match bytes {
            [0, rest @ ..] => Ok((false, rest)),
            [1, rest @ ..] => Ok((true, rest)),
            _ => Err(Unread::NoSpelling),
        }
    }
}

/// 00, or 01 and the value.
pub struct Opt<F> {
    of: PhantomData<F>,
}

impl<F: Piece> Piece for Opt<F> {
    type Value = Option<F::Value>;

    ghost form = { forms.optional F.form };

    fn put(value: &Option<F::Value>, out: &mut Vec<u8>) -> Result<(), AllocError> {
        match value {
            None => {
                out.push(0)?;
                Ok(())
            }
            Some(value) => {
                out.push(1)?;
                F::put(value, out)
            }
        }
    }

    #[tactic(auto, unfolding(crate::specs::Readers::optional_at))]
    fn take(alloc: Global, bytes: &[u8]) -> Result<(Option<F::Value>, &[u8]), Unread> {
        match bytes {
            [0, rest @ ..] => Ok((None, rest)),
            [1, rest @ ..] => {
                let (value, rest) = F::take(alloc, rest)?;
                Ok((Some(value), rest))
            }
            _ => Err(Unread::NoSpelling),
        }
    }
}
