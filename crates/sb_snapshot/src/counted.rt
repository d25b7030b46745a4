// Numbers whose type has their size, and lists behind a count in 8 bytes.
ghost use Rattle.std.specs.Prelude.{◌≡◌, OnOk};
ghost use Rattle.sb_codec.specs.Forms.{Form, Puts};
ghost use Rattle.sb_codec.specs.Readers.{Gives};
ghost use Rattle.sb_snapshot.specs.Lists as lists;

use sb_codec::{Item, Number64, Piece, Unread, items_of, put_items};
use sb_model::Rows;
use std::alloc::{AllocError, Global};
use std::marker::PhantomData;

/// A number in one byte.
pub(crate) struct Number8;

impl Piece for Number8 {
    type Value = u8;

    ghost form = { lists.number8 };

    fn put(value: &u8, out: &mut Vec<u8>) -> Result<(), AllocError> {
        out.push(*value)?;
        Ok(())
    }

    #[tactic(auto, unfolding(crate::specs::Lists::byte_at))]
    fn take(_alloc: Global, bytes: &[u8]) -> Result<(u8, &[u8]), Unread> {
        let [byte, rest @ ..] = bytes else {
            return Err(Unread::NoSpelling);
        };
        Ok((*byte, rest))
    }
}

/// A number in 4 bytes.
pub(crate) struct Count32;

impl Piece for Count32 {
    type Value = u32;

    ghost form = { lists.count32 };

    fn put(value: &u32, out: &mut Vec<u8>) -> Result<(), AllocError> {
        out.extend_from_slice(&value.to_be_bytes())
    }

    #[tactic(auto, unfolding(sb_codec::specs::Readers::number_at))]
    fn take(_alloc: Global, bytes: &[u8]) -> Result<(u32, &[u8]), Unread> {
        if bytes.len() < 4 {
            return Err(Unread::NoSpelling);
        }
        let (front, rest) = bytes.split_at(4);
        let number = u32::from_be_bytes([front[0], front[1], front[2], front[3]]);
        Ok((number, rest))
    }
}

/// A list behind its count in 8 bytes.
pub(crate) struct Listed64<F> {
    of: PhantomData<F>,
}

impl<F: Item> Piece for Listed64<F> {
    type Value = Rows<F::Value>;

    ghost form = { lists.listed64 F.follows F.form };

    fn put(value: &Rows<F::Value>, out: &mut Vec<u8>) -> Result<(), AllocError> {
        Number64::put(&(value.len() as u64), out)?;
        put_items::<F>(value.as_slice(), out)
    }

    #[tactic(auto, unfolding(crate::specs::Lists::listed64_at))]
    fn take(alloc: Global, bytes: &[u8]) -> Result<(Rows<F::Value>, &[u8]), Unread> {
        let (count, rest) = Number64::take(alloc, bytes)?;
        let (items, rest) = items_of::<F>(alloc, count, rest)?;
        Ok((Rows::from_vec(items), rest))
    }
}
