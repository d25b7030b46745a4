// Lists behind their count.
ghost use Rattle.std.specs.Prelude.{◌≡◌, ◌<◌, ◌^◌, true, List, Option, None, Bool, length, OnOk};
ghost use Rattle.std.specs.List.{flat_map};
ghost use Rattle.std.specs.Option.{option_copied};
ghost use Rattle.sb_codec.specs.Readers.{Gives, items_at, tested};
ghost use Rattle.sb_codec.specs.Forms as forms;
ghost use Rattle.sb_codec.specs.Forms.{Follow, Puts};

use crate::fields::Number32;
use crate::piece::Piece;
use crate::unread::Unread;
use sb_model::Rows;
use std::alloc::{AllocError, Global};
use std::marker::PhantomData;

/// What stands in lists, and which may stand behind which.
pub trait Item: Piece {
    ghost follows: { Option Self.Value → Self.Value → Bool };

    fn follows(last: Option<&Self::Value>, next: &Self::Value) -> bool
        ensures { result ≡ follows (option_copied last.entry) next.now };
}

/// Adds the spellings of these items, one behind the other.
pub fn put_items<F: Item>(items: &[F::Value], out: &mut Vec<u8>) -> Result<(), AllocError>
    requires { Follow (λ last x. F.form.Asks x × (F.follows last x ≡ true)) None items.now }
    ensures puts { Puts (flat_map F.form.spell items.now) out.old out.new result }
    ensures fits { OnOk result (Follow (λ last x. F.form.Fits x × (F.follows last x ≡ true)) None items.now) }
{
    for item in items {
        F::put(item, out)?;
    }
    Ok(())
}

/// So many items, each of which may stand behind the one before it, and the bytes behind them.
pub fn items_of<F: Item>(
    alloc: Global,
    count: u64,
    bytes: &[u8],
) -> Result<(Vec<F::Value>, &[u8]), Unread>
    ensures { Gives (λ x. (x.0.items, x.1.now)) result
        (items_at (λ last. tested (F.follows last) F.form.reads) None count bytes.now) }
{
    let mut items = Vec::new(alloc);
    let mut rest = bytes;
    for _ in 0..count {
        let (item, after) = F::take(alloc, rest)?;
        if !F::follows(items.as_slice().last(), &item) {
            return Err(Unread::NoSpelling);
        }
        items.push(item)?;
        rest = after;
    }
    Ok((items, rest))
}

/// A list behind its count in 4 bytes.
pub struct Listed<F> {
    of: PhantomData<F>,
}

impl<F: Item> Piece for Listed<F> {
    type Value = Rows<F::Value>;

    ghost form = { forms.listed F.follows F.form };

    fn put(value: &Rows<F::Value>, out: &mut Vec<u8>) -> Result<(), AllocError> {
        Number32::put(&(value.len() as u64), out)?;
        put_items::<F>(value.as_slice(), out)
    }

    #[tactic(auto, unfolding(crate::specs::Readers::listed_at))]
    fn take(alloc: Global, bytes: &[u8]) -> Result<(Rows<F::Value>, &[u8]), Unread> {
        let (count, rest) = Number32::take(alloc, bytes)?;
        let (items, rest) = items_of::<F>(alloc, count, rest)?;
        Ok((Rows::from_vec(items), rest))
    }
}
