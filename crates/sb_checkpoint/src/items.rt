// What is handed on as bytes, an item after another. Of no more than one item at once do the bytes stand in memory.
ghost use Rattle.std.specs.Prelude.{map, OnOk};
ghost use Rattle.std.specs.List.{All, flat_map};
ghost use Rattle.sb_codec.specs.Forms.{number64};
ghost use Rattle.sb_checkpoint.specs.Takings.{Takes};

use crate::{Pieces, Unput};
use sb_codec::{Number64, Piece};

/// Hands these bytes on.
pub(crate) fn put_bytes<P: Pieces>(bytes: &[u8], out: &mut P) -> Result<(), Unput>
    ensures { Takes P.Pieces out.old out.new bytes.now result }
{
    out.put(bytes)
}

/// Hands the bytes of a value on. They stand in `scratch` meanwhile.
pub(crate) fn put_item<F: Piece, P: Pieces>(
    value: &F::Value,
    scratch: &mut Vec<u8>,
    out: &mut P,
) -> Result<(), Unput>
    requires { F.form.Asks value.now }
    ensures takes { Takes P.Pieces out.old out.new (F.form.spell value.now) result }
    ensures fits { OnOk result (F.form.Fits value.now) }
{
    scratch.clear();
    F::put(value, scratch)?;
    put_bytes(scratch, out)
}

/// Hands a number on, in 8 bytes.
pub(crate) fn put_number<P: Pieces>(
    number: u64,
    scratch: &mut Vec<u8>,
    out: &mut P,
) -> Result<(), Unput>
    ensures takes { Takes P.Pieces out.old out.new (number64.spell number) result }
    ensures fits { OnOk result (number64.Fits number) }
{
    put_item::<Number64, P>(&number, scratch, out)
}

/// Hands these on, one behind the other.
pub(crate) fn put_items<F: Piece, P: Pieces>(
    items: &[F::Value],
    scratch: &mut Vec<u8>,
    out: &mut P,
) -> Result<(), Unput>
    requires { All F.form.Asks items.now }
    ensures takes { Takes P.Pieces out.old out.new (flat_map F.form.spell items.now) result }
    ensures fits { OnOk result (All F.form.Fits items.now) }
{
    for item in items {
        put_item::<F, P>(item, scratch, out)?;
    }
    Ok(())
}

/// Hands these on that stand elsewhere, one behind the other.
pub(crate) fn put_found<F: Piece, P: Pieces>(
    items: &[&F::Value],
    scratch: &mut Vec<u8>,
    out: &mut P,
) -> Result<(), Unput>
    requires { All F.form.Asks (map (λ x. x.now) items.now) }
    ensures takes { Takes P.Pieces out.old out.new (flat_map F.form.spell (map (λ x. x.now) items.now)) result }
    ensures fits { OnOk result (All F.form.Fits (map (λ x. x.now) items.now)) }
{
    for item in items {
        put_item::<F, P>(item, scratch, out)?;
    }
    Ok(())
}
