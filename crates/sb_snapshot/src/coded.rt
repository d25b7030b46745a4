// Variants: a code, and what stands behind it.
ghost use Rattle.std.specs.Prelude.{◌≡◌, ◌∷◌, [], MatchOption, OnOk};
ghost use Rattle.sb_codec.specs.Forms.{Puts};

use sb_codec::Piece;
use std::alloc::AllocError;

/// Adds a code that stands alone.
pub(crate) fn put_code(code: u8, out: &mut Vec<u8>) -> Result<(), AllocError>
    ensures { Puts (code ∷ []) out.old out.new result }
{
    out.push(code)?;
    Ok(())
}

/// Adds a code, and the spelling of what stands behind it.
pub(crate) fn put_coded<F: Piece>(
    code: u8,
    value: &F::Value,
    out: &mut Vec<u8>,
) -> Result<(), AllocError>
    requires { F.form.Asks value.now }
    ensures puts { Puts (code ∷ F.form.spell value.now) out.old out.new result }
    ensures fits { OnOk result (F.form.Fits value.now) }
{
    out.push(code)?;
    F::put(value, out)
}

/// The code that these bytes begin with, and what is behind it.
pub(crate) fn split_code(bytes: &[u8]) -> Option<(u8, &[u8])>
    ensures { MatchOption result (bytes.now ≡ []) (λ x. bytes.now ≡ x.0 ∷ x.1.now) }
{
    let [code, rest @ ..] = bytes else {
        return None;
    };
    Some((*code, rest))
}
