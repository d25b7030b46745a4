// Variants: a code, and what stands behind it.
ghost use Rattle.std.specs.Prelude.{◌≡◌, ◌∷◌, [], MatchOption};

/// The code that these bytes begin with, and what is behind it.
pub(crate) fn split_code(bytes: &[u8]) -> Option<(u8, &[u8])>
    ensures { MatchOption result (bytes.now ≡ []) (λ x. bytes.now ≡ x.0 ∷ x.1.now) }
{
    let [code, rest @ ..] = bytes else {
        return None;
    };
    Some((*code, rest))
}
