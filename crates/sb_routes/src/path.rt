// Paths and their segments.
ghost use Rattle.std.specs.Prelude.{◌≡◌, ◌∷◌, ◌++◌, ◌<◌, [], length, map, IfOk, MatchOption, option_map};
ghost use Rattle.std.specs.Char.{to_ascii_lowercase};
ghost use Rattle.form_urlencoded.specs.Form.{split_once};
ghost use Rattle.sb_routes.specs.Paths as paths;

use std::alloc::{AllocError, Global};

/// The text that these bytes are, where they are UTF-8.
#[tactic(auto, using(crate::proofs::Texts::text_tests))]
pub fn text_of(bytes: &[u8]) -> Option<&str>
    ensures { option_map (λ s. s.now) result ≡ paths.as_text bytes.now }
{
    match std::str::from_utf8(bytes) {
        Ok(text) => Some(text),
        Err(_) => None,
    }
}

/// The bytes before the first of these, and those behind it; all and none where it isn't there.
pub fn cut(bytes: &[u8], at: u8) -> (&[u8], &[u8])
    ensures before { result.0.now ≡ (split_once at bytes.now).0 }
    ensures after { result.1.now ≡ (split_once at bytes.now).1 }
{
    match bytes.iter().position(|&b| b == at) {
        Some(i) => (&bytes[..i], &bytes[i + 1..]),
        None => (bytes, &[]),
    }
}

/// What stands behind so many slashes of a path, up to the next: since a path begins with a slash, its
/// first segment is that of 1. It is empty where there are not so many.
#[tactic(auto, unfolding(crate::specs::Paths::segment))]
pub fn segment(path: &[u8], n: usize) -> &[u8]
    ensures { result.now ≡ paths.segment n path.now }
{
    let mut rest = path;
    let mut left = n;
    while left > 0 {
        rest = cut(rest, b'/').1;
        left -= 1;
    }
    cut(rest, b'/').0
}

// The next byte with an escaped dollar sign undone, and what is behind it.
#[tactic(auto, unfolding(crate::specs::Paths::undollared))]
fn next_byte(bytes: &[u8]) -> Option<(u8, &[u8])>
    ensures value { MatchOption result (paths.undollared bytes.now ≡ [])
        (λ x. paths.undollared bytes.now ≡ x.0 ∷ paths.undollared x.1.now) }
    ensures shorter { MatchOption result (length bytes.now ≡ 0) (λ x. length x.1.now < length bytes.now) }
{
    match bytes {
        [] => None,
        [b'%', b'2', b'4', rest @ ..] => Some((b'$', rest)),
        [first, rest @ ..] => Some((*first, rest)),
    }
}

/// A path as it is looked up.
pub(crate) fn looked(alloc: Global, path: &[u8]) -> Result<Vec<u8>, AllocError>
    ensures { IfOk result (λ v. v.items ≡ paths.looked_up path.now) }
{
    let mut out = Vec::new(alloc);
    let mut rest = path;
    while let Some((first, next)) = next_byte(rest) {
        out.push(first.to_ascii_lowercase())?;
        rest = next;
    }
    Ok(out)
}
