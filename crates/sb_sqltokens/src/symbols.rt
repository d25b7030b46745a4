// Operators and other signs.
ghost use Rattle.std.specs.Prelude.{◌≡◌, ◌<◌, IfSome, option_map};
ghost use Rattle.sb_model.specs.Tokens as tokens;

use crate::bytes::cut;
use crate::numbers::first_of;
use sb_model::{BinaryOperator, Kind};

/// The operator of these two characters.
fn pair_kind(first: u8, second: u8) -> Option<Kind>
    ensures kind { result ≡ tokens.pair_kind first second }
    ensures ascii { IfSome result (λ _. second < 128) }
{
    if first == b'<' && second == b'>' {
        Some(Kind::Binary(BinaryOperator::NotEqual))
    } else if first == b'!' && second == b'=' {
        Some(Kind::Binary(BinaryOperator::NotEqual))
    } else if first == b'>' && second == b'=' {
        Some(Kind::Binary(BinaryOperator::AtLeast))
    } else if first == b'<' && second == b'=' {
        Some(Kind::Binary(BinaryOperator::AtMost))
    } else {
        None
    }
}

/// The token of this character alone.
fn symbol_kind(byte: u8) -> Option<Kind>
    ensures kind { result ≡ tokens.symbol_kind byte }
    ensures ascii { IfSome result (λ _. byte < 128) }
{
    match byte {
        b'=' => Some(Kind::Binary(BinaryOperator::Equal)),
        b'>' => Some(Kind::Binary(BinaryOperator::Greater)),
        b'<' => Some(Kind::Binary(BinaryOperator::Less)),
        b'+' => Some(Kind::Binary(BinaryOperator::Add)),
        b'-' => Some(Kind::Binary(BinaryOperator::Subtract)),
        b'*' => Some(Kind::Binary(BinaryOperator::Multiply)),
        b'/' => Some(Kind::Binary(BinaryOperator::Divide)),
        b'%' => Some(Kind::Binary(BinaryOperator::Remainder)),
        b'(' => Some(Kind::Open),
        b')' => Some(Kind::Close),
        b'.' => Some(Kind::Dot),
        b',' => Some(Kind::Comma),
        b';' => Some(Kind::Semicolon),
        _ => None,
    }
}

/// An operator of two characters, and what stands behind it.
fn pair_at(text: &str) -> Option<(Kind, &str)>
    ensures { option_map (λ x. (x.0, x.1.now)) result ≡ tokens.pair_at text.now }
{
    let (first, more) = first_of(text.as_bytes())?;
    let (second, _) = first_of(more)?;
    let kind = pair_kind(first, second)?;
    let (_, rest) = cut(text, 2);
    Some((kind, rest))
}

/// A token of one character, and what stands behind it.
fn single_at(text: &str) -> Option<(Kind, &str)>
    ensures { option_map (λ x. (x.0, x.1.now)) result ≡ tokens.single_at text.now }
{
    let (first, _) = first_of(text.as_bytes())?;
    let kind = symbol_kind(first)?;
    let (_, rest) = cut(text, 1);
    Some((kind, rest))
}

/// An operator or another sign, the longer one where two begin, and what stands behind it.
pub(crate) fn symbol_at(text: &str) -> Option<(Kind, &str)>
    ensures { option_map (λ x. (x.0, x.1.now)) result ≡ tokens.symbol_at text.now }
{
    match pair_at(text) {
        Some(token) => Some(token),
        None => single_at(text),
    }
}
