// Whole numbers.
ghost use Rattle.std.specs.Prelude.{◌≡◌, IfSome, IfNone, option_map, [], ◌∷◌};
ghost use Rattle.sb_model.specs.Tokens as tokens;

use crate::bytes::{cut, digits_len, is_word};
use sb_model::{Kind, PropertyValue};

/// The greatest number that may be written: 2^63 - 1.
const GREATEST: u64 = 9_223_372_036_854_775_807;

pub(crate) fn first_of(bytes: &[u8]) -> Option<(u8, &[u8])>
    ensures some { IfSome result (λ x. bytes.now ≡ x.0 ∷ x.1.now) }
    ensures none { IfNone result (bytes.now ≡ []) }
{
    match bytes {
        [first, rest @ ..] => Some((*first, rest)),
        [] => None,
    }
}

/// The number that these digits spell, if it is at most 2^63 - 1.
fn number_of(digits: &[u8]) -> Option<i64>
    ensures { result ≡ tokens.number_of digits.now }
{
    let mut value: u64 = 0;
    let mut rest = digits;
    'digits: while let Some((first, behind)) = first_of(rest) {
        let digit = first.saturating_sub(b'0') as u64;
        if value > (GREATEST - digit) / 10 {
            return None;
        }
        value = 10 * value + digit;
        rest = behind;
    }
    Some(value as i64)
}

/// Whether what may not follow a number directly stands here: a letter, a digit, `_` or `.`.
fn goes_on(text: &str) -> bool
    ensures { result ≡ tokens.goes_on text.now }
{
    match first_of(text.as_bytes()) {
        Some((first, _)) => is_word(first) || first == b'.',
        None => false,
    }
}

/// A whole number, and what stands behind it.
pub(crate) fn number_at(text: &str) -> Option<(Kind, &str)>
    ensures { option_map (λ x. (x.0, x.1.now)) result ≡ tokens.number_at text.now }
{
    let (digits, rest) = cut(text, digits_len(text));
    if goes_on(rest) {
        return None;
    }
    let number = number_of(digits.as_bytes())?;
    Some((Kind::Constant(PropertyValue::Int(number)), rest))
}
