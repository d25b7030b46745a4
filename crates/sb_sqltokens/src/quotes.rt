// Texts and names between quotes.
ghost use Rattle.std.specs.Prelude.{◌≡◌, ◌<◌, ◌==◌, ◌∷◌, ◌++◌, length, IfOk, IfSome, IfNone, option_map, true, false};
ghost use Rattle.std.specs.List.{list_any};
ghost use Rattle.sb_model.specs.TokenBytes as bytes;

use crate::bytes::cut;
use crate::numbers::first_of;
use sb_model::Text;
use std::alloc::{AllocError, Global};

/// Whether this ASCII character stands anywhere.
fn has(text: &str, byte: u8) -> bool
    ensures { result ≡ list_any (λ b. b == byte) text.now }
{
    text.as_bytes().iter().any(|b| *b == byte)
}

/// What stands before the first quote, and what stands behind it.
fn around(text: &str, quote: u8) -> Option<(&str, &str)>
    requires { quote < 128 }
    ensures some { IfSome result (λ x. text.now ≡ x.0.now ++ quote ∷ x.1.now) }
    ensures before { IfSome result (λ x. list_any (λ b. b == quote) x.0.now ≡ false) }
    ensures none { IfNone result (list_any (λ b. b == quote) text.now ≡ false) }
{
    text.split_once(quote as char)
}

/// What stands behind a quote here, if one more follows anywhere.
fn doubled(text: &str, quote: u8) -> Option<&str>
    requires { quote < 128 }
    ensures some { IfSome result (λ x. text.now ≡ quote ∷ x.now) }
    ensures again { IfSome result (λ x. list_any (λ b. b == quote) x.now ≡ true) }
    ensures none { IfNone result (bytes.ends_here quote text.now ≡ true) }
{
    let (first, _) = first_of(text.as_bytes())?;
    if first != quote {
        return None;
    }
    let (_, onward) = cut(text, 1);
    if has(onward, quote) {
        Some(onward)
    } else {
        None
    }
}

/// Behind an opening quote: the text up to its closing quote, where a doubled quote stands for
/// one, and what stands behind.
pub(crate) fn quoted(
    alloc: Global,
    text: &str,
    quote: u8,
) -> Result<Option<(Text, &str)>, AllocError>
    requires { quote < 128 }
    ensures { IfOk result (λ r. option_map (λ x. (x.0, x.1.now)) r ≡ bytes.quoted quote text.now) }
{
    let mut front = String::new(alloc);
    let mut rest = text;
    'quotes: loop {
        let Some((before, after)) = around(rest, quote) else {
            return Ok(None);
        };
        front.push_str(before)?;
        let Some(onward) = doubled(after, quote) else {
            return Ok(Some((Text::from_string(front), after)));
        };
        front.push(quote as char)?;
        rest = onward;
    }
}
