// The tokens of a text.
ghost use Rattle.std.specs.Prelude.{◌≡◌, ◌<◌, length, map, drop, slice_index, IfOk, option_map};
ghost use Rattle.sb_model.specs.Tokens as tokens;

use crate::bytes::{cut, is_digit, is_word, white_len};
use crate::numbers::{first_of, number_at};
use crate::quotes::quoted;
use crate::symbols::symbol_at;
use crate::words::word_at;
use sb_model::{Kind, PropertyValue, Role};
use std::alloc::{AllocError, Global};

/// The tokens of a text in order, and beside each the place in bytes at which it ends.
#[derive(Drop)]
pub struct Tokens {
    pub kinds: Vec<Kind>,
    pub ends: Vec<usize>,
}

/// What stands behind an opening quote.
fn opened(text: &str) -> &str
    requires some { 0 < length text.now }
    requires ascii { slice_index text.now 0 < 128 }
    ensures { result.now ≡ drop 1 text.now }
{
    let (_, behind) = cut(text, 1);
    behind
}

/// A text in single quotes, and what stands behind it.
fn text_at(alloc: Global, text: &str) -> Result<Option<(Kind, &str)>, AllocError>
    ensures { IfOk result (λ r. option_map (λ x. (x.0, x.1.now)) r ≡ tokens.text_at text.now) }
{
    match quoted(alloc, text, b'\'')? {
        Some((value, rest)) => Ok(Some((Kind::Constant(PropertyValue::Text(value)), rest))),
        None => Ok(None),
    }
}

/// A name up to this quote or bracket, and what stands behind it.
fn name_at(alloc: Global, text: &str, quote: u8) -> Result<Option<(Kind, &str)>, AllocError>
    requires { quote < 128 }
    ensures { IfOk result (λ r. option_map (λ x. (x.0, x.1.now)) r ≡ tokens.name_at quote text.now) }
{
    match quoted(alloc, text, quote)? {
        Some((name, rest)) => Ok(Some((Kind::Name(Role::Plain, name), rest))),
        None => Ok(None),
    }
}

/// The longest token that begins here, if one does, and what stands behind it.
fn token_at(alloc: Global, text: &str) -> Result<Option<(Kind, &str)>, AllocError>
    ensures { IfOk result (λ r. option_map (λ x. (x.0, x.1.now)) r ≡ tokens.token_at text.now) }
{
    let Some((first, _)) = first_of(text.as_bytes()) else {
        return Ok(None);
    };
    if first == b'\'' {
        return text_at(alloc, opened(text));
    }
    if first == b'"' {
        return name_at(alloc, opened(text), b'"');
    }
    if first == b'[' {
        return name_at(alloc, opened(text), b']');
    }
    if is_digit(first) {
        return Ok(number_at(text));
    }
    if is_word(first) {
        return Ok(Some(word_at(alloc, text)?));
    }
    Ok(symbol_at(text))
}

/// What stands behind white space.
fn behind_white(text: &str) -> &str
    ensures { result.now ≡ tokens.behind_white text.now }
{
    let (_, rest) = cut(text, white_len(text));
    rest
}

/// The tokens of the text; where none begins, `Unknown` is the last, and ends where the text does.
pub fn tokens_of(alloc: Global, text: &str) -> Result<Tokens, AllocError>
    ensures kinds { IfOk result (λ t. t.kinds.items ≡ map (λ x. x.0) (tokens.tokens_of text.now)) }
    ensures ends { IfOk result (λ t. t.ends.items ≡ map (λ x. x.1) (tokens.tokens_of text.now)) }
{
    let mut kinds = Vec::new(alloc);
    let mut ends = Vec::new(alloc);
    let mut left = text;
    'tokens: loop {
        let begins = behind_white(left);
        if begins.is_empty() {
            return Ok(Tokens { kinds, ends });
        }
        let Some((kind, rest)) = token_at(alloc, begins)? else {
            kinds.push(Kind::Unknown)?;
            ends.push(text.len())?;
            return Ok(Tokens { kinds, ends });
        };
        kinds.push(kind)?;
        ends.push(text.len() - rest.len())?;
        left = rest;
    }
}
