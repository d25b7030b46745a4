// Reserved words and names.
ghost use Rattle.std.specs.Prelude.{◌≡◌, IfOk, Some};
ghost use Rattle.sb_model.specs.Tokens as tokens;

use crate::bytes::{cut, word_len};
use sb_model::{BinaryOperator, Kind, PropertyValue, Role, Text};
use std::alloc::{AllocError, Global};

/// The token of a reserved word, which is given in lower case.
fn reserved(word: &str) -> Option<Kind>
    ensures { result ≡ tokens.reserved word.now }
{
    if word == "and" {
        Some(Kind::Binary(BinaryOperator::And))
    } else if word == "or" {
        Some(Kind::Binary(BinaryOperator::Or))
    } else if word == "not" {
        Some(Kind::Not)
    } else if word == "in" {
        Some(Kind::In)
    } else if word == "like" {
        Some(Kind::Like)
    } else if word == "escape" {
        Some(Kind::Escape)
    } else if word == "is" {
        Some(Kind::Is)
    } else if word == "null" {
        Some(Kind::Null)
    } else if word == "exists" {
        Some(Kind::Exists)
    } else if word == "true" {
        Some(Kind::Constant(PropertyValue::Bool(true)))
    } else if word == "false" {
        Some(Kind::Constant(PropertyValue::Bool(false)))
    } else if word == "set" {
        Some(Kind::Set)
    } else if word == "remove" {
        Some(Kind::Remove)
    } else {
        None
    }
}

/// What a word, which is given in lower case, may stand for beside itself.
fn role_of(word: &str) -> Role
    ensures { result ≡ tokens.role_of word.now }
{
    if word == "p" || word == "property" {
        Role::Function
    } else if word == "sys" {
        Role::SystemScope
    } else if word == "user" {
        Role::UserScope
    } else {
        Role::Plain
    }
}

/// The token of a word.
fn word_kind(alloc: Global, word: &str) -> Result<Kind, AllocError>
    ensures { IfOk result (λ k. k ≡ tokens.word_kind word.now) }
{
    let folded = word.to_ascii_lowercase(alloc)?;
    if let Some(kind) = reserved(folded.as_str()) {
        return Ok(kind);
    }
    let role = role_of(folded.as_str());
    Ok(Kind::Name(role, Text::of(alloc, word)?))
}

/// A word, and what stands behind it.
pub(crate) fn word_at(alloc: Global, text: &str) -> Result<(Kind, &str), AllocError>
    ensures { IfOk result (λ x. Some (x.0, x.1.now) ≡ tokens.word_at text.now) }
{
    let (word, rest) = cut(text, word_len(text));
    Ok((word_kind(alloc, word)?, rest))
}
