// Lock tokens as texts.
ghost use Rattle.std.specs.Prelude.{◌≡◌, IfOk, string_bytes};
ghost use Rattle.uuid.specs.Text.{parsed};
ghost use Rattle.sb_lines.specs.Tokens as tokens;

use sb_machine::Token;
use std::alloc::{AllocError, Global};
use uuid::Uuid;

fn uuid_of(text: &str) -> Option<Uuid>
    ensures { result ≡ parsed text.now }
{
    match Uuid::parse_str(text) {
        Ok(uuid) => Some(uuid),
        Err(_) => None,
    }
}

/// The token that a text spells: a UUID in any form that the crate `uuid` reads (with or without
/// hyphens, in braces, as a URN, in either case).
pub fn token_of(text: &str) -> Option<Token>
    ensures { result ≡ tokens.token_in text.now }
{
    let uuid = uuid_of(text)?;
    let (salt, lock) = uuid.as_u64_pair();
    Some(Token { salt, lock })
}

/// A token as it is written: a UUID with hyphens, in small letters (RFC 9562).
pub fn token_text(alloc: Global, token: Token) -> Result<String, AllocError>
    ensures { IfOk result (λ s. string_bytes s ≡ tokens.token_text token) }
{
    let uuid = Uuid::from_u64_pair(token.salt, token.lock);
    let mut buffer = Uuid::encode_buffer();
    let shown = uuid.hyphenated().encode_lower(&mut buffer);
    let text = String::from_str(alloc, shown)?;
    Ok(text)
}
