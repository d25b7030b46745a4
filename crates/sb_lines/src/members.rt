// Members of an object that is being built.
ghost use Rattle.std.specs.Prelude.{◌≡◌, IfOk, OnOk};
ghost use Rattle.hex.specs.Hex.{encode_lower};
ghost use Rattle.serde_json.specs.Data.{number, unsigned, string, object, member, no_members, put as with_member};
ghost use Rattle.serde_json.specs.View.{view, members_view};
ghost use Rattle.sb_lines.specs.Shown.{with_bytes};
ghost use Rattle.sb_lines.specs.Tokens as tokens;

use crate::token::token_text;
use sb_machine::Token;
use serde_json::{Map, Value, put};
use std::alloc::{AllocError, Global};

pub(crate) type Members = Map<String, Value>;

pub(crate) fn put_text(
    members: &mut Members,
    alloc: Global,
    key: &str,
    text: &str,
) -> Result<(), AllocError>
    ensures { OnOk result (members_view members.new.entries
        ≡ with_member key.now (string text.now) (members_view members.old.entries)) }
{
    let value = Value::try_from_str(alloc, text)?;
    put(members, alloc, key, value)
}

pub(crate) fn put_number(
    members: &mut Members,
    alloc: Global,
    key: &str,
    n: u64,
) -> Result<(), AllocError>
    ensures { OnOk result (members_view members.new.entries
        ≡ with_member key.now (number (unsigned n)) (members_view members.old.entries)) }
{
    put(members, alloc, key, Value::from(n))
}

pub(crate) fn put_token(
    members: &mut Members,
    alloc: Global,
    key: &str,
    token: Token,
) -> Result<(), AllocError>
    ensures { OnOk result (members_view members.new.entries
        ≡ with_member key.now (string (tokens.token_text token)) (members_view members.old.entries)) }
{
    let text = token_text(alloc, token)?;
    put(members, alloc, key, Value::String(text))
}

fn put_digits(
    members: &mut Members,
    alloc: Global,
    key: &str,
    bytes: &[u8],
) -> Result<(), AllocError>
    ensures { OnOk result (members_view members.new.entries
        ≡ with_member key.now (string (encode_lower bytes.now)) (members_view members.old.entries)) }
{
    let digits = hex::encode(alloc, bytes)?;
    put(members, alloc, key, Value::String(digits))
}

// Bytes as text under the one key, or as digits under the other.
pub(crate) fn put_bytes(
    members: &mut Members,
    alloc: Global,
    key: &str,
    hex_key: &str,
    bytes: &[u8],
) -> Result<(), AllocError>
    ensures { OnOk result (members_view members.new.entries
        ≡ with_bytes key.now hex_key.now bytes.now (members_view members.old.entries)) }
{
    match std::str::from_utf8(bytes) {
        Ok(text) => put_text(members, alloc, key, text),
        Err(_) => put_digits(members, alloc, hex_key, bytes),
    }
}

// One member, a text.
pub(crate) fn tagged(alloc: Global, tag: &str, word: &str) -> Result<Members, AllocError>
    ensures { IfOk result (λ m. members_view m.entries
        ≡ member tag.now (string word.now) no_members) }
{
    let mut members = Map::new(alloc);
    put_text(&mut members, alloc, tag, word)?;
    Ok(members)
}

// An object with one member, a text.
pub(crate) fn tag_alone(alloc: Global, tag: &str, word: &str) -> Result<Value, AllocError>
    ensures { IfOk result (λ v. view v ≡ object (member tag.now (string word.now) no_members)) }
{
    let members = tagged(alloc, tag, word)?;
    Ok(Value::Object(members))
}

// An object with two members, of which one is a text.
pub(crate) fn tag_with(
    alloc: Global,
    tag: &str,
    word: &str,
    key: &str,
    value: Value,
) -> Result<Value, AllocError>
    ensures { IfOk result (λ v. view v
        ≡ object (with_member key.now (view value) (member tag.now (string word.now) no_members))) }
{
    let mut members = tagged(alloc, tag, word)?;
    put(&mut members, alloc, key, value)?;
    Ok(Value::Object(members))
}
