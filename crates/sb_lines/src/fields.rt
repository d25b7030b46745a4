// What stands at a key of an object.
ghost use Rattle.std.specs.Prelude.{◌≡◌, IfOk, option_map};
ghost use Rattle.serde_json.specs.View.{view};
ghost use Rattle.sb_machine.specs.Fields.{is_number};
ghost use Rattle.sb_lines.specs.Faults.{Answers, or_key};
ghost use Rattle.sb_lines.specs.Fields as fields;

use crate::fault::{LineFault, bad};
use crate::form::Form;
use crate::token::token_of;
use hex::FromHexError;
use sb_machine::{Mode, Part, Path, Token};
use sb_model::{Rows, Text};
use sb_names::read_address;
use serde_json::Value;
use std::alloc::{AllocError, Global};

/// The greatest number that the namespace gives, 2^63 - 1.
const MAX_NUMBER: u64 = 9_223_372_036_854_775_807;

/// The longest that a call may wait, in s.
const MAX_WAIT: u64 = 3_600;

pub(crate) fn text_at<'a>(value: &'a Value, key: &str) -> Option<&'a str>
    ensures { option_map (λ s. s.now) result ≡ fields.text_at key.now (view value.now) }
{
    value.get(key).and_then(Value::as_str)
}

pub(crate) fn whole_at(value: &Value, key: &str) -> Option<u64>
    ensures { result ≡ fields.whole_at key.now (view value.now) }
{
    value.get(key).and_then(Value::as_u64)
}

fn if_number(n: u64) -> Option<u64>
    ensures { result ≡ fields.if_number n }
{
    if 1 <= n && n <= MAX_NUMBER {
        Some(n)
    } else {
        None
    }
}

/// A number that the namespace may give, 1 to 2^63 - 1.
pub(crate) fn number_in(value: &Value) -> Option<u64>
    ensures { result ≡ fields.number_in (view value.now) }
{
    let n = value.as_u64()?;
    if_number(n)
}

pub(crate) fn number_at(value: &Value, key: &str) -> Option<u64>
    ensures { result ≡ fields.number_at key.now (view value.now) }
{
    let member = value.get(key)?;
    number_in(member)
}

pub(crate) fn name_at(alloc: Global, value: &Value, key: &str) -> Result<Text, LineFault>
    ensures { Answers result (or_key key.now (fields.name_at key.now (view value.now))) }
{
    let Some(text) = text_at(value, key) else {
        return bad(alloc, key);
    };
    let folded = text.to_ascii_lowercase(alloc)?;
    Ok(Text::from_string(folded))
}

#[tactic(auto, unfolding(crate::specs::Fields::path_of))]
fn path_of(alloc: Global, text: &str) -> Result<Path, AllocError>
    ensures { IfOk result (λ path. path ≡ fields.path_of text.now) }
{
    read_address(alloc, text)
}

pub(crate) fn path_at(alloc: Global, value: &Value, key: &str) -> Result<Path, LineFault>
    ensures { Answers result (or_key key.now (fields.path_at key.now (view value.now))) }
{
    let Some(text) = text_at(value, key) else {
        return bad(alloc, key);
    };
    let path = path_of(alloc, text)?;
    Ok(path)
}

fn if_main(path: Path) -> Option<Path>
    ensures { result ≡ fields.if_main path }
{
    match path.part {
        Part::Main => Some(path),
        Part::Dead | Part::Transfer => None,
    }
}

pub(crate) fn entity_at(alloc: Global, value: &Value, key: &str) -> Result<Path, LineFault>
    ensures { Answers result (or_key key.now (fields.entity_at key.now (view value.now))) }
{
    let Some(text) = text_at(value, key) else {
        return bad(alloc, key);
    };
    let path = path_of(alloc, text)?;
    match if_main(path) {
        Some(path) => Ok(path),
        None => bad(alloc, key),
    }
}

pub(crate) fn token_at(value: &Value, key: &str) -> Option<Token>
    ensures { result ≡ fields.token_at key.now (view value.now) }
{
    let text = text_at(value, key)?;
    token_of(text)
}

fn mode_named(word: &str) -> Option<Mode>
    ensures { result ≡ fields.mode_named word.now }
{
    if word == "lock" {
        Some(Mode::Lock)
    } else if word == "delete" {
        Some(Mode::Delete)
    } else {
        None
    }
}

pub(crate) fn mode_in(value: &Value) -> Option<Mode>
    ensures { result ≡ fields.mode_in (view value.now) }
{
    let word = value.as_str()?;
    mode_named(word)
}

fn form_named(word: &str) -> Option<Form>
    ensures { result ≡ fields.form_named word.now }
{
    if word == "amqp" {
        Some(Form::Amqp)
    } else {
        None
    }
}

pub(crate) fn form_in(value: &Value) -> Option<Form>
    ensures { result ≡ fields.form_in (view value.now) }
{
    let word = value.as_str()?;
    form_named(word)
}

fn if_wait(n: u64) -> Option<u64>
    ensures { result ≡ fields.if_wait n }
{
    if n <= MAX_WAIT { Some(n) } else { None }
}

pub(crate) fn wait_in(value: &Value) -> Option<u64>
    ensures { result ≡ fields.wait_in (view value.now) }
{
    let n = value.as_u64()?;
    if_wait(n)
}

/// The bytes of pairs of hexadecimal digits, in either case.
pub(crate) fn hex_at(alloc: Global, value: &Value, key: &str) -> Result<Rows<u8>, LineFault>
    ensures { Answers result (or_key key.now (fields.hex_at key.now (view value.now))) }
{
    let Some(text) = text_at(value, key) else {
        return bad(alloc, key);
    };
    match hex::decode(alloc, text) {
        Ok(bytes) => Ok(Rows::from_vec(bytes)),
        Err(FromHexError::OutOfMemory) => Err(LineFault::OutOfMemory),
        Err(_) => bad(alloc, key),
    }
}
