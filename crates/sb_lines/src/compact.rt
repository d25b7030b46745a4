// The text of a JSON value, whose memory is taken once.
ghost use Rattle.std.specs.Prelude.{◌≡◌, ◌++◌, ◌∷◌, [], IfOk, OnOk, false, string_bytes};
ghost use Rattle.json.specs.Token.{number as number_token};
ghost use Rattle.json.specs.Tree.{json_tokens, items_tokens, members_tokens};
ghost use Rattle.serde_json.specs.View.{view, number_view, items_view, members_view};
ghost use Rattle.serde_json.specs.Written.{compact_text, has_float, number_text, outline, items_outline, members_outline};

use json::{Token, Writer};
use serde_json::{Map, Number, Value};
use std::alloc::{AllocError, Global};

/// The text of a value with no float.
#[tactic(auto, using(crate::proofs::Printed::printed))]
pub(crate) fn compact(alloc: Global, value: &Value) -> Result<String, AllocError>
    requires { has_float (view value.now) ≡ false }
    ensures { IfOk result (λ s. string_bytes s ≡ compact_text (view value.now)) }
{
    let mut out = Writer::new(Vec::with_capacity(alloc, room_of(value))?);
    put_value(value, &mut out)?;
    let Ok(text) = String::from_utf8(out.into_inner()) else {
        return Err(AllocError);
    };
    Ok(text)
}

// ---- writing

#[tactic(auto, using(crate::proofs::Printed::digits))]
fn put_number(number: &Number, out: &mut Writer) -> Result<(), AllocError>
    ensures tokens { OnOk result (out.new.tokens ≡ out.old.tokens ++ number_token (number_text (number_view number.now)) ∷ []) }
    ensures before { out.new.before ≡ out.old.before }
{
    if let Some(n) = number.as_u64() {
        return out.u64(n);
    }
    let Some(n) = number.as_i64() else {
        return Err(AllocError);
    };
    out.i64(n)
}

#[cycle(compact)]
fn put_value(value: &Value, out: &mut Writer) -> Result<(), AllocError>
    ensures tokens { OnOk result (out.new.tokens ≡ out.old.tokens ++ json_tokens (outline (view value.now))) }
    ensures before { out.new.before ≡ out.old.before }
{
    match value {
        Value::Null => out.null(),
        Value::Bool(truth) => out.boolean(*truth),
        Value::Number(number) => put_number(number, out),
        Value::String(text) => out.string(text.as_str()),
        Value::Array(items) => {
            out.begin_array()?;
            put_items(items, out)
        }
        Value::Object(members) => {
            out.begin_object()?;
            put_members(members, out)
        }
    }
}

// With the closing bracket.
#[cycle(compact)]
fn put_items(items: &Vec<Value>, out: &mut Writer) -> Result<(), AllocError>
    ensures tokens { OnOk result (out.new.tokens ≡ out.old.tokens ++ items_tokens (items_outline (items_view items.now.items))) }
    ensures before { out.new.before ≡ out.old.before }
{
    for item in items {
        put_value(item, out)?;
    }
    out.end_array()
}

// With the closing brace.
#[cycle(compact)]
fn put_members(members: &Map<String, Value>, out: &mut Writer) -> Result<(), AllocError>
    ensures tokens { OnOk result (out.new.tokens ≡ out.old.tokens ++ members_tokens (members_outline (members_view members.now.entries))) }
    ensures before { out.new.before ≡ out.old.before }
{
    for (key, member) in members.iter() {
        out.key(key.as_str())?;
        put_value(member, out)?;
    }
    out.end_object()
}

// ---- the room that it takes, each token with a comma

/// How many bytes stand in a string for this one (RFC 8259, section 7).
fn escaped(byte: u8) -> usize {
    match byte {
        b'"' | b'\\' | 8 | 9 | 10 | 12 | 13 => 2,
        0..=31 => 6,
        _ => 1,
    }
}

fn room_of_text(text: &str) -> usize {
    let mut room: usize = 4;
    for byte in text.as_bytes() {
        room = room.saturating_add(escaped(*byte));
    }
    room
}

#[cycle(room)]
fn room_of(value: &Value) -> usize {
    match value {
        Value::Null | Value::Bool(_) => 6,
        Value::Number(_) => 21,
        Value::String(text) => room_of_text(text.as_str()),
        Value::Array(items) => room_of_items(items),
        Value::Object(members) => room_of_members(members),
    }
}

#[cycle(room)]
fn room_of_items(items: &Vec<Value>) -> usize {
    let mut room: usize = 4;
    for item in items {
        room = room.saturating_add(room_of(item));
    }
    room
}

#[cycle(room)]
fn room_of_members(members: &Map<String, Value>) -> usize {
    let mut room: usize = 4;
    for (key, member) in members.iter() {
        room = room.saturating_add(room_of_text(key.as_str()));
        room = room.saturating_add(room_of(member));
    }
    room
}
