// A copy of a message as a reply shows it.
ghost use Rattle.std.specs.Prelude.{◌≡◌, IfOk, OnOk, string_bytes};
ghost use Rattle.hex.specs.Hex.{encode_lower};
ghost use Rattle.serde_json.specs.Data.{object, no_members};
ghost use Rattle.serde_json.specs.View.{view, members_view};
ghost use Rattle.sb_lines.specs.Shown as shown;

use crate::compact::compact;
use crate::form::Form;
use crate::members::{Members, put_bytes, put_number, put_text, put_token};
use sb_amqp::write_scheduled;
use sb_machine::{CopyShown, CopyState, Showing};
use sb_model::{Property, PropertyValue, SystemText};
use serde_json::{Map, Value, put};
use std::alloc::{AllocError, Global};

/// A message as the line of a reply shows it, under `message`: one JSON object, without a line feed.
#[tactic(auto, unfolding(crate::specs::Shown::message_text))]
pub fn message_text(alloc: Global, copy: &CopyShown) -> Result<String, AllocError>
    ensures { IfOk result (λ s. string_bytes s ≡ shown.message_text copy.now) }
{
    let value = plain_value(alloc, copy)?;
    compact(alloc, &value)
}

/// A property's value as JSON.
pub fn property_data(alloc: Global, value: &PropertyValue) -> Result<Value, AllocError>
    ensures { IfOk result (λ v. view v ≡ shown.property_data value.now) }
{
    match value {
        PropertyValue::Int(n) => Ok(Value::from(*n)),
        PropertyValue::Text(text) => Value::try_from_str(alloc, text.as_str()),
        PropertyValue::Bool(b) => Ok(Value::from(*b)),
    }
}

pub(crate) fn properties_value(alloc: Global, properties: &[Property]) -> Result<Value, AllocError>
    ensures { IfOk result (λ v. view v ≡ object (shown.with_properties no_members properties.now)) }
{
    let mut members = Map::new(alloc);
    for property in properties {
        let value = property_data(alloc, &property.value)?;
        put(&mut members, alloc, property.name.as_str(), value)?;
    }
    Ok(Value::Object(members))
}

pub(crate) fn texts_value(alloc: Global, texts: &[SystemText]) -> Result<Value, AllocError>
    ensures { IfOk result (λ v. view v ≡ object (shown.with_texts no_members texts.now)) }
{
    let mut members = Map::new(alloc);
    for text in texts {
        put_text(&mut members, alloc, text.name.name(), text.text.as_str())?;
    }
    Ok(Value::Object(members))
}

// What each copy has.
fn common_members(alloc: Global, copy: &CopyShown) -> Result<Members, AllocError>
    ensures { IfOk result (λ m. members_view m.entries ≡ shown.common_members copy.now) }
{
    let properties = properties_value(alloc, copy.message.props.as_slice())?;
    let texts = texts_value(alloc, copy.message.sys.as_slice())?;
    let mut members = Map::new(alloc);
    put_number(&mut members, alloc, "delivery", copy.delivery)?;
    put_number(&mut members, alloc, "enqueued", copy.enqueued)?;
    put_number(&mut members, alloc, "enqueued_seq", copy.enqueued_seq)?;
    put(&mut members, alloc, "props", properties)?;
    put_number(&mut members, alloc, "seq", copy.number)?;
    put(&mut members, alloc, "sys", texts)?;
    Ok(members)
}

fn put_ttl(members: &mut Members, alloc: Global, ttl: Option<u64>) -> Result<(), AllocError>
    ensures { OnOk result (members_view members.new.entries
        ≡ shown.with_ttl ttl (members_view members.old.entries)) }
{
    match ttl {
        None => Ok(()),
        Some(seconds) => put_number(members, alloc, "ttl", seconds),
    }
}

fn state_name(state: CopyState) -> &'static str
    ensures { result.now ≡ shown.state_name state }
{
    match state {
        CopyState::Ready => "ready",
        CopyState::Deferred => "deferred",
        CopyState::Held => "held",
        CopyState::Scheduled(_) => "scheduled",
    }
}

fn put_schedule(members: &mut Members, alloc: Global, state: CopyState) -> Result<(), AllocError>
    ensures { OnOk result (members_view members.new.entries
        ≡ shown.with_schedule state (members_view members.old.entries)) }
{
    match state {
        CopyState::Ready | CopyState::Deferred | CopyState::Held => Ok(()),
        CopyState::Scheduled(moment) => put_number(members, alloc, "schedule", moment),
    }
}

fn put_showing(members: &mut Members, alloc: Global, showing: Showing) -> Result<(), AllocError>
    ensures { OnOk result (members_view members.new.entries
        ≡ shown.with_showing showing (members_view members.old.entries)) }
{
    match showing {
        Showing::Removed => Ok(()),
        Showing::Locked { token, until } => {
            put_token(members, alloc, "token", token)?;
            put_number(members, alloc, "until", until)
        }
        Showing::Browsed(state) => {
            put_schedule(members, alloc, state)?;
            put_text(members, alloc, "state", state_name(state))
        }
    }
}

fn schedule_in(showing: Showing) -> Option<u64>
    ensures { result ≡ shown.schedule_in showing }
{
    match showing {
        Showing::Browsed(CopyState::Scheduled(moment)) => Some(moment),
        _ => None,
    }
}

// A copy's message in the bytes of AMQP, as digits.
fn amqp_digits(alloc: Global, copy: &CopyShown) -> Result<String, AllocError>
    ensures { IfOk result (λ s. string_bytes s ≡ encode_lower (shown.amqp_bytes copy.now)) }
{
    let bytes = write_scheduled(alloc, &copy.message, schedule_in(copy.showing))?;
    hex::encode(alloc, bytes.as_slice())
}

// What each copy has beside its message.
fn copy_members(alloc: Global, copy: &CopyShown) -> Result<Members, AllocError>
    ensures { IfOk result (λ m. members_view m.entries ≡ shown.copy_members copy.now) }
{
    let mut members = Map::new(alloc);
    put_number(&mut members, alloc, "delivery", copy.delivery)?;
    put_number(&mut members, alloc, "enqueued", copy.enqueued)?;
    put_number(&mut members, alloc, "enqueued_seq", copy.enqueued_seq)?;
    put_number(&mut members, alloc, "seq", copy.number)?;
    Ok(members)
}

fn amqp_value(alloc: Global, copy: &CopyShown) -> Result<Value, AllocError>
    ensures { IfOk result (λ v. view v ≡ shown.amqp_data copy.now) }
{
    let digits = amqp_digits(alloc, copy)?;
    let mut members = copy_members(alloc, copy)?;
    put_showing(&mut members, alloc, copy.showing)?;
    put(&mut members, alloc, "amqp_hex", Value::String(digits))?;
    Ok(Value::Object(members))
}

// A copy as an object.
pub(crate) fn shown_value(alloc: Global, form: Form, copy: &CopyShown) -> Result<Value, AllocError>
    ensures { IfOk result (λ v. view v ≡ shown.shown_data form copy.now) }
{
    match form {
        Form::Plain => plain_value(alloc, copy),
        Form::Amqp => amqp_value(alloc, copy),
    }
}

fn plain_value(alloc: Global, copy: &CopyShown) -> Result<Value, AllocError>
    ensures { IfOk result (λ v. view v ≡ shown.plain_data copy.now) }
{
    let mut members = common_members(alloc, copy)?;
    put_ttl(&mut members, alloc, copy.message.ttl)?;
    put_showing(&mut members, alloc, copy.showing)?;
    put_bytes(
        &mut members,
        alloc,
        "body",
        "body_hex",
        copy.message.body.as_slice(),
    )?;
    Ok(Value::Object(members))
}
