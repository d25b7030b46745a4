// Texts and application properties, from values.
ghost use Rattle.std.specs.Prelude.{◌≡◌, IfOk, decimal, option_map};
ghost use Rattle.sb_amqp.specs.Meaning as meaning;

use crate::numbers::{signed_in, unsigned_in};
use crate::values::Kind;
use itoa::Buffer;
use sb_model::{PropertyValue, SystemName, Text};
use std::alloc::{AllocError, Global};
use uuid::Uuid;

#[tactic(auto, using(crate::proofs::Utf8::text_tests))]
fn if_utf8(bytes: &[u8]) -> Option<&str>
    ensures { option_map (λ t. t.now) result ≡ meaning.if_utf8 bytes.now }
{
    let Ok(text) = str::from_utf8(bytes) else {
        return None;
    };
    Some(text)
}

/// The text of a string or a symbol that is UTF-8.
pub(crate) fn plain_text(kind: Kind, content: &[u8]) -> Option<&str>
    ensures { option_map (λ t. t.now) result ≡ meaning.plain_text kind content.now }
{
    match kind {
        Kind::String | Kind::Symbol => if_utf8(content),
        _ => None,
    }
}

fn text_or_none(alloc: Global, text: Option<&str>) -> Result<Option<Text>, AllocError>
    ensures { IfOk result (λ o. o ≡ option_map (λ t. t.now) text.entry) }
{
    let Some(text) = text else {
        return Ok(None);
    };
    Ok(Some(Text::of(alloc, text)?))
}

fn number_text(alloc: Global, number: u64) -> Result<Text, AllocError>
    ensures { IfOk result (λ t. t ≡ decimal number) }
{
    let mut buffer = Buffer::new();
    Text::of(alloc, buffer.format(number))
}

/// Hyphenated, in small letters (RFC 9562).
fn uuid_text(alloc: Global, content: &[u8]) -> Result<Option<Text>, AllocError>
    ensures { IfOk result (λ o. o ≡ meaning.uuid_text content.now) }
{
    let Ok(id) = Uuid::from_slice(content) else {
        return Ok(None);
    };
    let mut buffer = Uuid::encode_buffer();
    let text = Text::of(alloc, id.hyphenated().encode_lower(&mut buffer))?;
    Ok(Some(text))
}

fn id_text(alloc: Global, kind: Kind, content: &[u8]) -> Result<Option<Text>, AllocError>
    ensures { IfOk result (λ o. o ≡ meaning.id_text kind content.now) }
{
    match kind {
        Kind::String => text_or_none(alloc, if_utf8(content)),
        Kind::Ulong => Ok(Some(number_text(alloc, unsigned_in(content))?)),
        Kind::Uuid => uuid_text(alloc, content),
        _ => Ok(None),
    }
}

fn is_id(name: SystemName) -> bool
    ensures { result ≡ meaning.is_id name }
{
    match name {
        SystemName::MessageId | SystemName::CorrelationId => true,
        SystemName::Label
        | SystemName::SessionId
        | SystemName::To
        | SystemName::ReplyTo
        | SystemName::ReplyToSessionId
        | SystemName::ContentType => false,
    }
}

pub(crate) fn is_null(kind: Kind) -> bool
    ensures { result ≡ meaning.is_null kind }
{
    matches!(kind, Kind::Null)
}

/// The system text of this name; null is as an empty one. None where the value can't be used.
pub(crate) fn text_from(
    alloc: Global,
    name: SystemName,
    kind: Kind,
    content: &[u8],
) -> Result<Option<Text>, AllocError>
    ensures { IfOk result (λ o. o ≡ meaning.text_from name kind content.now) }
{
    if is_null(kind) {
        return Ok(Some(Text::of(alloc, "")?));
    }
    if is_id(name) {
        return id_text(alloc, kind, content);
    }
    text_or_none(alloc, plain_text(kind, content))
}

fn if_i64(number: u64) -> Option<PropertyValue>
    ensures { result ≡ meaning.if_i64 number }
{
    if number > i64::MAX as u64 {
        return None;
    }
    Some(PropertyValue::Int(number as i64))
}

fn if_truth(number: u64) -> Option<PropertyValue>
    ensures { result ≡ meaning.if_truth number }
{
    if number == 0 {
        Some(PropertyValue::Bool(false))
    } else if number == 1 {
        Some(PropertyValue::Bool(true))
    } else {
        None
    }
}

fn text_property(alloc: Global, text: Option<&str>) -> Result<Option<PropertyValue>, AllocError>
    ensures { IfOk result (λ o. o ≡ meaning.text_property (option_map (λ t. t.now) text.entry)) }
{
    let Some(text) = text else {
        return Ok(None);
    };
    Ok(Some(PropertyValue::Text(Text::of(alloc, text)?)))
}

/// What an application property holds. None where the value can't be used.
pub(crate) fn property_from(
    alloc: Global,
    kind: Kind,
    content: &[u8],
) -> Result<Option<PropertyValue>, AllocError>
    ensures { IfOk result (λ o. o ≡ meaning.property_from kind content.now) }
{
    match kind {
        Kind::True => Ok(Some(PropertyValue::Bool(true))),
        Kind::False => Ok(Some(PropertyValue::Bool(false))),
        Kind::Boolean => Ok(if_truth(unsigned_in(content))),
        Kind::Ubyte | Kind::Ushort | Kind::Uint | Kind::Ulong => Ok(if_i64(unsigned_in(content))),
        Kind::Byte | Kind::Short | Kind::Int | Kind::Long => {
            Ok(Some(PropertyValue::Int(signed_in(content))))
        }
        Kind::String | Kind::Symbol => text_property(alloc, if_utf8(content)),
        Kind::Null
        | Kind::Timestamp
        | Kind::Uuid
        | Kind::Binary
        | Kind::List
        | Kind::Map
        | Kind::Other => Ok(None),
    }
}
