// The headers of a message in a response.
ghost use Rattle.std.specs.Prelude.{◌≡◌, ◌++◌, ◌∷◌, [], map, IfOk, OnOk, codes};
ghost use Rattle.std.specs.Fmt.{signed_decimal};
ghost use Rattle.std.specs.List.{flat_map};
ghost use Rattle.json.specs.Print.{quoted};
ghost use Rattle.sb_http.specs.Responses.{field_in};
ghost use Rattle.sb_rest.specs.Escapes.{ascii_json};
ghost use Rattle.sb_rest.specs.Shown as shown;

use crate::escape::ascii_json;
use crate::location::location_text;
use crate::reserved::is_hidden;
use crate::shown::{broker_text, json_line};
use httparse::is_token;
use sb_http::Header;
use sb_machine::{CopyShown, Showing};
use sb_model::{Property, PropertyValue, SystemText};
use serde_json::Value;
use std::alloc::{AllocError, Global};

/// Adds a header.
pub(crate) fn push_field(
    alloc: Global,
    headers: &mut Vec<Header>,
    name: &[u8],
    value: &[u8],
) -> Result<(), AllocError>
    ensures { OnOk result (map field_in headers.new.items ≡ map field_in headers.old.items ++ (name.now, value.now) ∷ []) }
{
    let header = Header {
        name: name.to_vec(alloc)?,
        value: value.to_vec(alloc)?,
    };
    headers.push(header)?;
    Ok(())
}

// ---- Content-Type

fn is_printable(text: &[u8]) -> bool
    ensures { result ≡ shown.is_printable text.now }
{
    text.iter().all(|b| (32 <= *b && *b != 127) || *b == 9)
}

#[tactic(auto, unfolding(crate::specs::Shown::is_type))]
fn is_type(text: &SystemText) -> bool
    ensures { result ≡ shown.is_type text.now }
{
    text.name.code() == 8 && is_printable(text.text.as_bytes())
}

fn push_type(alloc: Global, headers: &mut Vec<Header>, text: &SystemText) -> Result<(), AllocError>
    ensures { OnOk result (map field_in headers.new.items ≡ map field_in headers.old.items ++ shown.type_fields text.now) }
{
    if is_type(text) {
        push_field(alloc, headers, b"Content-Type", text.text.as_bytes())
    } else {
        Ok(())
    }
}

fn push_types(
    alloc: Global,
    headers: &mut Vec<Header>,
    texts: &[SystemText],
) -> Result<(), AllocError>
    ensures { OnOk result (map field_in headers.new.items ≡ map field_in headers.old.items ++ flat_map shown.type_fields texts.now) }
{
    for text in texts {
        push_type(alloc, headers, text)?;
    }
    Ok(())
}

// ---- Location

/// Adds the header with the URL of a message under a lock.
pub(crate) fn push_location(
    alloc: Global,
    headers: &mut Vec<Header>,
    host: &[u8],
    place: &str,
    copy: &CopyShown,
) -> Result<(), AllocError>
    ensures { OnOk result (map field_in headers.new.items
        ≡ map field_in headers.old.items ++ shown.location_under copy.now.showing host.now place.now copy.now.number) }
{
    match copy.showing {
        Showing::Locked { token, .. } => {
            let location = location_text(alloc, host, place, copy.number, token)?;
            push_field(alloc, headers, b"Location", &location)
        }
        Showing::Removed | Showing::Browsed(_) => Ok(()),
    }
}

// ---- user properties

fn quoted(alloc: Global, text: &str) -> Result<Vec<u8>, AllocError>
    ensures { IfOk result (λ v. v.items ≡ ascii_json (quoted text.now)) }
{
    let value = Value::try_from_str(alloc, text)?;
    let line = json_line(alloc, &value)?;
    ascii_json(alloc, line.as_str())
}

fn digits(alloc: Global, n: i64) -> Result<Vec<u8>, AllocError>
    ensures { IfOk result (λ v. v.items ≡ signed_decimal n) }
{
    let text = n.to_string(alloc)?;
    Ok(text.into_bytes())
}

fn value_text(alloc: Global, value: &PropertyValue) -> Result<Vec<u8>, AllocError>
    ensures { IfOk result (λ v. v.items ≡ shown.value_text value.now) }
{
    match value {
        PropertyValue::Int(n) => digits(alloc, *n),
        PropertyValue::Text(text) => quoted(alloc, text.as_str()),
        PropertyValue::Bool(true) => b"true".to_vec(alloc),
        PropertyValue::Bool(false) => b"false".to_vec(alloc),
    }
}

#[tactic(auto, unfolding(crate::specs::Shown::stands))]
fn stands(property: &Property) -> bool
    ensures { result ≡ shown.stands property.now }
{
    is_token(property.name.as_bytes()) && !is_hidden(property.name.as_bytes())
}

fn push_value(
    alloc: Global,
    headers: &mut Vec<Header>,
    property: &Property,
) -> Result<(), AllocError>
    ensures { OnOk result (map field_in headers.new.items
        ≡ map field_in headers.old.items ++ (property.now.name, shown.value_text property.now.value) ∷ []) }
{
    let value = value_text(alloc, &property.value)?;
    push_field(alloc, headers, property.name.as_bytes(), &value)
}

fn push_property(
    alloc: Global,
    headers: &mut Vec<Header>,
    property: &Property,
) -> Result<(), AllocError>
    ensures { OnOk result (map field_in headers.new.items
        ≡ map field_in headers.old.items ++ shown.property_fields property.now) }
{
    if stands(property) {
        push_value(alloc, headers, property)
    } else {
        Ok(())
    }
}

fn push_properties(
    alloc: Global,
    headers: &mut Vec<Header>,
    properties: &[Property],
) -> Result<(), AllocError>
    ensures { OnOk result (map field_in headers.new.items
        ≡ map field_in headers.old.items ++ flat_map shown.property_fields properties.now) }
{
    for property in properties {
        push_property(alloc, headers, property)?;
    }
    Ok(())
}

/// The headers of a message that was received there, with the texts of its moments and of the place.
pub(crate) fn message_fields(
    alloc: Global,
    host: &[u8],
    enqueued: &str,
    until: &str,
    place: &str,
    copy: &CopyShown,
) -> Result<Vec<Header>, AllocError>
    ensures { IfOk result (λ v. map field_in v.items
        ≡ shown.message_fields host.now enqueued.now until.now place.now copy.now) }
{
    let mut headers = Vec::new(alloc);
    let texts = copy.message.sys.as_slice();
    let broker = broker_text(alloc, texts, enqueued, until, copy)?;
    push_field(alloc, &mut headers, b"BrokerProperties", &broker)?;
    push_location(alloc, &mut headers, host, place, copy)?;
    push_types(alloc, &mut headers, texts)?;
    push_properties(alloc, &mut headers, copy.message.props.as_slice())?;
    Ok(headers)
}
