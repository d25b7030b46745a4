// The values of headers as user properties.
ghost use Rattle.std.specs.Prelude.{◌≡◌, option_map, IfOk, true};
ghost use Rattle.serde_json.specs.Read.{read};
ghost use Rattle.serde_json.specs.View.{view};
ghost use Rattle.sb_rest.specs.Values as values;

use sb_http::number;
use sb_model::{PropertyValue, Text};
use sb_routes::text_of;
use serde_json::Value;
use serde_json::error::Category;
use std::alloc::{AllocError, Global};

/// The JSON that a text is, if it is one.
pub(crate) fn json_text(alloc: Global, text: &str) -> Result<Option<Value>, AllocError>
    ensures { IfOk result (λ o. option_map view o ≡ read text.now) }
{
    match Value::from_str(alloc, text) {
        Ok(value) => Ok(Some(value)),
        Err(error) => {
            if error.classify() == Category::Memory {
                Err(AllocError)
            } else {
                Ok(None)
            }
        }
    }
}

fn is_quoted(value: &[u8]) -> bool
    ensures { result ≡ values.is_quoted value.now }
{
    value.len() >= 2 && value[0] == b'"' && value[value.len() - 1] == b'"'
}

fn between_quotes(value: &[u8]) -> &str
    requires { values.is_quoted value.now ≡ true }
    ensures { result.now ≡ values.between_quotes value.now }
{
    match text_of(&value[1..value.len() - 1]) {
        Some(text) => text,
        None => "",
    }
}

fn positive(n: u64) -> Option<i64>
    ensures { result ≡ values.positive n }
{
    if n < 1 << 63 { Some(n as i64) } else { None }
}

fn negative(n: u64) -> Option<i64>
    ensures { result ≡ values.negative n }
{
    if n <= 1 << 63 {
        Some(n.cast_signed().wrapping_neg())
    } else {
        None
    }
}

fn whole_in(value: &[u8]) -> Option<i64>
    ensures { result ≡ values.whole_in value.now }
{
    match value {
        [b'-', digits @ ..] => negative(number(digits)?),
        _ => positive(number(value)?),
    }
}

fn truth_or_text(alloc: Global, value: &str) -> Result<PropertyValue, AllocError>
    ensures { IfOk result (λ v. v ≡ values.truth_or_text value.now) }
{
    if value == "true" {
        return Ok(PropertyValue::Bool(true));
    }
    if value == "false" {
        return Ok(PropertyValue::Bool(false));
    }
    Ok(PropertyValue::Text(Text::of(alloc, value)?))
}

fn plain_value(alloc: Global, value: &str) -> Result<PropertyValue, AllocError>
    ensures { IfOk result (λ v. v ≡ values.number_or_text value.now (values.whole_in value.now)) }
{
    match whole_in(value.as_bytes()) {
        Some(n) => Ok(PropertyValue::Int(n)),
        None => truth_or_text(alloc, value),
    }
}

fn unquoted(alloc: Global, value: &str) -> Result<Text, AllocError>
    requires { values.is_quoted value.now ≡ true }
    ensures { IfOk result (λ t. t ≡ values.unquoted value.now) }
{
    let Some(json) = json_text(alloc, value)? else {
        return Text::of(alloc, between_quotes(value.as_bytes()));
    };
    match json.as_str() {
        Some(text) => Text::of(alloc, text),
        None => Text::of(alloc, between_quotes(value.as_bytes())),
    }
}

/// What the value of a header says: a text in double quotes as a JSON string, or as it stands between
/// them where it is none; digits, with or without a minus, as a number of 64 bits; `true` and `false`;
/// all else as a text.
#[tactic(auto, unfolding(crate::specs::Values::header_value))]
pub(crate) fn header_value(alloc: Global, value: &str) -> Result<PropertyValue, AllocError>
    ensures { IfOk result (λ v. v ≡ values.header_value value.now) }
{
    if is_quoted(value.as_bytes()) {
        let text = unquoted(alloc, value)?;
        return Ok(PropertyValue::Text(text));
    }
    plain_value(alloc, value)
}
