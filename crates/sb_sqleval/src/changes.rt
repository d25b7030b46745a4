// A message's properties with one set or removed.
ghost use Rattle.std.specs.Prelude.{◌≡◌, ◌≤◌, nat_lt, length, IfOk, bytes_eq};
ghost use Rattle.std.specs.List.{prefix_len};
ghost use Rattle.std.specs.Ordering.{nat_cmp, is_lt};
ghost use Rattle.std.specs.Cmp.Lexicographic.{slice_cmp};
ghost use Rattle.sb_model.specs.SystemNames.{system_code};
ghost use Rattle.sb_model.specs.Effects as effects;

use sb_model::{Property, PropertyValue, Rows, SystemName, SystemText, Text};
use std::alloc::{AllocError, Global};

/// How many user properties stand before this name.
fn user_place(props: &[Property], name: &str) -> usize
    ensures value { result ≡ prefix_len (λ q. is_lt (slice_cmp nat_cmp q.name name.now)) props.now }
    ensures within { result ≤ length props.now }
{
    props.iter().take_while(|q| q.name.as_str() < name).count()
}

pub(crate) fn without_user(props: Rows<Property>, name: &str) -> Rows<Property>
    ensures { result ≡ effects.without_user name.now props }
{
    let mut items = props.into_vec();
    items.retain(|p| p.name.as_str() != name);
    Rows::from_vec(items)
}

fn with_one_more(property: Property, others: Rows<Property>) -> Result<Rows<Property>, AllocError>
    ensures { IfOk result (λ r. r ≡ effects.with_one_more property others) }
{
    let place = user_place(others.as_slice(), property.name.as_str());
    let mut items = others.into_vec();
    items.insert(place, property)?;
    Ok(Rows::from_vec(items))
}

/// The property set to this value in its place by name, or removed.
pub(crate) fn with_user(
    alloc: Global,
    name: &str,
    value: Option<PropertyValue>,
    props: Rows<Property>,
) -> Result<Rows<Property>, AllocError>
    ensures { IfOk result (λ r. r ≡ effects.with_user name.now value props) }
{
    let Some(value) = value else {
        return Ok(without_user(props, name));
    };
    let others = without_user(props, name);
    let name = Text::of(alloc, name)?;
    with_one_more(Property { name, value }, others)
}

/// How many system texts stand before this name.
fn system_place(sys: &[SystemText], name: SystemName) -> usize
    ensures value { result ≡ prefix_len (λ q. nat_lt (system_code q.name) (system_code name)) sys.now }
    ensures within { result ≤ length sys.now }
{
    sys.iter()
        .take_while(|q| q.name.code() < name.code())
        .count()
}

pub(crate) fn without_system(sys: Rows<SystemText>, name: SystemName) -> Rows<SystemText>
    ensures { result ≡ effects.without_system name sys }
{
    let mut items = sys.into_vec();
    items.retain(|s| s.name.code() != name.code());
    Rows::from_vec(items)
}

fn with_text_more(
    text: SystemText,
    others: Rows<SystemText>,
) -> Result<Rows<SystemText>, AllocError>
    ensures { IfOk result (λ r. r ≡ effects.with_text_more text others) }
{
    let place = system_place(others.as_slice(), text.name);
    let mut items = others.into_vec();
    items.insert(place, text)?;
    Ok(Rows::from_vec(items))
}

/// The text set in its place by code, or removed by an empty text.
pub(crate) fn with_system(
    name: SystemName,
    text: Text,
    sys: Rows<SystemText>,
) -> Result<Rows<SystemText>, AllocError>
    ensures { IfOk result (λ r. r ≡ effects.with_system name text sys) }
{
    if text.as_bytes().is_empty() {
        return Ok(without_system(sys, name));
    }
    with_text_more(SystemText { name, text }, without_system(sys, name))
}
