// Correlation filters: properties that must be there with equal values.
ghost use Rattle.std.specs.Prelude.{◌≡◌, ◌&&◌, ◌==◌, find, bytes_eq};
ghost use Rattle.std.specs.Option.{option_map};
ghost use Rattle.sb_model.specs.SystemNames.{system_code};
ghost use Rattle.std.specs.List.{list_all};
ghost use Rattle.sb_machine.specs.Selection as selection;

use sb_machine::Conditions;
use sb_model::{Message, Property, PropertyValue, SystemName, SystemText};

fn text_named<'a>(sys: &'a [SystemText], name: SystemName) -> Option<&'a SystemText>
    ensures { option_map (λ s. s.now) result ≡ find (λ s. system_code s.name == system_code name) sys.now }
{
    sys.iter().find(|s| s.name.code() == name.code())
}

fn has_text(message: &Message, condition: &SystemText) -> bool
    ensures { result ≡ selection.has_text message.now condition.now }
{
    match text_named(message.sys.as_slice(), condition.name) {
        Some(system) => system.text.as_str() == condition.text.as_str(),
        None => false,
    }
}

/// Equal values of one kind, texts byte for byte.
fn same_value(value: &PropertyValue, other: &PropertyValue) -> bool
    ensures { result ≡ selection.same_value value.now other.now }
{
    match (value, other) {
        (PropertyValue::Int(a), PropertyValue::Int(b)) => a == b,
        (PropertyValue::Text(a), PropertyValue::Text(b)) => a.as_str() == b.as_str(),
        (PropertyValue::Bool(true), PropertyValue::Bool(b)) => *b,
        (PropertyValue::Bool(false), PropertyValue::Bool(b)) => !*b,
        _ => false,
    }
}

fn property_named<'a>(props: &'a [Property], name: &str) -> Option<&'a Property>
    ensures { option_map (λ p. p.now) result ≡ find (λ p. bytes_eq p.name name.now) props.now }
{
    props.iter().find(|p| p.name.as_str() == name)
}

fn has_property(message: &Message, condition: &Property) -> bool
    ensures { result ≡ selection.has_property message.now condition.now }
{
    match property_named(message.props.as_slice(), condition.name.as_str()) {
        Some(property) => same_value(&property.value, &condition.value),
        None => false,
    }
}

fn has_texts(message: &Message, conditions: &[SystemText]) -> bool
    ensures { result ≡ list_all (selection.has_text message.now) conditions.now }
{
    conditions.iter().all(|c| has_text(message, c))
}

fn has_properties(message: &Message, conditions: &[Property]) -> bool
    ensures { result ≡ list_all (selection.has_property message.now) conditions.now }
{
    conditions.iter().all(|c| has_property(message, c))
}

/// Whether the message has each of these properties with just this value.
pub(crate) fn meets(message: &Message, conditions: &Conditions) -> bool
    ensures { result ≡ (list_all (selection.has_text message.now) conditions.now.sys && list_all (selection.has_property message.now) conditions.now.props) }
{
    has_texts(message, conditions.sys.as_slice())
        && has_properties(message, conditions.props.as_slice())
}
