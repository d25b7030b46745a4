// Messages as a state keeps them.
ghost use Rattle.std.specs.Prelude.{◌≡◌, ◌+◌, ◌&&◌, ◌||◌, nat_lt, nat_le, not, length, filter, sum_by, Option, Some, None, is_none};
ghost use Rattle.std.specs.List.{list_all};
ghost use Rattle.sb_machine.specs.Fields as fields;
ghost use Rattle.sb_machine.specs.Fit as fit;
ghost use Rattle.sb_machine.specs.Names as names;
ghost use Rattle.sb_model.specs.Effects as effects;
ghost use Rattle.sb_model.specs.SystemNames.{system_code};
ghost use Rattle.sb_judge.specs.Messages as spec;

use crate::sorted::{Ordered, is_on};
use sb_model::{Message, Property, SystemText};
use sb_names::limits::{MAX_BODY, MAX_PROPERTY_BYTES, MAX_TTL, MAX_USER_PROPERTIES};
use sb_names::{bad_in_texts, is_between_or_none, value_size};

impl Ordered for SystemText {
    ghost before = { λ a b. nat_lt (system_code a.name) (system_code b.name) };

    fn is_before(&self, other: &SystemText) -> bool {
        self.name.code() < other.name.code()
    }
}

impl Ordered for Property {
    ghost before = { λ a b. names.is_before a.name b.name };

    fn is_before(&self, other: &Property) -> bool {
        self.name.as_str() < other.name.as_str()
    }
}

/// Whether a state may keep this message, but for its schedule.
#[tactic(auto, unfolding(crate::specs::Messages::message_verdict))]
pub(crate) fn is_message(message: &Message) -> bool
    ensures { result ≡ (spec.message_verdict message.now).0 }
{
    are_kept_parts(message.sys.as_slice(), message.props.as_slice())
        && message.body.len() as u64 <= MAX_BODY
        && is_between_or_none(1, MAX_TTL, message.ttl)
}

/// Whether a message that a state keeps may have these properties.
#[tactic(auto, unfolding(crate::specs::Messages::parts_verdict))]
pub(crate) fn are_kept_parts(sys: &[SystemText], props: &[Property]) -> bool
    ensures { result ≡ (spec.parts_verdict sys.now props.now).0 }
{
    are_texts_in_order(sys)
        && are_texts_set(sys)
        && are_properties_in_order(props)
        && are_own_short(props)
        && bad_in_texts(sys).is_none()
        && count_of_others(props) <= MAX_USER_PROPERTIES
        && are_small(props, sys)
}

// ---- order

/// Whether properties stand in order, and no system text is empty.
pub(crate) fn are_in_order(sys: &[SystemText], props: &[Property]) -> bool
    ensures { result ≡ ((spec.properties_order props.now).0 && ((spec.texts_order sys.now).0 && list_all (λ s. nat_lt 0 (length s.text)) sys.now)) }
{
    are_properties_in_order(props) && are_texts_in_order(sys) && are_texts_set(sys)
}

#[tactic(auto, using(crate::proofs::InOrder::texts), unfolding(crate::specs::Messages::texts_order))]
fn are_texts_in_order(sys: &[SystemText]) -> bool
    ensures { result ≡ (spec.texts_order sys.now).0 }
{
    is_on(sys)
}

#[tactic(auto, using(crate::proofs::InOrder::properties), unfolding(crate::specs::Messages::properties_order))]
fn are_properties_in_order(props: &[Property]) -> bool
    ensures { result ≡ (spec.properties_order props.now).0 }
{
    is_on(props)
}

fn are_texts_set(sys: &[SystemText]) -> bool
    ensures { result ≡ list_all (λ s. nat_lt 0 (length s.text)) sys.now }
{
    sys.iter().all(|own| 0 < own.text.as_bytes().len())
}

// ---- what the service itself sets

fn is_set_aside(property: &Property) -> bool
    ensures { result ≡ fit.is_set_aside property.now }
{
    let name = property.name.as_str();
    name == "rulename" || name == "deadletterreason" || name == "deadlettererrordescription"
}

fn is_short_if_own(property: &Property) -> bool
    ensures { result ≡ (not (fit.is_set_aside property.now) || nat_le (effects.value_size property.now.value) effects.max_property_bytes) }
{
    !is_set_aside(property) || value_size(&property.value) <= MAX_PROPERTY_BYTES
}

fn are_own_short(props: &[Property]) -> bool
    ensures { result ≡ list_all (λ p. not (fit.is_set_aside p) || nat_le (effects.value_size p.value) effects.max_property_bytes) props.now }
{
    props.iter().all(|p| is_short_if_own(p))
}

// ---- how many, and how large

fn count_of_others(props: &[Property]) -> usize
    ensures { result ≡ length (spec.others props.now) }
{
    let mut count = 0;
    for property in props {
        if !is_set_aside(property) {
            count += 1;
        }
    }
    count
}

// What is left of so many bytes behind a property's.
fn behind_property(left: u64, property: &Property) -> Option<u64>
    ensures { result ≡ spec.less left (effects.property_size property.now) }
{
    match left.checked_sub(property.name.as_bytes().len() as u64) {
        Some(left) => left.checked_sub(value_size(&property.value)),
        None => None,
    }
}

fn behind_properties(props: &[Property]) -> Option<u64>
    ensures { result ≡ spec.less effects.max_property_bytes (sum_by effects.property_size (spec.others props.now)) }
{
    let mut left = MAX_PROPERTY_BYTES;
    for property in props {
        if !is_set_aside(property) {
            let Some(rest) = behind_property(left, property) else {
                return None;
            };
            left = rest;
        }
    }
    Some(left)
}

fn behind_texts(left: u64, sys: &[SystemText]) -> Option<u64>
    ensures { result ≡ spec.less left (sum_by effects.text_size sys.now) }
{
    let mut left = left;
    for own in sys {
        let Some(rest) = left.checked_sub(own.text.as_bytes().len() as u64) else {
            return None;
        };
        left = rest;
    }
    Some(left)
}

fn are_small(props: &[Property], sys: &[SystemText]) -> bool
    ensures { result ≡ nat_le (sum_by effects.property_size (spec.others props.now) + sum_by effects.text_size sys.now) effects.max_property_bytes }
{
    match behind_properties(props) {
        Some(left) => behind_texts(left, sys).is_some(),
        None => false,
    }
}
