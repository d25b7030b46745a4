// What a description may hold for each kind of entity.
ghost use Rattle.std.specs.Prelude.{◌≡◌, option_map, MatchResult, Some, None};
ghost use Rattle.sb_machine.specs.Descriptions as descriptions;

use crate::limits::MAX_TTL;
use crate::name::is_name;
use crate::ranges::{is_between, is_between_or_none};
use sb_machine::{Description, EntityKind};
use sb_model::Name;

fn has_copies(kind: EntityKind) -> bool
    ensures { result ≡ descriptions.has_copies kind }
{
    match kind {
        EntityKind::Queue | EntityKind::Subscription => true,
        EntityKind::Topic => false,
    }
}

fn is_sent_to(kind: EntityKind) -> bool
    ensures { result ≡ descriptions.is_sent_to kind }
{
    match kind {
        EntityKind::Queue | EntityKind::Topic => true,
        EntityKind::Subscription => false,
    }
}

fn has_rules(kind: EntityKind) -> bool
    ensures { result ≡ descriptions.has_rules kind }
{
    match kind {
        EntityKind::Subscription => true,
        EntityKind::Queue | EntityKind::Topic => false,
    }
}

fn is_name_or_none(name: &Option<Name>) -> bool
    ensures { result ≡ descriptions.is_name_or_none name.now }
{
    match name {
        Some(name) => is_name(name.as_str()),
        None => true,
    }
}

// In range where the kind has the field, else its default.
fn is_fit(has: bool, good: bool, default: bool) -> bool
    ensures { result ≡ descriptions.is_fit has good default }
{
    if has { good } else { default }
}

fn bad_field(kind: EntityKind, d: &Description) -> Option<&'static str>
    ensures { option_map (λ k. k.now) result ≡ descriptions.bad_in_description kind d.now }
{
    let has_copies = has_copies(kind);
    if !is_fit(has_copies, is_between(1, 300, d.lock), d.lock == 60) {
        return Some("lock");
    }
    if !is_between_or_none(1, MAX_TTL, d.ttl) {
        return Some("ttl");
    }
    if !is_fit(
        has_copies,
        is_between(1, 2000, d.max_delivery),
        d.max_delivery == 10,
    ) {
        return Some("max_delivery");
    }
    if !is_fit(
        is_sent_to(kind),
        is_between_or_none(20, 604_800, d.window),
        d.window.is_none(),
    ) {
        return Some("window");
    }
    if !is_fit(
        has_copies,
        !d.requires_session || d.forward_to.is_none(),
        !d.requires_session,
    ) {
        return Some("requires_session");
    }
    if !(has_copies || !d.dead_on_expiry) {
        return Some("dead_on_expiry");
    }
    if !(has_rules(kind) || d.dead_on_fault) {
        return Some("dead_on_fault");
    }
    if !is_fit(
        has_copies,
        is_name_or_none(&d.forward_to),
        d.forward_to.is_none(),
    ) {
        return Some("forward_to");
    }
    if !is_fit(
        has_copies,
        is_name_or_none(&d.forward_dead_to),
        d.forward_dead_to.is_none(),
    ) {
        return Some("forward_dead_to");
    }
    None
}

/// The first field that is out of range for an entity of this kind, in the order of
/// [`Description`]'s fields: a field that the kind lacks must hold its default, and an entity whose
/// messages are forwarded has no sessions (Microsoft Learn, "Service Bus quotas" and "Chaining Service
/// Bus entities with autoforwarding").
pub fn check_desc(kind: EntityKind, d: &Description) -> Result<(), &'static str>
    ensures { MatchResult result (λ _. descriptions.bad_in_description kind d.now ≡ None) (λ field. descriptions.bad_in_description kind d.now ≡ Some field.now) }
{
    match bad_field(kind, d) {
        Some(field) => Err(field),
        None => Ok(()),
    }
}
