// Addresses.
ghost use Rattle.std.specs.Prelude.{◌≡◌, IfOk, option_map, Some};
ghost use Rattle.sb_machine.specs.Names as names;
ghost use Rattle.sb_names.specs.Addresses as addresses;

use crate::name::{is_name, is_short_name};
use sb_machine::{Part, Path};
use sb_model::{Name, Text};
use std::alloc::{AllocError, Global};

/// Whether an address is made of names.
pub fn is_address(path: &Path) -> bool
    ensures { result ≡ names.is_address path.now }
{
    let is_subscription = match &path.subscription {
        Some(name) => is_short_name(name.as_str()),
        None => true,
    };
    is_name(path.name.as_str()) && is_subscription
}

/// Whether a part is the main one, neither dead letters nor transfers.
pub fn is_main(part: Part) -> bool
    ensures { result ≡ names.is_main part }
{
    match part {
        Part::Main => true,
        Part::Dead | Part::Transfer => false,
    }
}

fn is_same_option(a: &Option<Name>, b: &Option<Name>) -> bool
    ensures { result ≡ names.is_same_option a.now b.now }
{
    match (a, b) {
        (None, None) => true,
        (Some(a), Some(b)) => a.as_str() == b.as_str(),
        _ => false,
    }
}

/// Whether two addresses name one entity, whatever the parts.
pub fn is_same_entity(a: &Path, b: &Path) -> bool
    ensures { result ≡ names.is_same_entity a.now b.now }
{
    a.name.as_str() == b.name.as_str() && is_same_option(&a.subscription, &b.subscription)
}

// The text up to the first slash.
fn up_to_slash(text: &str) -> &str
    ensures { result.now ≡ addresses.up_to_slash text.now }
{
    match text.split_once('/') {
        Some((before, _)) => before,
        None => text,
    }
}

// What is behind the first slash, where there is one.
fn behind_slash(text: &str) -> Option<&str>
    ensures { option_map (λ s. s.now) result ≡ addresses.behind_slash text.now }
{
    match text.split_once('/') {
        Some((_, behind)) => Some(behind),
        None => None,
    }
}

// The part that is meant by what follows an entity.
fn part_behind(text: Option<&str>) -> Option<Part>
    ensures { result ≡ addresses.part_behind (option_map (λ s. s.now) text.entry) }
{
    match text {
        None => Some(Part::Main),
        Some(rest) => {
            if rest == "$deadletterqueue" {
                Some(Part::Dead)
            } else if rest == "$transfer/$deadletterqueue" {
                Some(Part::Transfer)
            } else {
                None
            }
        }
    }
}

fn entity_shape(alloc: Global, text: &str) -> Result<Option<Path>, AllocError>
    ensures { IfOk result (λ path. path ≡ addresses.entity_shape text.now) }
{
    let Some(part) = part_behind(behind_slash(text)) else {
        return Ok(None);
    };
    let name = Text::of(alloc, up_to_slash(text))?;
    Ok(Some(Path {
        name,
        subscription: None,
        part,
    }))
}

fn named_under(alloc: Global, topic: &str, text: &str) -> Result<Option<Path>, AllocError>
    ensures { IfOk result (λ path. path ≡ addresses.named_under topic.now (Some text.now)) }
{
    let Some(part) = part_behind(behind_slash(text)) else {
        return Ok(None);
    };
    let name = Text::of(alloc, topic)?;
    let subscription = Text::of(alloc, up_to_slash(text))?;
    Ok(Some(Path {
        name,
        subscription: Some(subscription),
        part,
    }))
}

fn under(alloc: Global, topic: &str, text: &str) -> Result<Option<Path>, AllocError>
    ensures { IfOk result (λ path. path ≡ addresses.under topic.now (Some text.now)) }
{
    if up_to_slash(text) != "subscriptions" {
        return Ok(None);
    }
    match behind_slash(text) {
        Some(rest) => named_under(alloc, topic, rest),
        None => Ok(None),
    }
}

fn shape_of(alloc: Global, text: &str) -> Result<Option<Path>, AllocError>
    ensures { IfOk result (λ path. path ≡ addresses.shape_of text.now) }
{
    let shape = entity_shape(alloc, text)?;
    if shape.is_some() {
        return Ok(shape);
    }
    match behind_slash(text) {
        Some(rest) => under(alloc, up_to_slash(text), rest),
        None => Ok(None),
    }
}

/// The address that a text is, in any case of its letters: `name` or `topic/subscriptions/name`, and
/// behind it `/$deadletterqueue` or `/$transfer/$deadletterqueue`
/// (Microsoft Learn, "Overview of Service Bus dead-letter queues", Path to the dead-letter queue).
/// A text that is no address becomes, folded, the name of an entity, for [`is_address`] to refuse.
pub fn read_address(alloc: Global, text: &str) -> Result<Path, AllocError>
    ensures { IfOk result (λ path. path ≡ addresses.address_of text.now) }
{
    let folded = text.to_ascii_lowercase(alloc)?;
    let shape = shape_of(alloc, folded.as_str())?;
    if let Some(path) = shape {
        if is_address(&path) {
            return Ok(path);
        }
    }
    Ok(Path {
        name: Text::from_string(folded),
        subscription: None,
        part: Part::Main,
    })
}
