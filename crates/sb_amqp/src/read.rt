// From bytes to the message that they spell.
ghost use Rattle.std.specs.Prelude.{◌≡◌, List, ℕ, IfOk, length, option_map};
ghost use Rattle.sb_model.specs.Orders.{IsInOrder};
ghost use Rattle.sb_amqp.specs.Found.{IsFound, message_in};
ghost use Rattle.sb_amqp.specs.Meaning as meaning;
ghost use Rattle.sb_amqp.specs.Meaning.{Says};
ghost use Rattle.sb_amqp.specs.Reads.{Answers, AnswersOnly, Spells, Tells};
ghost use Rattle.sb_amqp.specs.Sections.{AreSections, HasUsedItems, Section as SpelledSection, all_spelled, has_used_items};
ghost use Rattle.sb_amqp.specs.Values.{kind_of};

use crate::draft::Draft;
use crate::fault::AmqpFault;
use crate::fields::{ANNOTATIONS, APPLICATION, DATA, HEADER, PROPERTIES, SEQUENCE, VALUE};
use crate::items::say_items;
use crate::order::check_sections;
use crate::taken::section_at;
use crate::texts::plain_text;
use crate::unread::Unread;
use crate::values::{Kind, content_of, extent_at, is_list, is_map, item_bytes, kind_of};
use sb_model::Message;
use std::alloc::Global;

/// The bytes of a string that is UTF-8, where the body is a value.
fn value_text(code: u8, content: &[u8]) -> Option<&[u8]>
    ensures { option_map (λ b. b.now) result ≡ meaning.value_text code content.now }
{
    if code != VALUE {
        return None;
    }
    let Some(text) = plain_text(Kind::String, content) else {
        return None;
    };
    Some(text.as_bytes())
}

/// The bytes of a body. None where the value can't be one.
fn body_from(code: u8, kind: Kind, content: &[u8]) -> Option<&[u8]>
    ensures { option_map (λ b. b.now) result ≡ meaning.body_from code kind content.now }
{
    match kind {
        Kind::Binary => Some(content),
        Kind::String => value_text(code, content),
        _ => None,
    }
}

fn say_body(code: u8, value: &[u8], draft: Draft, left: usize) -> Result<Draft, Unread>
    ensures { Says result (meaning.body_says code value.now draft left) }
{
    let Some(bytes) = body_from(code, kind_of(value), content_of(value)) else {
        drop(draft);
        return Err(Unread::At(left));
    };
    Ok(draft.with_body(bytes)?)
}

/// What the items of a list or a map add, where the value is one.
fn say_items_if(
    alloc: Global,
    is_due: bool,
    code: u8,
    value: &[u8],
    draft: Draft,
    rest: &[u8],
) -> Result<Draft, Unread>
    ensures { (vs : List (List ℕ)) → HasUsedItems is_due value.now vs → Says result (meaning.items_if is_due code draft value.now vs (length rest.now)) }
{
    if !is_due {
        drop(draft);
        return Err(Unread::At(value.len() + rest.len()));
    }
    let items = item_bytes(extent_at(value), content_of(value));
    say_items(alloc, code, draft, items, rest)
}

/// What a section adds to a draft, with so many bytes behind it.
fn say_section(
    alloc: Global,
    code: u8,
    value: &[u8],
    draft: Draft,
    rest: &[u8],
) -> Result<Draft, Unread>
    ensures { (vs : List (List ℕ)) → HasUsedItems (has_used_items code (kind_of value.now)) value.now vs → Says result (meaning.section_says code value.now vs draft (length rest.now)) }
{
    if code == HEADER || code == PROPERTIES {
        say_items_if(alloc, is_list(kind_of(value)), code, value, draft, rest)
    } else if code == ANNOTATIONS || code == APPLICATION {
        say_items_if(alloc, is_map(kind_of(value)), code, value, draft, rest)
    } else if code == DATA || code == VALUE {
        say_body(code, value, draft, value.len() + rest.len())
    } else if code == SEQUENCE {
        drop(draft);
        Err(Unread::At(value.len() + rest.len()))
    } else {
        Ok(draft)
    }
}

/// What sections say that are well formed.
fn say_sections(alloc: Global, bytes: &[u8]) -> Result<Draft, Unread>
    ensures { (ss : List SpelledSection) → AreSections ss → bytes.now ≡ all_spelled ss → Says result (meaning.sections_say meaning.no_message ss) }
{
    let mut draft = Draft::new(alloc);
    let mut rest = bytes;
    while let Some(section) = section_at(rest) {
        draft = say_section(alloc, section.code, section.value, draft, section.rest)?;
        rest = section.rest;
    }
    Ok(draft)
}

/// The same as a message that is whole.
fn say_message(alloc: Global, bytes: &[u8]) -> Result<Message, Unread>
    ensures { (ss : List SpelledSection) → AreSections ss → bytes.now ≡ all_spelled ss → Says result (meaning.sections_say meaning.no_message ss) }
{
    let draft = match say_sections(alloc, bytes) {
        Ok(draft) => draft,
        Err(unread) => return Err(unread),
    };
    match draft.into_message(alloc) {
        Ok(message) => Ok(message),
        Err(_) => Err(Unread::Memory),
    }
}

/// The message that sections say, or the place of the first value that is used but can't be.
fn said_message(alloc: Global, bytes: &[u8]) -> Result<Message, AmqpFault>
    ensures { (ss : List SpelledSection) → Spells bytes.now ss → Tells bytes.now (meaning.sections_say meaning.no_message ss) result }
{
    match say_message(alloc, bytes) {
        Ok(message) => Ok(message),
        Err(Unread::At(left)) => Err(AmqpFault::Unsupported {
            at: bytes.len().saturating_sub(left),
        }),
        Err(Unread::Memory) => Err(AmqpFault::OutOfMemory),
    }
}

/// The message that the bytes spell: a header's time to live, the moment of the annotation
/// `x-opt-scheduled-enqueue-time`, eight of the properties, application properties and a body of data
/// or of one value. All else is read past.
///
/// `BadMessage` where the bytes aren't the sections of a message, `Unsupported` where they are and a
/// value that is used can't be; both with the first place. Limits of a message aren't tested here.
pub fn read_message(alloc: Global, bytes: &[u8]) -> Result<Message, AmqpFault>
    ensures found { Answers bytes.now result }
    ensures only { AnswersOnly bytes.now result }
    ensures value { IsFound result (message_in bytes.now) }
    ensures in_order { IfOk result IsInOrder }
{
    match check_sections(bytes) {
        Ok(()) => said_message(alloc, bytes),
        Err(at) => Err(AmqpFault::BadMessage { at }),
    }
}
