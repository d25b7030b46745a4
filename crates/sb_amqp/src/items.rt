// What the items of a list or a map add to a message.
ghost use Rattle.std.specs.Prelude.{◌≡◌, ◌<◌, ◌^◌, [], List, ℕ, IfOk, length};
ghost use Rattle.sb_amqp.specs.Meaning as meaning;
ghost use Rattle.sb_amqp.specs.Meaning.{Says};
ghost use Rattle.sb_amqp.specs.Values.{AreValues, joined};

use crate::draft::Draft;
use crate::fields::{ANNOTATIONS, HEADER, PROPERTIES, SCHEDULE_KEY, field_name};
use crate::numbers::unsigned_in;
use crate::taken::value_at;
use crate::texts::{is_null, plain_text, property_from, text_from};
use crate::unread::Unread;
use crate::values::{Kind, content_of, kind_of};
use sb_model::SystemName;
use std::alloc::{AllocError, Global};

fn seconds(ms: u64) -> u64
    ensures { result ≡ meaning.seconds ms }
{
    ms.saturating_sub(1) / 1000 + 1
}

fn ttl_from(kind: Kind, content: &[u8], ttl: Option<u64>) -> Option<Option<u64>>
    ensures { result ≡ meaning.ttl_from kind content.now ttl }
{
    match kind {
        Kind::Null => Some(ttl),
        Kind::Uint => Some(Some(seconds(unsigned_in(content)))),
        _ => None,
    }
}

fn header_item(index: usize, value: &[u8], draft: Draft) -> Option<Draft>
    ensures { result ≡ meaning.header_item index value.now draft }
{
    if index != 2 {
        return Some(draft);
    }
    let Some(ttl) = ttl_from(kind_of(value), content_of(value), draft.ttl()) else {
        drop(draft);
        return None;
    };
    Some(draft.with_ttl(ttl))
}

fn is_schedule_key(kind: Kind, content: &[u8]) -> bool
    ensures { result ≡ meaning.is_schedule_key kind content.now }
{
    match kind {
        Kind::String | Kind::Symbol => content == SCHEDULE_KEY.as_bytes(),
        _ => false,
    }
}

fn moment_in(number: u64) -> Option<u64>
    ensures { result ≡ meaning.moment_in number }
{
    if number > i64::MAX as u64 {
        return None;
    }
    Some(number)
}

fn moment_from(kind: Kind, content: &[u8]) -> Option<u64>
    ensures { result ≡ meaning.moment_from kind content.now }
{
    match kind {
        Kind::Timestamp => moment_in(unsigned_in(content)),
        _ => None,
    }
}

fn annotation_item(index: usize, key: &[u8], value: &[u8], draft: Draft) -> Option<Draft>
    ensures { result ≡ meaning.annotation_item index key.now value.now draft }
{
    if index % 2 != 1 || !is_schedule_key(kind_of(key), content_of(key)) {
        return Some(draft);
    }
    let Some(moment) = moment_from(kind_of(value), content_of(value)) else {
        drop(draft);
        return None;
    };
    Some(draft.with_schedule(moment))
}

fn named_item(
    alloc: Global,
    name: Option<SystemName>,
    value: &[u8],
    draft: Draft,
) -> Result<Option<Draft>, AllocError>
    ensures { IfOk result (λ o. o ≡ meaning.named_item name value.now draft) }
{
    let Some(name) = name else {
        return Ok(Some(draft));
    };
    let Some(text) = text_from(alloc, name, kind_of(value), content_of(value))? else {
        drop(draft);
        return Ok(None);
    };
    let draft = draft.with_text(name, text)?;
    Ok(Some(draft))
}

fn key_of(key: &[u8], draft: Draft) -> Option<Draft>
    ensures { result ≡ meaning.key_of key.now draft }
{
    if plain_text(kind_of(key), content_of(key)).is_none() {
        drop(draft);
        return None;
    }
    Some(draft)
}

fn entry_named(
    alloc: Global,
    name: &str,
    value: &[u8],
    draft: Draft,
) -> Result<Option<Draft>, AllocError>
    ensures { IfOk result (λ o. o ≡ meaning.entry_named name.now value.now draft) }
{
    let Some(value) = property_from(alloc, kind_of(value), content_of(value))? else {
        drop(draft);
        return Ok(None);
    };
    let draft = draft.with_property(alloc, name, value)?;
    Ok(Some(draft))
}

fn entry_of(
    alloc: Global,
    key: &[u8],
    value: &[u8],
    draft: Draft,
) -> Result<Option<Draft>, AllocError>
    ensures { IfOk result (λ o. o ≡ meaning.entry_of key.now value.now draft) }
{
    if is_null(kind_of(value)) {
        return Ok(Some(draft));
    }
    let Some(name) = plain_text(kind_of(key), content_of(key)) else {
        drop(draft);
        return Ok(None);
    };
    entry_named(alloc, name, value, draft)
}

fn application_item(
    alloc: Global,
    index: usize,
    key: &[u8],
    value: &[u8],
    draft: Draft,
) -> Result<Option<Draft>, AllocError>
    ensures { IfOk result (λ o. o ≡ meaning.application_item index key.now value.now draft) }
{
    if index % 2 == 0 {
        return Ok(key_of(value, draft));
    }
    entry_of(alloc, key, value, draft)
}

/// What an item of such a section adds, by its place and the item before it. None where it can't be
/// used.
#[tactic(auto, unfolding(crate::specs::Meaning::with_item))]
fn with_item(
    alloc: Global,
    code: u8,
    index: usize,
    before: &[u8],
    value: &[u8],
    draft: Draft,
) -> Result<Option<Draft>, AllocError>
    requires { index < 2 ^ 63 }
    ensures { IfOk result (λ o. o ≡ meaning.with_item code index before.now value.now draft) }
{
    match code {
        HEADER => Ok(header_item(index, value, draft)),
        ANNOTATIONS => Ok(annotation_item(index, before, value, draft)),
        PROPERTIES => named_item(alloc, field_name(index + 1), value, draft),
        _ => application_item(alloc, index, before, value, draft),
    }
}

/// The same, or where it begins that can't be used.
fn use_item(
    alloc: Global,
    code: u8,
    index: usize,
    before: &[u8],
    value: &[u8],
    draft: Draft,
    left: usize,
) -> Result<Draft, Unread>
    requires { index < 2 ^ 63 }
    ensures { Says result (meaning.or_left left (meaning.with_item code index before.now value.now draft)) }
{
    let Some(draft) = with_item(alloc, code, index, before, value, draft)? else {
        return Err(Unread::At(left));
    };
    Ok(draft)
}

/// What the items that stand in these bytes add, so many bytes before the end.
pub(crate) fn say_items(
    alloc: Global,
    code: u8,
    draft: Draft,
    items: &[u8],
    behind: &[u8],
) -> Result<Draft, Unread>
    ensures { (vs : List (List ℕ)) → AreValues vs → items.now ≡ joined vs → Says result (meaning.items_say code 0 [] draft vs (length behind.now)) }
{
    let mut draft = draft;
    let mut index = 0;
    let mut before: &[u8] = &[];
    let mut rest = items;
    while let Some((value, after)) = value_at(rest) {
        let left = rest.len() + behind.len();
        draft = use_item(alloc, code, index, before, value, draft, left)?;
        index += 1;
        before = value;
        rest = after;
    }
    Ok(draft)
}
