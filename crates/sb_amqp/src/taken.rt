// Values and sections taken from the front of bytes.
ghost use Rattle.std.specs.Prelude.{◌≡◌, ◌<◌, ◌≤◌, IfSome, option_map, length};
ghost use Rattle.std.specs.Int.{w32, w64};
ghost use Rattle.sb_amqp.specs.Reading as reading;
ghost use Rattle.sb_amqp.specs.Sections as sections;

use crate::fields::{ANNOTATIONS, APPLICATION, HEADER, PROPERTIES};
use crate::values::{Extent, Kind, content_of, extent_at, extent_of, is_list, is_map, kind_of};

/// How many descriptors may stand one within the other.
const MAX_NESTING: u8 = 8;

#[tactic(auto, unfolding(crate::specs::Reading::behind))]
fn behind(count: usize, bytes: &[u8]) -> Option<&[u8]>
    ensures value { option_map (λ r. r.now) result ≡ reading.behind count bytes.now }
    ensures shorter { IfSome result (λ r. length r.now ≤ length bytes.now) }
{
    if bytes.len() < count {
        return None;
    }
    Some(&bytes[count..])
}

#[tactic(auto, unfolding(crate::specs::Reading::number_at))]
fn number32_at(bytes: &[u8]) -> Option<(u32, &[u8])>
    ensures value { option_map (λ x. (x.0, x.1.now)) result ≡ reading.number_at w32 bytes.now }
    ensures shorter { IfSome result (λ x. length x.1.now ≤ length bytes.now) }
{
    if bytes.len() < 4 {
        return None;
    }
    let (front, rest) = bytes.split_at(4);
    let number = u32::from_be_bytes([front[0], front[1], front[2], front[3]]);
    Some((number, rest))
}

#[tactic(auto, unfolding(crate::specs::Reading::number_at))]
fn number64_at(bytes: &[u8]) -> Option<(u64, &[u8])>
    ensures shorter { IfSome result (λ x. length x.1.now ≤ length bytes.now) }
    ensures value { option_map (λ x. (x.0, x.1.now)) result ≡ reading.number_at w64 bytes.now }
{
    if bytes.len() < 8 {
        return None;
    }
    let (front, rest) = bytes.split_at(8);
    let number = u64::from_be_bytes([
        front[0], front[1], front[2], front[3], front[4], front[5], front[6], front[7],
    ]);
    Some((number, rest))
}

#[tactic(auto, unfolding(crate::specs::Reading::after_plain))]
fn after_plain(extent: Extent, bytes: &[u8]) -> Option<&[u8]>
    ensures value { option_map (λ r. r.now) result ≡ reading.after_plain extent bytes.now }
    ensures shorter { IfSome result (λ r. length r.now ≤ length bytes.now) }
{
    match extent {
        Extent::Fixed(count) => behind(count, bytes),
        Extent::Short => {
            let [count, content @ ..] = bytes else {
                return None;
            };
            behind(*count as usize, content)
        }
        Extent::Long => {
            let Some((count, content)) = number32_at(bytes) else {
                return None;
            };
            behind(count as usize, content)
        }
        Extent::Described | Extent::Unknown => None,
    }
}

/// What is behind the value at the front, in which so many descriptors may nest.
#[tactic(auto, unfolding(crate::specs::Reading::after_value, crate::specs::Reading::after_plain, crate::specs::Values::extent_of))]
fn after_value(nesting: u8, bytes: &[u8]) -> Option<&[u8]>
    ensures value { option_map (λ r. r.now) result ≡ reading.after_value nesting bytes.now }
    ensures shorter { IfSome result (λ r. length r.now < length bytes.now) }
{
    match bytes {
        [] => None,
        [0, rest @ ..] => {
            if nesting == 0 {
                return None;
            }
            let Some(value) = after_value(nesting - 1, rest) else {
                return None;
            };
            after_value(nesting - 1, value)
        }
        [code, rest @ ..] => after_plain(extent_of(*code), rest),
    }
}

/// The value at the front, and what is behind it.
#[tactic(auto, unfolding(crate::specs::Reading::value_at))]
pub(crate) fn value_at(bytes: &[u8]) -> Option<(&[u8], &[u8])>
    ensures value { option_map (λ x. (x.0.now, x.1.now)) result ≡ reading.value_at bytes.now }
    ensures shorter { IfSome result (λ x. length x.1.now < length bytes.now) }
{
    let Some(rest) = after_value(MAX_NESTING, bytes) else {
        return None;
    };
    let value = &bytes[..bytes.len() - rest.len()];
    Some((value, rest))
}

/// The count of a list or a map, and the bytes of its items.
#[tactic(auto, unfolding(crate::specs::Reading::counted))]
pub(crate) fn counted(extent: Extent, content: &[u8]) -> Option<(u32, &[u8])>
    ensures { option_map (λ x. (x.0, x.1.now)) result ≡ reading.counted extent content.now }
{
    match extent {
        Extent::Fixed(_) => Some((0, content)),
        Extent::Short => {
            let [count, items @ ..] = content else {
                return None;
            };
            Some((u32::from(*count), items))
        }
        Extent::Long => number32_at(content),
        Extent::Described | Extent::Unknown => None,
    }
}

/// Whether these bytes are so many values.
fn are_values(count: u32, bytes: &[u8]) -> bool
    ensures { result ≡ reading.are_values count bytes.now }
{
    let mut rest = bytes;
    for _ in 0..count {
        let Some((_, after)) = value_at(rest) else {
            return false;
        };
        rest = after;
    }
    rest.is_empty()
}

/// Whether items fill the list or the map, which has as many values as keys.
#[tactic(auto, unfolding(crate::specs::Reading::is_filled))]
fn is_filled(value: &[u8]) -> bool
    ensures { result ≡ reading.is_filled value.now }
{
    let Some((count, items)) = counted(extent_at(value), content_of(value)) else {
        return false;
    };
    if is_map(kind_of(value)) && count % 2 != 0 {
        return false;
    }
    are_values(count, items)
}

/// Whether a message uses the items of such a value in such a section.
fn has_used_items(code: u8, kind: Kind) -> bool
    ensures { result ≡ sections.has_used_items code kind }
{
    if code == HEADER || code == PROPERTIES {
        is_list(kind)
    } else if code == ANNOTATIONS || code == APPLICATION {
        is_map(kind)
    } else {
        false
    }
}

/// A number below 256 in 8 bytes; no section has a greater one.
#[tactic(auto, unfolding(crate::specs::Reading::small_at))]
fn small_at(bytes: &[u8]) -> Option<(u8, &[u8])>
    ensures shorter { IfSome result (λ x. length x.1.now ≤ length bytes.now) }
    ensures value { option_map (λ x. (x.0, x.1.now)) result ≡ reading.small_at bytes.now }
{
    let Some((number, rest)) = number64_at(bytes) else {
        return None;
    };
    if number > 255 {
        return None;
    }
    Some((number as u8, rest))
}

/// The number of the descriptor at the front, and what is behind it.
#[tactic(auto, unfolding(crate::specs::Reading::descriptor_at))]
fn descriptor_at(bytes: &[u8]) -> Option<(u8, &[u8])>
    ensures shorter { IfSome result (λ x. length x.1.now ≤ length bytes.now) }
    ensures value { option_map (λ x. (x.0, x.1.now)) result ≡ reading.descriptor_at bytes.now }
{
    let [0, form, rest @ ..] = bytes else {
        return None;
    };
    if *form == 0x53 {
        let [code, rest @ ..] = rest else {
            return None;
        };
        Some((*code, rest))
    } else if *form == 0x80 {
        small_at(rest)
    } else {
        None
    }
}

/// A section: the number of its descriptor, its value, and what is behind it.
#[derive(Clone, Copy)]
pub(crate) struct Section<'a> {
    pub(crate) code: u8,
    pub(crate) value: &'a [u8],
    pub(crate) rest: &'a [u8],
}

/// The section at the front.
#[tactic(auto, unfolding(crate::specs::Reading::section_at))]
pub(crate) fn section_at(bytes: &[u8]) -> Option<Section<'_>>
    ensures value { option_map (λ s. (s.code, (s.value.now, s.rest.now))) result ≡ reading.section_at bytes.now }
    ensures shorter { IfSome result (λ s. length s.rest.now < length bytes.now) }
{
    let Some((code, behind)) = descriptor_at(bytes) else {
        return None;
    };
    let Some((value, rest)) = value_at(behind) else {
        return None;
    };
    if has_used_items(code, kind_of(value)) && !is_filled(value) {
        return None;
    }
    Some(Section { code, value, rest })
}
