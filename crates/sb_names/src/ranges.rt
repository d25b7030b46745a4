// Ranges of numbers, and lengths of texts in characters.
ghost use Rattle.std.specs.Prelude.{◌≡◌, length};
ghost use Rattle.std.specs.Str.{chars};
ghost use Rattle.sb_machine.specs.Fields as fields;

use crate::limits::{MAX_CLIENT, MAX_ID, MAX_NUMBER};
use sb_model::Text;

/// Whether `low <= n <= high`.
pub fn is_between(low: u64, high: u64, n: u64) -> bool
    ensures { result ≡ fields.is_between low high n }
{
    low <= n && n <= high
}

/// The same, of a number that may be left out.
pub fn is_between_or_none(low: u64, high: u64, n: Option<u64>) -> bool
    ensures { result ≡ fields.is_between_or_none low high n }
{
    match n {
        Some(n) => is_between(low, high, n),
        None => true,
    }
}

/// Whether the namespace may give this number: 1 to 2^63 - 1.
pub fn is_number(n: u64) -> bool
    ensures { result ≡ fields.is_number n }
{
    is_between(1, MAX_NUMBER, n)
}

pub(crate) fn is_length_between(low: usize, high: usize, length: usize) -> bool
    ensures { result ≡ fields.is_between low high length }
{
    low <= length && length <= high
}

pub(crate) fn characters(text: &str) -> usize
    ensures { result ≡ length (chars text.now) }
{
    text.chars().count()
}

pub(crate) fn is_short(most: usize, text: &Option<Text>) -> bool
    ensures { result ≡ fields.is_short most text.now }
{
    match text {
        Some(text) => characters(text.as_str()) <= most,
        None => true,
    }
}

/// Whether a text may be the id of a message or of a session: 128 characters at most.
pub fn is_id(text: &str) -> bool
    ensures { result ≡ fields.is_id text.now }
{
    characters(text) <= MAX_ID
}

/// Whether a client may be named so: 1 to 50 bytes.
pub fn is_client_name(name: &str) -> bool
    ensures { result ≡ fields.is_client_name name.now }
{
    is_length_between(1, MAX_CLIENT, name.len())
}
