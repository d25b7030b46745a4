// Who may call.
ghost use Rattle.std.specs.Prelude.{◌≡◌, [], ◌∷◌, None, MatchOption, length, drop, map, All, bytes_eq};
ghost use Rattle.std.specs.List.{list_all, list_any};
ghost use Rattle.std.specs.Char.{is_ascii_digit};
ghost use Rattle.httparse.specs.Spans.{IsHeaderWithin, header_bytes};
ghost use Rattle.sb_rest.specs.Callers as callers;

use crate::asked::is;
use crate::reserved::begins;
use httparse::spans::HeaderSpan;
use sb_http::is_word;
use sb_model::{Rows, Text};
use std::alloc::Global;

/// Whom a server answers.
#[derive(Drop)]
pub struct Access {
    /// Where there are some, the Host of a request has one of these names, in any case, or
    /// `localhost`, `127.0.0.1` or `[::1]`; where there are none, it may be any.
    pub hosts: Rows<Text>,
    /// What each request shows as `Authorization: Bearer KEY`, where there is one. It is a secret.
    pub key: Option<Text>,
}

impl Access {
    /// For all, but for web pages of another origin. It takes no memory.
    pub fn unlocked(alloc: Global) -> Self
        ensures { result ≡ record { hosts = []; key = None } }
    {
        Access {
            hosts: Rows::new(alloc),
            key: None,
        }
    }
}

// ---- web pages

fn is_own_site(value: &[u8]) -> bool
    ensures { result ≡ callers.is_own_site value.now }
{
    is(value, b"none") || is(value, b"same-origin")
}

fn is_of_a_page(name: &[u8], value: &[u8]) -> bool
    ensures { result ≡ callers.is_of_a_page (name.now, value.now) }
{
    is_word(b"origin", name) || (is_word(b"sec-fetch-site", name) && !is_own_site(value))
}

// ---- hosts

fn are_digits(bytes: &[u8]) -> bool
    ensures { result ≡ list_all is_ascii_digit bytes.now }
{
    bytes.iter().all(|b| b.is_ascii_digit())
}

// Nothing, or a colon and digits.
fn is_port(bytes: &[u8]) -> bool
    ensures { result ≡ callers.is_port bytes.now }
{
    match bytes {
        [] => true,
        [first, digits @ ..] => *first == b':' && are_digits(digits),
    }
}

fn behind(bytes: &[u8], n: usize) -> &[u8]
    ensures { result.now ≡ drop n bytes.now }
{
    if n <= bytes.len() { &bytes[n..] } else { &[] }
}

fn is_named(host: &[u8], name: &[u8]) -> bool
    ensures { result ≡ callers.is_named host.now name.now }
{
    begins(name, host) && is_port(behind(host, name.len()))
}

fn is_local(host: &[u8]) -> bool
    ensures { result ≡ callers.is_local host.now }
{
    is_named(host, b"localhost") || is_named(host, b"127.0.0.1") || is_named(host, b"[::1]")
}

fn is_listed(hosts: &[Text], host: &[u8]) -> bool
    ensures { result ≡ list_any (callers.is_named host.now) hosts.now }
{
    for name in hosts {
        if is_named(host, name.as_bytes()) {
            return true;
        }
    }
    false
}

fn is_known(hosts: &[Text], host: &[u8]) -> bool
    ensures { result ≡ callers.is_known hosts.now host.now }
{
    is_local(host) || is_listed(hosts, host)
}

fn is_other_host(hosts: &[Text], name: &[u8], value: &[u8]) -> bool
    ensures { result ≡ callers.is_other_host hosts.now (name.now, value.now) }
{
    !hosts.is_empty() && is_word(b"host", name) && !is_known(hosts, value)
}

fn is_foreign_field(hosts: &[Text], name: &[u8], value: &[u8]) -> bool
    ensures { result ≡ callers.is_foreign_field hosts.now (name.now, value.now) }
{
    is_of_a_page(name, value) || is_other_host(hosts, name, value)
}

fn has_foreign(hosts: &[Text], text: &[u8], lines: &[HeaderSpan]) -> bool
    requires { All (IsHeaderWithin (length text.now)) lines.now }
    ensures { result ≡ list_any (callers.is_foreign_field hosts.now) (map (header_bytes text.now) lines.now) }
{
    for line in lines {
        if is_foreign_field(hosts, line.name.of(text), line.value.of(text)) {
            return true;
        }
    }
    false
}

/// Whether a head has a line that only a page of another origin, or one that can't be told from it,
/// leaves there.
pub(crate) fn is_foreign(access: &Access, text: &[u8], lines: &[HeaderSpan]) -> bool
    requires { All (IsHeaderWithin (length text.now)) lines.now }
    ensures { result ≡ callers.is_foreign access.now (map (header_bytes text.now) lines.now) }
{
    has_foreign(access.hosts.as_slice(), text, lines)
}

// ---- the key

// The first byte, and those behind it.
fn split(bytes: &[u8]) -> Option<(u8, &[u8])>
    ensures { MatchOption result (bytes.now ≡ []) (λ x. bytes.now ≡ x.0 ∷ x.1.now) }
{
    match bytes {
        [] => None,
        [first, later @ ..] => Some((*first, later)),
    }
}

// Whether the first byte is this one.
fn is_first(bytes: &[u8], byte: u8) -> bool
    ensures { result ≡ callers.is_first bytes.now byte }
{
    match bytes {
        [] => false,
        [first, ..] => byte == *first,
    }
}

// Whether these are the bytes of the key. Each of the key's is compared, whatever differs before it, so
// that the time doesn't tell where the first difference is.
#[tactic(auto, using(crate::proofs::Keys::one_byte, crate::proofs::Keys::no_byte))]
fn is_key(key: &[u8], shown: &[u8]) -> bool
    ensures { result ≡ bytes_eq key.now shown.now }
{
    let mut same = true;
    let mut rest = key;
    let mut left = shown;
    while let Some((byte, later)) = split(rest) {
        same = is_first(left, byte) && same;
        rest = later;
        left = behind(left, 1);
    }
    same && left.is_empty()
}

fn shows(key: &[u8], value: &[u8]) -> bool
    ensures { result ≡ callers.shows key.now value.now }
{
    begins(b"bearer ", value) && is_key(key, behind(value, 7))
}

fn is_found(found: Option<bool>) -> bool
    ensures { result ≡ callers.is_found found }
{
    match found {
        Some(shown) => shown,
        None => false,
    }
}

// Whether just one line is an Authorization, and shows the key.
fn shows_once(key: &[u8], text: &[u8], lines: &[HeaderSpan]) -> bool
    requires { All (IsHeaderWithin (length text.now)) lines.now }
    ensures { result ≡ callers.shows_once key.now None (map (header_bytes text.now) lines.now) }
{
    let mut found = None;
    for line in lines {
        if is_word(b"authorization", line.name.of(text)) {
            if found.is_some() {
                return false;
            }
            found = Some(shows(key, line.value.of(text)));
        }
    }
    is_found(found)
}

/// Whether a head shows the key, where one is asked for.
pub(crate) fn has_key(access: &Access, text: &[u8], lines: &[HeaderSpan]) -> bool
    requires { All (IsHeaderWithin (length text.now)) lines.now }
    ensures { result ≡ callers.has_key access.now (map (header_bytes text.now) lines.now) }
{
    match &access.key {
        Some(key) => shows_once(key.as_bytes(), text, lines),
        None => true,
    }
}
