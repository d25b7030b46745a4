// What the field lines of a head say of the body behind it (RFC 9112, section 6).
ghost use Rattle.std.specs.Prelude.{◌≡◌, map, length, All, if◌then◌else◌};
ghost use Rattle.httparse.specs.Spans.{IsHeaderWithin, header_bytes};
ghost use Rattle.sb_http.specs.Fields.{same_word, is_number, number_of, one_more, with_length, with_coding, with_line, stated_by, is_hosted, by_lines, is_origin, framing_by};

use httparse::spans::HeaderSpan;

/// How many Host lines there are.
#[derive(Clone, Copy, PartialEq, Eq)]
pub enum Hosts {
    Absent,
    One,
    Many,
}

/// What the Content-Length lines say.
#[derive(Clone, Copy, PartialEq, Eq)]
pub enum Length {
    Absent,
    Value(u64),
    Bad,
}

/// What the Transfer-Encoding lines say.
#[derive(Clone, Copy, PartialEq, Eq)]
pub enum Coding {
    Absent,
    Chunked,
    Bad,
}

/// What the lines of a head say of its body.
#[derive(Clone, Copy)]
pub struct Stated {
    pub hosts: Hosts,
    pub length: Length,
    pub coding: Coding,
}

/// How the body goes.
#[derive(Clone, Copy, PartialEq, Eq)]
pub enum Framing {
    /// The head is refused.
    Refused,
    /// So many bytes; 0 where neither a length nor a coding is given.
    Sized(u64),
    Chunked,
}

/// Whether a name is this word, whatever the case of its ASCII letters.
pub fn is_word(word: &[u8], name: &[u8]) -> bool
    ensures { result ≡ same_word word.now name.now }
{
    name.eq_ignore_ascii_case(word)
}

/// The number that a value of decimal digits alone writes, lowered to the greatest of 64 bits; none
/// where it is empty or has another byte.
pub fn number(value: &[u8]) -> Option<u64>
    ensures { result ≡ (if is_number value.now then Some (number_of value.now) else None) }
{
    if value.is_empty() {
        return None;
    }
    let mut n: u64 = 0;
    for b in value {
        if !b.is_ascii_digit() {
            return None;
        }
        n = n.saturating_mul(10).saturating_add(u64::from(*b - b'0'));
    }
    Some(n)
}

impl Hosts {
    fn one_more(self) -> Hosts
        ensures { result ≡ one_more self }
    {
        match self {
            Hosts::Absent => Hosts::One,
            Hosts::One | Hosts::Many => Hosts::Many,
        }
    }
}

impl Length {
    fn with(self, value: &[u8]) -> Length
        ensures { result ≡ with_length self value.now }
    {
        match (number(value), self) {
            (None, _) => Length::Bad,
            (Some(n), Length::Absent) => Length::Value(n),
            (Some(n), Length::Value(m)) => {
                if n == m {
                    Length::Value(m)
                } else {
                    Length::Bad
                }
            }
            (Some(_), Length::Bad) => Length::Bad,
        }
    }
}

impl Coding {
    fn with(self, value: &[u8]) -> Coding
        ensures { result ≡ with_coding self value.now }
    {
        match self {
            Coding::Absent => {
                if is_word(b"chunked", value) {
                    Coding::Chunked
                } else {
                    Coding::Bad
                }
            }
            Coding::Chunked | Coding::Bad => Coding::Bad,
        }
    }
}

#[tactic(auto, unfolding(crate::specs::Fields::with_line))]
fn with_line(so_far: Stated, name: &[u8], value: &[u8]) -> Stated
    ensures { result ≡ with_line so_far (name.now, value.now) }
{
    let mut next = so_far;
    if is_word(b"host", name) {
        next.hosts = so_far.hosts.one_more();
    } else if is_word(b"content-length", name) {
        next.length = so_far.length.with(value);
    } else if is_word(b"transfer-encoding", name) {
        next.coding = so_far.coding.with(value);
    }
    next
}

/// What all lines of a head say together, which lie in its text.
pub(crate) fn stated_by(text: &[u8], lines: &[HeaderSpan]) -> Stated
    requires { All (IsHeaderWithin (length text.now)) lines.now }
    ensures { result ≡ stated_by (map (header_bytes text.now) lines.now) }
{
    let mut so_far = Stated {
        hosts: Hosts::Absent,
        length: Length::Absent,
        coding: Coding::Absent,
    };
    for line in lines {
        so_far = with_line(so_far, line.name.of(text), line.value.of(text));
    }
    so_far
}

// One Host line, or none in HTTP/1.0.
fn is_hosted(minor: u8, hosts: Hosts) -> bool
    ensures { result ≡ is_hosted minor hosts }
{
    match hosts {
        Hosts::Absent => minor == 0,
        Hosts::One => true,
        Hosts::Many => false,
    }
}

// The body by its coding or its length; both are refused.
fn by_lines(minor: u8, coding: Coding, length: Length) -> Framing
    ensures { result ≡ by_lines minor coding length }
{
    match (coding, length) {
        (Coding::Absent, Length::Absent) => Framing::Sized(0),
        (Coding::Absent, Length::Value(n)) => Framing::Sized(n),
        (Coding::Chunked, Length::Absent) => {
            if minor == 0 {
                Framing::Refused
            } else {
                Framing::Chunked
            }
        }
        _ => Framing::Refused,
    }
}

// Whether the target is in origin-form.
fn is_origin(target: &[u8]) -> bool
    ensures { result ≡ is_origin target.now }
{
    matches!(target, [b'/', ..])
}

/// How the body goes behind a head with this target, version and lines.
#[tactic(auto, unfolding(crate::specs::Fields::framing_by))]
pub(crate) fn framing_by(target: &[u8], minor: u8, said: Stated) -> Framing
    ensures { result ≡ framing_by target.now minor said }
{
    if is_origin(target) && is_hosted(minor, said.hosts) {
        by_lines(minor, said.coding, said.length)
    } else {
        Framing::Refused
    }
}
