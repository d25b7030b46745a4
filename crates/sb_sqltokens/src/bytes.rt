// Classes of bytes, and cuts of a text behind ASCII characters.
ghost use Rattle.std.specs.Prelude.{◌≡◌, ◌≤◌, ◌<◌, ◌-◌, length, drop, take, slice_index};
ghost use Rattle.std.specs.List.{prefix_len};
ghost use Rattle.sb_model.specs.TokenBytes as bytes;

/// Space, tab, carriage return and line feed.
pub(crate) fn is_white(byte: u8) -> bool
    ensures { result ≡ bytes.is_white byte }
{
    byte == b' ' || byte == b'\t' || byte == b'\r' || byte == b'\n'
}

pub(crate) fn is_digit(byte: u8) -> bool
    ensures { result ≡ bytes.is_digit byte }
{
    byte.is_ascii_digit()
}

/// An ASCII letter, a digit or `_`.
pub(crate) fn is_word(byte: u8) -> bool
    ensures { result ≡ bytes.is_word byte }
{
    (b'a' <= byte && byte <= b'z')
        || (b'A' <= byte && byte <= b'Z')
        || (b'0' <= byte && byte <= b'9')
        || byte == b'_'
}

/// How many bytes of white space stand first.
#[tactic(auto, using(crate::proofs::Cuts::runs))]
pub(crate) fn white_len(text: &str) -> usize
    ensures value { result ≡ prefix_len bytes.is_white text.now }
    ensures within { result ≤ length text.now }
    ensures ascii { 0 < result → slice_index text.now (result - 1) < 128 }
{
    text.as_bytes().iter().take_while(|b| is_white(**b)).count()
}

/// How many digits stand first.
#[tactic(auto, using(crate::proofs::Cuts::runs))]
pub(crate) fn digits_len(text: &str) -> usize
    ensures value { result ≡ prefix_len bytes.is_digit text.now }
    ensures within { result ≤ length text.now }
    ensures ascii { 0 < result → slice_index text.now (result - 1) < 128 }
{
    text.as_bytes().iter().take_while(|b| is_digit(**b)).count()
}

/// How many letters, digits and `_` stand first.
#[tactic(auto, using(crate::proofs::Cuts::runs))]
pub(crate) fn word_len(text: &str) -> usize
    ensures value { result ≡ prefix_len bytes.is_word text.now }
    ensures within { result ≤ length text.now }
    ensures ascii { 0 < result → slice_index text.now (result - 1) < 128 }
{
    text.as_bytes().iter().take_while(|b| is_word(**b)).count()
}

/// The text cut in two behind an ASCII character, or at its start.
pub(crate) fn cut(text: &str, place: usize) -> (&str, &str)
    requires within { place ≤ length text.now }
    requires ascii { 0 < place → slice_index text.now (place - 1) < 128 }
    ensures front { result.0.now ≡ take place text.now }
    ensures back { result.1.now ≡ drop place text.now }
{
    text.split_at(place)
}
