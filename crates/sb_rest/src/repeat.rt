// The number of a call, under which it acts once.
ghost use Rattle.std.specs.Prelude.{◌≡◌, map, length, All, option_map};
ghost use Rattle.httparse.specs.Spans.{IsHeaderWithin, header_bytes};
ghost use Rattle.sb_lines.specs.Faults.{Answers, or_key};
ghost use Rattle.sb_rest.specs.Repeats as repeats;

use httparse::spans::HeaderSpan;
use sb_http::{is_word, number};
use sb_lines::{LineFault, bad};
use sb_machine::By;
use sb_model::Text;
use sb_names::limits::{MAX_CLIENT, MAX_NUMBER};
use sb_routes::text_of;
use std::alloc::Global;

/// The client and the number that a request gives its call, if it gives them; one without the other is
/// the fault.
pub(crate) fn by_in(
    alloc: Global,
    text: &[u8],
    lines: &[HeaderSpan],
) -> Result<Option<By>, LineFault>
    requires { All (IsHeaderWithin (length text.now)) lines.now }
    ensures { Answers result (repeats.by_of (map (header_bytes text.now) lines.now)) }
{
    let client = last_of(text, lines, b"Repeat-Client");
    let number = last_of(text, lines, b"Repeat-Number");
    by_from(alloc, client, number)
}

/// The value of the last line of this name.
pub(crate) fn last_of<'a>(text: &'a [u8], lines: &[HeaderSpan], name: &[u8]) -> Option<&'a [u8]>
    requires { All (IsHeaderWithin (length text.now)) lines.now }
    ensures { option_map (λ v. v.now) result ≡ repeats.last_of name.now (map (header_bytes text.now) lines.now) }
{
    let mut found = None;
    for line in lines {
        if is_word(name, line.name.of(text)) {
            found = Some(line.value.of(text));
        }
    }
    found
}

fn by_from(
    alloc: Global,
    client: Option<&[u8]>,
    number: Option<&[u8]>,
) -> Result<Option<By>, LineFault>
    ensures { Answers result (repeats.by_from (option_map (λ v. v.now) client.entry) (option_map (λ v. v.now) number.entry)) }
{
    match (client, number) {
        (None, None) => Ok(None),
        (Some(_), None) => bad(alloc, "Repeat-Client"),
        (None, Some(_)) => bad(alloc, "Repeat-Number"),
        (Some(client), Some(number)) => numbered(alloc, client, number),
    }
}

fn numbered(alloc: Global, client: &[u8], number: &[u8]) -> Result<Option<By>, LineFault>
    ensures { Answers result (repeats.numbered client.now number.now) }
{
    let client = client_in(alloc, client)?;
    let number = number_in(alloc, number)?;
    Ok(Some(By { client, number }))
}

fn client_in(alloc: Global, value: &[u8]) -> Result<Text, LineFault>
    ensures { Answers result (or_key repeats.client_name (repeats.client_in value.now)) }
{
    if value.len() < 1 || MAX_CLIENT < value.len() {
        return bad(alloc, "Repeat-Client");
    }
    let Some(text) = text_of(value) else {
        return bad(alloc, "Repeat-Client");
    };
    Ok(Text::of(alloc, text)?)
}

/// The number of a call or a message.
pub(crate) fn decimal_in(value: &[u8]) -> Option<u64>
    ensures { result ≡ repeats.number_in value.now }
{
    match number(value) {
        Some(n) if 1 <= n && n <= MAX_NUMBER => Some(n),
        _ => None,
    }
}

fn number_in(alloc: Global, value: &[u8]) -> Result<u64, LineFault>
    ensures { Answers result (or_key repeats.number_name (repeats.number_in value.now)) }
{
    match decimal_in(value) {
        Some(n) => Ok(n),
        None => bad(alloc, "Repeat-Number"),
    }
}
