// What becomes of a message under a lock by a PUT.
ghost use Rattle.std.specs.Prelude.{◌≡◌, option_map, map, All, length, IfOk};
ghost use Rattle.httparse.specs.Spans.{IsHeaderWithin, header_bytes};
ghost use Rattle.serde_json.specs.View.{view};
ghost use Rattle.sb_lines.specs.Faults.{Answers};
ghost use Rattle.sb_rest.specs.Dispositions as dispositions;

use crate::asked::is;
use crate::broker::{given_at, object_in};
use crate::query::value_of;
use crate::repeat::last_of;
use form_urlencoded::decode;
use httparse::spans::HeaderSpan;
use sb_lines::{LineFault, bad};
use sb_machine::How;
use sb_model::Text;
use serde_json::Value;
use std::alloc::{AllocError, Global};

/// What a query says.
#[derive(Clone, Copy, PartialEq, Eq, Drop)]
pub enum Disposition {
    Abandon,
    Defer,
    DeadLetter,
}

// ---- by the query

fn disposition_named(word: &[u8]) -> Option<Disposition>
    ensures { result ≡ dispositions.disposition_named word.now }
{
    if is(word, b"dead-letter") {
        return Some(Disposition::DeadLetter);
    }
    if is(word, b"defer") {
        return Some(Disposition::Defer);
    }
    None
}

fn disposition_from(alloc: Global, given: Option<&[u8]>) -> Result<Disposition, LineFault>
    ensures { Answers result (dispositions.disposition_from (option_map (λ v. v.now) given.entry)) }
{
    let Some(value) = given else {
        return Ok(Disposition::Abandon);
    };
    let word = decode(alloc, value)?;
    match disposition_named((&*word).as_bytes()) {
        Some(disposition) => Ok(disposition),
        None => bad(alloc, "disposition"),
    }
}

/// The disposition that a query gives, by default to abandon.
pub(crate) fn disposition_in(alloc: Global, query: &[u8]) -> Result<Disposition, LineFault>
    ensures { Answers result (dispositions.disposition_in query.now) }
{
    let given = value_of(alloc, query, "disposition")?;
    disposition_from(alloc, given)
}

// ---- by BrokerProperties

fn unless_empty(alloc: Global, text: &str) -> Result<Option<Text>, AllocError>
    ensures { IfOk result (λ t. t ≡ dispositions.unless_empty text.now) }
{
    if text.as_bytes().is_empty() {
        return Ok(None);
    }
    Ok(Some(Text::of(alloc, text)?))
}

fn text_at(alloc: Global, value: &Value, key: &str) -> Result<Option<Text>, LineFault>
    ensures { Answers result (dispositions.text_at key.now (view value.now)) }
{
    let Some(member) = given_at(value, key) else {
        return Ok(None);
    };
    let Some(text) = member.as_str() else {
        return bad(alloc, key);
    };
    Ok(unless_empty(alloc, text)?)
}

fn dead_letter_of(alloc: Global, value: &Value) -> Result<How, LineFault>
    ensures { Answers result (dispositions.dead_letter_of (view value.now)) }
{
    let reason = text_at(alloc, value, "DeadLetterReason")?;
    let description = text_at(alloc, value, "DeadLetterErrorDescription")?;
    Ok(How::DeadLetter {
        reason,
        description,
    })
}

fn dead_letter_from(alloc: Global, given: Option<&[u8]>) -> Result<How, LineFault>
    ensures { Answers result (dispositions.dead_letter_from (option_map (λ v. v.now) given.entry)) }
{
    let Some(bytes) = given else {
        return Ok(How::DeadLetter {
            reason: None,
            description: None,
        });
    };
    let Some(object) = object_in(alloc, bytes)? else {
        return bad(alloc, "BrokerProperties");
    };
    dead_letter_of(alloc, &object)
}

// ---- what becomes of the message

/// What a disposition makes of a message: of a dead letter the last BrokerProperties say why.
pub(crate) fn how_of(
    alloc: Global,
    disposition: Disposition,
    text: &[u8],
    lines: &[HeaderSpan],
) -> Result<How, LineFault>
    requires { All (IsHeaderWithin (length text.now)) lines.now }
    ensures { Answers result (dispositions.how_of disposition (map (header_bytes text.now) lines.now)) }
{
    match disposition {
        Disposition::Abandon => Ok(How::Abandon),
        Disposition::Defer => Ok(How::Defer),
        Disposition::DeadLetter => {
            dead_letter_from(alloc, last_of(text, lines, b"brokerproperties"))
        }
    }
}
