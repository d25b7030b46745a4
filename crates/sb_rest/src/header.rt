// What the headers of a send say.
ghost use Rattle.std.specs.Prelude.{◌≡◌, map, All, length, None, Some, Err, [], MatchOption};
ghost use Rattle.std.specs.Str.{str_to_ascii_lowercase};
ghost use Rattle.httparse.specs.Spans.{IsHeaderWithin, header_bytes};
ghost use Rattle.sb_lines.specs.Faults.{Answers, bad_key};
ghost use Rattle.sb_routes.specs.Paths as paths;
ghost use Rattle.sb_rest.specs.Headers as headers;
ghost use Rattle.sb_rest.specs.Lines.{NextLine};

use crate::broker::broker_in;
use crate::draft::{Draft, message_from, no_draft};
use crate::reserved::is_reserved;
use crate::value::header_value;
use httparse::spans::HeaderSpan;
use sb_http::is_word;
use sb_lines::{LineFault, bad};
use sb_model::{Body, Message, Rows, Text};
use sb_routes::text_of;
use std::alloc::Global;

fn stands_in(text: &[u8], lines: &[HeaderSpan], word: &[u8]) -> bool
    requires { All (IsHeaderWithin (length text.now)) lines.now }
    ensures { result ≡ headers.stands_in (map (header_bytes text.now) lines.now) word.now }
{
    for line in lines {
        if is_word(word, line.name.of(text)) {
            return true;
        }
    }
    false
}

fn bad_name<T>(alloc: Global, name: &str) -> Result<T, LineFault>
where
    T: Drop,
    ensures { Answers result (Err (bad_key None (str_to_ascii_lowercase name.now))) }
{
    let folded = name.to_ascii_lowercase(alloc)?;
    bad(alloc, folded.as_str())
}

fn with_property(alloc: Global, name: &str, value: &[u8], draft: Draft) -> Result<Draft, LineFault>
    ensures { Answers result (headers.on_name (Some name.now) value.now draft) }
{
    let Some(text) = text_of(value) else {
        return bad_name(alloc, name);
    };
    let value = header_value(alloc, text)?;
    let Draft {
        broker,
        content_type,
        mut props,
    } = draft;
    props.put(alloc, name, value)?;
    Ok(Draft {
        broker,
        content_type,
        props,
    })
}

fn on_name(alloc: Global, name: &[u8], value: &[u8], draft: Draft) -> Result<Draft, LineFault>
    ensures { Answers result (headers.on_name (paths.as_text name.now) value.now draft) }
{
    let Some(name) = text_of(name) else {
        return Ok(draft);
    };
    with_property(alloc, name, value, draft)
}

fn with_type(alloc: Global, value: &[u8], draft: Draft) -> Result<Draft, LineFault>
    ensures { Answers result (headers.with_type value.now draft) }
{
    let Some(text) = text_of(value) else {
        return bad(alloc, "content-type");
    };
    let content_type = Text::of(alloc, text)?;
    let Draft { broker, props, .. } = draft;
    Ok(Draft {
        broker,
        content_type,
        props,
    })
}

fn with_broker(alloc: Global, value: &[u8], draft: Draft) -> Result<Draft, LineFault>
    ensures { Answers result (headers.with_broker value.now draft) }
{
    let broker = broker_in(alloc, value)?;
    let Draft {
        content_type,
        props,
        ..
    } = draft;
    Ok(Draft {
        broker,
        content_type,
        props,
    })
}

// One line, before those that come later.
#[tactic(auto, unfolding(crate::specs::Headers::heard))]
fn hear(
    alloc: Global,
    text: &[u8],
    line: HeaderSpan,
    later: &[HeaderSpan],
    draft: Draft,
) -> Result<Draft, LineFault>
    requires line { IsHeaderWithin (length text.now) line }
    requires later { All (IsHeaderWithin (length text.now)) later.now }
    ensures { Answers result (headers.heard (header_bytes text.now line) (map (header_bytes text.now) later.now) draft) }
{
    let name = line.name.of(text);
    let value = line.value.of(text);
    if is_word(b"brokerproperties", name) {
        if stands_in(text, later, b"brokerproperties") {
            return Ok(draft);
        }
        return with_broker(alloc, value, draft);
    }
    if is_word(b"content-type", name) {
        if stands_in(text, later, b"content-type") {
            return Ok(draft);
        }
        return with_type(alloc, value, draft);
    }
    if is_reserved(name) {
        return Ok(draft);
    }
    on_name(alloc, name, value, draft)
}

// The next line, and those that come later.
fn next_line<'a>(text: &[u8], left: &'a [HeaderSpan]) -> Option<(HeaderSpan, &'a [HeaderSpan])>
    requires { All (IsHeaderWithin (length text.now)) left.now }
    ensures { MatchOption result (left.now ≡ []) (λ x. NextLine (length text.now) left.now x.0 x.1.now) }
{
    match left.split_first() {
        Some((line, later)) => Some((*line, later)),
        None => None,
    }
}

#[tactic(auto, unfolding(crate::specs::Headers::heard_all))]
fn hear_all(
    alloc: Global,
    text: &[u8],
    lines: &[HeaderSpan],
    draft: Draft,
) -> Result<Draft, LineFault>
    requires { All (IsHeaderWithin (length text.now)) lines.now }
    ensures { Answers result (headers.heard_all (map (header_bytes text.now) lines.now) draft) }
{
    let mut draft = draft;
    let mut left = lines;
    while let Some((line, later)) = next_line(text, left) {
        draft = hear(alloc, text, line, later, draft)?;
        left = later;
    }
    Ok(draft)
}

/// The message of a request whose head has these lines and that has this body, in a list.
pub(crate) fn message_in(
    alloc: Global,
    text: &[u8],
    lines: &[HeaderSpan],
    body: &[u8],
) -> Result<Rows<Message>, LineFault>
    requires { All (IsHeaderWithin (length text.now)) lines.now }
    ensures { Answers result (headers.message_in (map (header_bytes text.now) lines.now) body.now) }
{
    let draft = hear_all(alloc, text, lines, no_draft(alloc))?;
    let body = Body::of(alloc, body)?;
    let message = message_from(alloc, body, draft)?;
    let mut messages = Rows::new(alloc);
    messages.push(message)?;
    Ok(messages)
}
