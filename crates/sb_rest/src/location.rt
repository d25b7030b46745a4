// Where messages are, and a message under a lock.
ghost use Rattle.std.specs.Prelude.{◌≡◌, ◌++◌, IfOk, OnOk, string_bytes};
ghost use Rattle.sb_rest.specs.Shown as shown;

use percent_encoding::{NON_ALPHANUMERIC, percent_encode};
use sb_lines::token_text;
use sb_machine::{Part, Path, Token, text_of};
use sb_model::{Message, SystemName};
use std::alloc::{AllocError, Global};

fn part_text(part: Part) -> &'static str
    ensures { result.now ≡ shown.part_text part }
{
    match part {
        Part::Main => "",
        Part::Dead => "/$deadletterqueue",
        Part::Transfer => "/$transfer/$deadletterqueue",
    }
}

fn push_base(out: &mut String, path: &Path) -> Result<(), AllocError>
    ensures { OnOk result (string_bytes out.new ≡ string_bytes out.old ++ shown.base_text path.now path.now.subscription) }
{
    out.push_str(path.name.as_str())?;
    match &path.subscription {
        None => Ok(()),
        Some(name) => {
            out.push_str("/subscriptions/")?;
            out.push_str(name.as_str())
        }
    }
}

/// Adds an address.
pub(crate) fn push_address(out: &mut String, path: &Path) -> Result<(), AllocError>
    ensures { OnOk result (string_bytes out.new ≡ string_bytes out.old ++ shown.address_text path.now) }
{
    push_base(out, path)?;
    out.push_str(part_text(path.part))
}

// What tells a session of this id, and the token of its holder.
fn push_session(
    alloc: Global,
    out: &mut String,
    session: Option<Token>,
    id: &str,
) -> Result<(), AllocError>
    ensures { OnOk result (string_bytes out.new ≡ string_bytes out.old ++ shown.session_part session id.now) }
{
    let Some(token) = session else {
        return Ok(());
    };
    let token = token_text(alloc, token)?;
    out.push_str("/sessions/")?;
    percent_encode(id.as_bytes(), NON_ALPHANUMERIC).append_to(out)?;
    out.push_str("/")?;
    out.push_str(token.as_str())
}

/// An address, or the session there of this id that is held under this token. Names need no escapes
/// there, since a name that stands has small letters, digits and `.-_` alone.
pub(crate) fn place_text(
    alloc: Global,
    from: &Path,
    session: Option<Token>,
    id: &str,
) -> Result<String, AllocError>
    ensures { IfOk result (λ s. string_bytes s ≡ shown.place_text from.now session id.now) }
{
    let mut out = String::new(alloc);
    push_address(&mut out, from)?;
    push_session(alloc, &mut out, session, id)?;
    Ok(out)
}

// The id of the session that a message is of.
fn session_of(message: &Message) -> &str
    ensures { result.now ≡ shown.session_of message.now }
{
    match text_of(message, SystemName::SessionId) {
        Some(id) => id.as_str(),
        None => "",
    }
}

/// Where a message was received, under the token of its session, if under one.
pub(crate) fn place_of(
    alloc: Global,
    from: &Path,
    session: Option<Token>,
    message: &Message,
) -> Result<String, AllocError>
    ensures { IfOk result (λ s. string_bytes s ≡ shown.place_of from.now session message.now) }
{
    place_text(alloc, from, session, session_of(message))
}

/// The URL of a place.
pub(crate) fn url_text(alloc: Global, host: &[u8], place: &str) -> Result<Vec<u8>, AllocError>
    ensures { IfOk result (λ v. v.items ≡ shown.url_text host.now place.now) }
{
    let mut out = Vec::new(alloc);
    out.extend_from_slice(b"http://")?;
    out.extend_from_slice(host)?;
    out.extend_from_slice(b"/")?;
    out.extend_from_slice(place.as_bytes())?;
    Ok(out)
}

/// The URL under which a message is settled, or its lock renewed.
#[tactic(auto, unfolding(crate::specs::Shown::location_text))]
pub(crate) fn location_text(
    alloc: Global,
    host: &[u8],
    place: &str,
    number: u64,
    token: Token,
) -> Result<Vec<u8>, AllocError>
    ensures { IfOk result (λ v. v.items ≡ shown.location_text host.now place.now number token) }
{
    let digits = number.to_string(alloc)?;
    let token = token_text(alloc, token)?;
    let mut out = url_text(alloc, host, place)?;
    out.extend_from_slice(b"/messages/")?;
    out.extend_from_slice(digits.as_bytes())?;
    out.extend_from_slice(b"/")?;
    out.extend_from_slice(token.as_bytes())?;
    Ok(out)
}
