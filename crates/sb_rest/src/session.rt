// What a response says of a session that was accepted.
ghost use Rattle.std.specs.Prelude.{◌≡◌, map, IfOk};
ghost use Rattle.serde_json.specs.Data.{object};
ghost use Rattle.serde_json.specs.View.{view, members_view};
ghost use Rattle.sb_http.specs.Responses.{field_in};
ghost use Rattle.sb_rest.specs.Sessions as sessions;

use crate::escape::ascii_json;
use crate::field::push_field;
use crate::location::url_text;
use crate::shown::{json_line, put_text};
use sb_http::Header;
use serde_json::{Map, Value};
use std::alloc::{AllocError, Global};

/// The headers of a session that was accepted, with the text of the moment up to which its lock lives.
pub(crate) fn accepted_fields(
    alloc: Global,
    host: &[u8],
    place: &str,
    id: &str,
    until: &str,
) -> Result<Vec<Header>, AllocError>
    ensures { IfOk result (λ v. map field_in v.items ≡ sessions.accepted_fields host.now place.now id.now until.now) }
{
    let broker = session_text(alloc, id, until)?;
    let url = url_text(alloc, host, place)?;
    let mut headers = Vec::new(alloc);
    push_field(alloc, &mut headers, b"BrokerProperties", &broker)?;
    push_field(alloc, &mut headers, b"Location", &url)?;
    Ok(headers)
}

fn session_value(alloc: Global, id: &str, until: &str) -> Result<Value, AllocError>
    ensures { IfOk result (λ v. view v ≡ object (sessions.session_members id.now until.now)) }
{
    let mut members = Map::new(alloc);
    put_text(&mut members, alloc, "LockedUntilUtc", until)?;
    put_text(&mut members, alloc, "SessionId", id)?;
    Ok(Value::Object(members))
}

#[tactic(auto, unfolding(crate::specs::Sessions::session_text))]
fn session_text(alloc: Global, id: &str, until: &str) -> Result<Vec<u8>, AllocError>
    ensures { IfOk result (λ v. v.items ≡ sessions.session_text id.now until.now) }
{
    let value = session_value(alloc, id, until)?;
    let text = json_line(alloc, &value)?;
    ascii_json(alloc, text.as_str())
}
