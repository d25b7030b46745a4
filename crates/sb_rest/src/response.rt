// Answers as responses.
ghost use Rattle.std.specs.Prelude.{◌≡◌, ◌++◌, false, IfOk, OnOk, All, map, length, codes, string_bytes};
ghost use Rattle.httparse.specs.Spans.{IsHeaderWithin, header_bytes};
ghost use Rattle.serde_json.specs.Written.{compact_text};
ghost use Rattle.sb_lines.specs.Refusals.{plain, refusal_data};
ghost use Rattle.sb_http.specs.Responses.{said_in, field_in};
ghost use Rattle.sb_http.specs.Said.{fields_of};
ghost use Rattle.sb_rest.specs.Calls.{methods_of};
ghost use Rattle.sb_rest.specs.Responses as responses;

use crate::call::RestFault;
use crate::field::{message_fields, push_field};
use crate::form::{fits_head, json_fields, push_unasked};
use crate::location::{place_of, place_text};
use crate::moment::{time_text, until_text};
use crate::page::page_response;
use crate::session::accepted_fields;
use crate::shown::json_line;
use httparse::spans::HeaderSpan;
use sb_http::{Header, Request, Response, Status, is_word};
use sb_lines::{Form, message_text, refusal_value, reply_text};
use sb_machine::{
    Act, Answer, Answered, CopyShown, Mode, PartRefusal, Path, Receipt, Refusal, Reply, Token,
    at_part_or_whole,
};
use sb_model::Message;
use sb_routes::Route;
use std::alloc::{AllocError, Global};

/// A status alone.
pub(crate) fn bare(alloc: Global, status: Status) -> Response
    ensures { said_in result ≡ responses.bare status }
{
    Response {
        status,
        headers: Vec::new(alloc),
        body: Vec::new(alloc),
        closes: false,
    }
}

// ---- refusals

fn part_status(why: &PartRefusal) -> Status
    ensures { result ≡ responses.part_status why.now }
{
    match why {
        PartRefusal::BadCall { .. }
        | PartRefusal::BadName
        | PartRefusal::WrongKind
        | PartRefusal::SessionRequired
        | PartRefusal::SessionNotAllowed
        | PartRefusal::TxnScope => Status::BadRequest,
        PartRefusal::EntityNotFound => Status::Gone,
        PartRefusal::TooLarge { .. } | PartRefusal::TxnFull => Status::Forbidden,
        PartRefusal::LockLost | PartRefusal::SessionLost => Status::NotFound,
        PartRefusal::TxnPending { .. } => Status::Conflict,
    }
}

fn refusal_status(refusal: &Refusal) -> Status
    ensures { result ≡ responses.refusal_status refusal.now }
{
    match refusal {
        Refusal::BadCall { .. }
        | Refusal::BadName
        | Refusal::WrongKind
        | Refusal::SessionRequired
        | Refusal::SessionNotAllowed
        | Refusal::TxnScope => Status::BadRequest,
        Refusal::EntityNotFound => Status::Gone,
        Refusal::TooLarge { .. } | Refusal::QuotaExceeded { .. } | Refusal::TxnFull => {
            Status::Forbidden
        }
        Refusal::LockLost
        | Refusal::SessionLost
        | Refusal::NotDeferred
        | Refusal::NotScheduled
        | Refusal::ClientNotFound => Status::NotFound,
        Refusal::SessionHeld { .. }
        | Refusal::TxnPending { .. }
        | Refusal::StaleNumber { .. }
        | Refusal::NumberReused
        | Refusal::ClientsFull
        | Refusal::TxnsFull => Status::Conflict,
        Refusal::InPart { why, .. } => part_status(why),
        Refusal::OutOfMemory => Status::ServiceUnavailable,
        _ => Status::InternalServerError,
    }
}

/// Whether a refusal ends the connection.
pub(crate) fn refusal_ends(refusal: &Refusal) -> bool
    ensures { result ≡ responses.refusal_ends refusal.now }
{
    match refusal {
        Refusal::DiskFault | Refusal::Stopped { .. } => true,
        _ => false,
    }
}

fn whole_text(alloc: Global, refusal: &Refusal) -> Result<String, AllocError>
    ensures { IfOk result (λ s. string_bytes s ≡ compact_text (refusal_data refusal.now)) }
{
    let value = refusal_value(alloc, refusal)?;
    json_line(alloc, &value)
}

// Without the count of faults, which is the server's own matter.
fn stopped_text() -> &'static str
    ensures { result.now ≡ compact_text (plain (codes "Stopped")) }
{
    "{\"refused\":\"Stopped\"}"
}

/// A refusal's line without its line feed.
pub(crate) fn refusal_text(alloc: Global, refusal: &Refusal) -> Result<String, AllocError>
    ensures { IfOk result (λ s. string_bytes s ≡ responses.refusal_text refusal.now) }
{
    match refusal {
        Refusal::Stopped { .. } => String::from_str(alloc, stopped_text()),
        _ => whole_text(alloc, refusal),
    }
}

fn refusal_response(alloc: Global, refusal: &Refusal) -> Result<Response, AllocError>
    ensures { IfOk result (λ r. said_in r ≡ responses.refusal_response refusal.now) }
{
    let text = refusal_text(alloc, refusal)?;
    let mut headers = Vec::new(alloc);
    push_field(alloc, &mut headers, b"Content-Type", b"application/json")?;
    Ok(Response {
        status: refusal_status(refusal),
        headers,
        body: text.into_bytes(),
        closes: refusal_ends(refusal),
    })
}

// Somebody holds the session: it may be asked for again from a moment on, in ms since 1970.
fn held_response(alloc: Global, until: u64) -> Result<Response, AllocError>
    ensures { IfOk result (λ r. responses.GivesHeld until (said_in r)) }
{
    let moment = time_text(alloc, until)?;
    timed_refusal(alloc, until, moment.as_str())
}

// The same with the text of that moment.
fn timed_refusal(alloc: Global, until: u64, moment: &str) -> Result<Response, AllocError>
    ensures { IfOk result (λ r. said_in r ≡ responses.held_response until moment.now) }
{
    let mut response = refusal_response(alloc, &Refusal::SessionHeld { until })?;
    push_field(
        alloc,
        &mut response.headers,
        b"Retry-After",
        moment.as_bytes(),
    )?;
    Ok(response)
}

/// The response to a call that was refused.
pub(crate) fn refused_response(alloc: Global, refusal: &Refusal) -> Result<Response, AllocError>
    ensures { IfOk result (λ r. responses.GivesRefusal refusal.now (said_in r)) }
{
    match refusal {
        Refusal::SessionHeld { until } => held_response(alloc, *until),
        _ => refusal_response(alloc, refusal),
    }
}

// The methods of a route as a list.
fn allowed(route: Route) -> &'static [u8]
    ensures { result.now ≡ responses.listed (methods_of route) }
{
    match route {
        Route::Messages => b"POST",
        Route::Head(_) => b"DELETE, POST",
        Route::Deferred(_) => b"DELETE, POST",
        Route::Locked(_) => b"DELETE, POST, PUT",
        Route::Scheduled(_) => b"DELETE",
        Route::NextSession(_) | Route::NamedSession(_) => b"POST",
        Route::HeldSession(_) => b"DELETE, POST",
        Route::SessionState(_) => b"GET, PUT",
        Route::SessionHead(_) | Route::SessionDeferred(_) => b"DELETE, POST",
        Route::SessionLocked(_) => b"DELETE, PUT",
        Route::Script | Route::Together => b"POST",
        Route::Health | Route::Status | Route::Metrics | Route::Peek | Route::Page => b"GET",
    }
}

fn method_response(alloc: Global, route: Route) -> Result<Response, AllocError>
    ensures { IfOk result (λ r. said_in r ≡ responses.method_response route) }
{
    let mut headers = Vec::new(alloc);
    push_field(alloc, &mut headers, b"Allow", allowed(route))?;
    Ok(Response {
        status: Status::MethodNotAllowed,
        headers,
        body: Vec::new(alloc),
        closes: false,
    })
}

fn key_response(alloc: Global) -> Result<Response, AllocError>
    ensures { IfOk result (λ r. said_in r ≡ responses.key_response) }
{
    let mut headers = Vec::new(alloc);
    push_field(alloc, &mut headers, b"WWW-Authenticate", b"Bearer")?;
    Ok(Response {
        status: Status::Unauthorized,
        headers,
        body: Vec::new(alloc),
        closes: false,
    })
}

/// The response to a request that is no call. A script line is answered by the line of its reply, so
/// `Script` has none of its own.
pub fn fault_response(alloc: Global, fault: RestFault) -> Result<Response, AllocError>
    ensures { IfOk result (λ r. said_in r ≡ responses.fault_response fault) }
{
    match fault {
        RestFault::Foreign => Ok(bare(alloc, Status::Forbidden)),
        RestFault::NoKey => key_response(alloc),
        RestFault::NoRoute => Ok(bare(alloc, Status::NotFound)),
        RestFault::BadMethod { route } => method_response(alloc, route),
        RestFault::Bad { part, key } => {
            refusal_response(alloc, &at_part_or_whole(part, Refusal::BadCall { key }))
        }
        RestFault::Script => Ok(bare(alloc, Status::InternalServerError)),
        RestFault::Page => page_response(alloc),
        RestFault::OutOfMemory => refusal_response(alloc, &Refusal::OutOfMemory),
    }
}

// ---- replies

// BrokerProperties with a sequence number alone.
fn number_text(alloc: Global, number: u64) -> Result<Vec<u8>, AllocError>
    ensures { IfOk result (λ v. v.items ≡ responses.number_text number) }
{
    let digits = number.to_string(alloc)?;
    let mut out = Vec::new(alloc);
    out.extend_from_slice(b"{\"SequenceNumber\":")?;
    out.extend_from_slice(digits.as_bytes())?;
    out.extend_from_slice(b"}")?;
    Ok(out)
}

fn push_receipt(
    alloc: Global,
    headers: &mut Vec<Header>,
    receipt: Receipt,
) -> Result<(), AllocError>
    ensures { OnOk result (map field_in headers.new.items ≡ map field_in headers.old.items ++ responses.receipt_fields receipt) }
{
    match receipt {
        Receipt::Number(number) => {
            let text = number_text(alloc, number)?;
            push_field(alloc, headers, b"BrokerProperties", &text)
        }
        Receipt::Duplicate => Ok(()),
    }
}

fn push_first(
    alloc: Global,
    headers: &mut Vec<Header>,
    receipts: &[Receipt],
) -> Result<(), AllocError>
    ensures { OnOk result (map field_in headers.new.items ≡ map field_in headers.old.items ++ responses.first_fields receipts.now) }
{
    match receipts {
        [receipt, ..] => push_receipt(alloc, headers, *receipt),
        [] => Ok(()),
    }
}

fn is_one_scheduled(messages: &[Message]) -> bool
    ensures { result ≡ responses.is_one_scheduled messages.now }
{
    match messages {
        [message] => message.schedule.is_some(),
        _ => false,
    }
}

fn sent_fields(
    alloc: Global,
    is_scheduled: bool,
    receipts: &[Receipt],
) -> Result<Vec<Header>, AllocError>
    ensures { IfOk result (λ v. map field_in v.items ≡ responses.sent_fields is_scheduled receipts.now) }
{
    let mut headers = Vec::new(alloc);
    if is_scheduled {
        push_first(alloc, &mut headers, receipts)?;
    }
    Ok(headers)
}

fn sent_response(alloc: Global, messages: &[Message], reply: &Reply) -> Result<Response, AllocError>
    ensures { IfOk result (λ r. said_in r ≡ responses.sent_response messages.now reply.now) }
{
    match reply {
        Reply::Sent(receipts) => Ok(Response {
            status: Status::Created,
            headers: sent_fields(alloc, is_one_scheduled(messages), receipts.as_slice())?,
            body: Vec::new(alloc),
            closes: false,
        }),
        _ => Ok(bare(alloc, Status::InternalServerError)),
    }
}

fn settled_status(reply: &Reply) -> Status
    ensures { result ≡ responses.settled_status reply.now }
{
    match reply {
        Reply::Done => Status::Ok,
        _ => Status::InternalServerError,
    }
}

fn renewed_status(reply: &Reply) -> Status
    ensures { result ≡ responses.renewed_status reply.now }
{
    match reply {
        Reply::Renewed { .. } => Status::Ok,
        _ => Status::InternalServerError,
    }
}

fn taken_status(mode: Mode) -> Status
    ensures { result ≡ responses.taken_status mode }
{
    match mode {
        Mode::Lock => Status::Created,
        Mode::Delete => Status::Ok,
    }
}

// A message whose texts and properties are fields, with these.
fn plain_message(
    alloc: Global,
    mode: Mode,
    headers: Vec<Header>,
    copy: &CopyShown,
) -> Result<Response, AllocError>
    ensures { IfOk result (λ r. said_in r ≡ record { status = responses.taken_status mode; fields = map field_in headers.items; body = copy.now.message.body; ends = false }) }
{
    let body = copy.message.body.as_slice().to_vec(alloc)?;
    Ok(Response {
        status: taken_status(mode),
        headers,
        body,
        closes: false,
    })
}

// A message that is all in the body.
fn json_message(
    alloc: Global,
    place: &str,
    mode: Mode,
    host: &[u8],
    json: bool,
    enqueued: &str,
    until: &str,
    copy: &CopyShown,
) -> Result<Response, AllocError>
    ensures { IfOk result (λ r. said_in r ≡ responses.json_message json place.now mode host.now enqueued.now until.now copy.now) }
{
    let mut headers = json_fields(alloc, host, enqueued, until, place, copy)?;
    push_unasked(alloc, &mut headers, json)?;
    let body = message_text(alloc, copy)?;
    Ok(Response {
        status: taken_status(mode),
        headers,
        body: body.into_bytes(),
        closes: false,
    })
}

// A message with the texts of its moments and of the place where it was received.
fn timed_message(
    alloc: Global,
    place: &str,
    mode: Mode,
    host: &[u8],
    json: bool,
    enqueued: &str,
    until: &str,
    copy: &CopyShown,
) -> Result<Response, AllocError>
    ensures { IfOk result (λ r. said_in r ≡ responses.message_response json place.now mode host.now enqueued.now until.now copy.now) }
{
    if json {
        return json_message(alloc, place, mode, host, json, enqueued, until, copy);
    }
    let headers = message_fields(alloc, host, enqueued, until, place, copy)?;
    if fits_head(&headers) {
        return plain_message(alloc, mode, headers, copy);
    }
    drop(headers);
    json_message(alloc, place, mode, host, json, enqueued, until, copy)
}

fn message_response(
    alloc: Global,
    from: &Path,
    session: Option<Token>,
    mode: Mode,
    host: &[u8],
    json: bool,
    copy: &CopyShown,
) -> Result<Response, AllocError>
    ensures { IfOk result (λ r. responses.GivesMessage from.now session mode host.now json copy.now (said_in r)) }
{
    let enqueued = time_text(alloc, copy.enqueued)?;
    let until = until_text(alloc, copy.showing)?;
    let place = place_of(alloc, from, session, &copy.message)?;
    let (place, enqueued, until) = (place.as_str(), enqueued.as_str(), until.as_str());
    timed_message(alloc, place, mode, host, json, enqueued, until, copy)
}

fn taken_response(
    alloc: Global,
    from: &Path,
    session: Option<Token>,
    mode: Mode,
    host: &[u8],
    json: bool,
    reply: &Reply,
) -> Result<Response, AllocError>
    ensures { IfOk result (λ r. responses.GivesTaken from.now session mode host.now json reply.now (said_in r)) }
{
    match reply {
        Reply::Message(copy) => message_response(alloc, from, session, mode, host, json, copy),
        Reply::Empty | Reply::Expired { .. } => Ok(bare(alloc, Status::NoContent)),
        _ => Ok(bare(alloc, Status::InternalServerError)),
    }
}

// ---- sessions

// A session that was accepted, with the text of the moment up to which its lock lives.
fn timed_session(
    alloc: Global,
    from: &Path,
    host: &[u8],
    id: &str,
    token: Token,
    until: &str,
) -> Result<Response, AllocError>
    ensures { IfOk result (λ r. said_in r ≡ responses.accepted_response from.now host.now id.now token until.now) }
{
    let place = place_text(alloc, from, Some(token), id)?;
    Ok(Response {
        status: Status::Created,
        headers: accepted_fields(alloc, host, place.as_str(), id, until)?,
        body: Vec::new(alloc),
        closes: false,
    })
}

// A session that was accepted, whose lock lives until this moment, in ms since 1970.
fn session_response(
    alloc: Global,
    from: &Path,
    host: &[u8],
    id: &str,
    token: Token,
    moment: u64,
) -> Result<Response, AllocError>
    ensures { IfOk result (λ r. responses.GivesSession from.now host.now id.now token moment (said_in r)) }
{
    let until = time_text(alloc, moment)?;
    timed_session(alloc, from, host, id, token, until.as_str())
}

fn accepted_response(
    alloc: Global,
    from: &Path,
    host: &[u8],
    reply: &Reply,
) -> Result<Response, AllocError>
    ensures { IfOk result (λ r. responses.GivesAccepted from.now host.now reply.now (said_in r)) }
{
    match reply {
        Reply::Session { id, session, until } => {
            session_response(alloc, from, host, id.as_str(), *session, *until)
        }
        Reply::Empty => Ok(bare(alloc, Status::NoContent)),
        _ => Ok(bare(alloc, Status::InternalServerError)),
    }
}

// The bytes that a session remembers.
fn bytes_response(alloc: Global, bytes: &[u8]) -> Result<Response, AllocError>
    ensures { IfOk result (λ r. said_in r ≡ responses.bytes_response bytes.now) }
{
    let mut headers = Vec::new(alloc);
    push_field(
        alloc,
        &mut headers,
        b"Content-Type",
        b"application/octet-stream",
    )?;
    Ok(Response {
        status: Status::Ok,
        headers,
        body: bytes.to_vec(alloc)?,
        closes: false,
    })
}

fn state_response(alloc: Global, reply: &Reply) -> Result<Response, AllocError>
    ensures { IfOk result (λ r. said_in r ≡ responses.state_response reply.now) }
{
    match reply {
        Reply::State(Some(bytes)) => bytes_response(alloc, bytes.as_slice()),
        Reply::State(None) => Ok(bare(alloc, Status::NoContent)),
        _ => Ok(bare(alloc, Status::InternalServerError)),
    }
}

// ---- operations that acted together

// A reply as the line of a script has it.
fn told_response(alloc: Global, reply: &Reply) -> Result<Response, AllocError>
    ensures { IfOk result (λ r. said_in r ≡ responses.told_response reply.now) }
{
    let text = reply_text(alloc, Form::Plain, reply)?;
    let mut headers = Vec::new(alloc);
    push_field(alloc, &mut headers, b"Content-Type", b"application/json")?;
    Ok(Response {
        status: Status::Ok,
        headers,
        body: text.into_bytes(),
        closes: false,
    })
}

fn together_response(alloc: Global, reply: &Reply) -> Result<Response, AllocError>
    ensures { IfOk result (λ r. said_in r ≡ responses.together_response reply.now) }
{
    match reply {
        Reply::Together(_) => told_response(alloc, reply),
        _ => Ok(bare(alloc, Status::InternalServerError)),
    }
}

// ---- acts

fn reply_response(
    alloc: Global,
    act: &Act,
    host: &[u8],
    json: bool,
    reply: &Reply,
) -> Result<Response, AllocError>
    ensures { IfOk result (λ r. responses.GivesReply act.now host.now json reply.now (said_in r)) }
{
    match act {
        Act::Send { messages, .. } => sent_response(alloc, messages.as_slice(), reply),
        Act::Receive {
            from,
            mode,
            session,
        }
        | Act::ReceiveDeferred {
            from,
            mode,
            session,
            ..
        } => taken_response(alloc, from, *session, *mode, host, json, reply),
        Act::Settle { .. }
        | Act::Cancel { .. }
        | Act::SessionClose { .. }
        | Act::SessionSet { .. } => Ok(bare(alloc, settled_status(reply))),
        Act::Renew { .. } | Act::SessionRenew { .. } => Ok(bare(alloc, renewed_status(reply))),
        Act::Accept { from, .. } => accepted_response(alloc, from, host, reply),
        Act::SessionState { .. } => state_response(alloc, reply),
        Act::Together { .. } => together_response(alloc, reply),
        _ => Ok(bare(alloc, Status::InternalServerError)),
    }
}

// ---- answers

// The response that was due the first time, and that it is that.
fn kept_response(
    alloc: Global,
    act: &Act,
    host: &[u8],
    json: bool,
    reply: &Reply,
) -> Result<Response, AllocError>
    ensures { IfOk result (λ r. responses.GivesKept act.now host.now json reply.now (said_in r)) }
{
    let mut response = reply_response(alloc, act, host, json, reply)?;
    push_field(alloc, &mut response.headers, b"Repeat-Kept", b"true")?;
    Ok(response)
}

/// The response to a call of this act that is answered so, as the act says.
pub(crate) fn answer_response(
    alloc: Global,
    act: &Act,
    answer: &Answer,
    host: &[u8],
    json: bool,
) -> Result<Response, AllocError>
    ensures { IfOk result (λ r. responses.GivesAnswer act.now answer.now host.now json (said_in r)) }
{
    match answer {
        Ok(Answered::New(reply)) => reply_response(alloc, act, host, json, reply),
        Ok(Answered::Kept(reply)) => kept_response(alloc, act, host, json, reply),
        Err(refusal) => refused_response(alloc, refusal),
    }
}

fn host_in<'a>(text: &'a [u8], lines: &[HeaderSpan]) -> &'a [u8]
    requires { All (IsHeaderWithin (length text.now)) lines.now }
    ensures { result.now ≡ responses.host_in (map (header_bytes text.now) lines.now) }
{
    for line in lines {
        if is_word(b"host", line.name.of(text)) {
            return line.value.of(text);
        }
    }
    b"localhost"
}

/// The host that a request names, as it was sent; `localhost` where it names none.
pub fn host_of<'a>(request: &Request<'a>) -> &'a [u8]
    ensures { result.now ≡ responses.host_in (fields_of request.now) }
{
    host_in(request.text, request.lines)
}

/// The response to a script line that is answered by this line, with its line feed.
pub fn line_response(alloc: Global, line: String) -> Response
    ensures { said_in result ≡ responses.line_response (string_bytes line) }
{
    Response {
        status: Status::Ok,
        headers: Vec::new(alloc),
        body: line.into_bytes(),
        closes: false,
    }
}
