// Answers as responses, by how they are told.
ghost use Rattle.std.specs.Prelude.{◌≡◌, ◌++◌, ◌∷◌, [], IfOk, string_bytes};
ghost use Rattle.sb_http.specs.Responses.{said_in};
ghost use Rattle.sb_rest.specs.Sights as sights;

use crate::asked::Sight;
use crate::field::push_field;
use crate::metrics::metrics_text;
use crate::response::{answer_response, bare, refusal_ends, refusal_text, refused_response};
use crate::server_numbers::server_text;
use sb_http::{Response, Status};
use sb_lines::{Form, reply_line};
use sb_machine::{Answer, Answered, Call, Refusal, Reply, View};
use sb_numbers::Numbers;
use std::alloc::{AllocError, Global};

const JSON_TYPE: &[u8] = b"application/json";

const METRICS_TYPE: &[u8] = b"text/plain; version=0.0.4; charset=utf-8";

/// The response to a call that is answered so, told so, with the host that its request names (`host_of`),
/// whether that asks for messages as JSON (`wants_json`), and the numbers of the server, which count where
/// `shows_numbers`. A message that is received has its texts
/// and properties as fields, or is all in the body as JSON where that is asked for, or where an
/// ordinary client could not take the head (64 lines of fields, 16,384 bytes). The send of one
/// scheduled message is answered with its number, an accepted session with its place, and the call for a
/// session that somebody holds with the moment up to which the lock lives. A reply that no call of a route is answered is an error
/// of the server's own. It fails for want of memory alone.
pub fn response_of(
    alloc: Global,
    sight: Sight,
    call: &Call,
    answer: &Answer,
    host: &[u8],
    json: bool,
    numbers: &Numbers,
) -> Result<Response, AllocError>
    ensures { IfOk result (λ r. sights.Gives sight call.now.act answer.now host.now json numbers.now (said_in r)) }
{
    match sight {
        Sight::Reply => answer_response(alloc, &call.act, answer, host, json),
        Sight::Health => health_response(alloc, answer),
        Sight::Line => object_response(alloc, answer),
        Sight::Status => status_response(alloc, answer, numbers),
        Sight::Metrics => metrics_response(alloc, answer, numbers),
    }
}

/// Whether a response told so has numbers of the server. Where it has none, it is the same with `Numbers::none`.
pub fn shows_numbers(sight: Sight) -> bool
    ensures { result ≡ sights.shows_numbers sight }
{
    match sight {
        Sight::Reply | Sight::Health | Sight::Line => false,
        Sight::Status | Sight::Metrics => true,
    }
}

fn text_response(alloc: Global, media: &[u8], body: Vec<u8>) -> Result<Response, AllocError>
    ensures { IfOk result (λ r. said_in r ≡ sights.text_response media.now body.items) }
{
    let mut headers = Vec::new(alloc);
    push_field(alloc, &mut headers, b"Content-Type", media)?;
    Ok(Response {
        status: Status::Ok,
        headers,
        body,
        closes: false,
    })
}

// ---- whether the namespace acts

fn unhealthy_response(alloc: Global, refusal: &Refusal) -> Result<Response, AllocError>
    ensures { IfOk result (λ r. said_in r ≡ sights.unhealthy_response refusal.now) }
{
    let text = refusal_text(alloc, refusal)?;
    let mut headers = Vec::new(alloc);
    push_field(alloc, &mut headers, b"Content-Type", JSON_TYPE)?;
    Ok(Response {
        status: Status::ServiceUnavailable,
        headers,
        body: text.into_bytes(),
        closes: refusal_ends(refusal),
    })
}

fn health_response(alloc: Global, answer: &Answer) -> Result<Response, AllocError>
    ensures { IfOk result (λ r. said_in r ≡ sights.health_response answer.now) }
{
    match answer {
        Ok(_) => {
            let body = b"{\"ok\":\"health\"}".to_vec(alloc)?;
            text_response(alloc, JSON_TYPE, body)
        }
        Err(refusal) => unhealthy_response(alloc, refusal),
    }
}

// ---- the line of the reply

// The line of an answer without its line feed.
fn line_text(alloc: Global, answer: &Answer) -> Result<Vec<u8>, AllocError>
    ensures { IfOk result (λ v. v.items ≡ sights.line_text answer.now) }
{
    let line = reply_line(alloc, Form::Plain, answer)?;
    let mut bytes = line.into_bytes();
    let _ = bytes.pop();
    Ok(bytes)
}

fn object_response(alloc: Global, answer: &Answer) -> Result<Response, AllocError>
    ensures { IfOk result (λ r. sights.GivesLine answer.now (said_in r)) }
{
    match answer {
        Ok(_) => {
            let body = line_text(alloc, answer)?;
            text_response(alloc, JSON_TYPE, body)
        }
        Err(refusal) => refused_response(alloc, refusal),
    }
}

// ---- the same with the numbers of the server

// The line without its last byte.
fn open_text(alloc: Global, answer: &Answer) -> Result<Vec<u8>, AllocError>
    ensures { IfOk result (λ v. v.items ≡ sights.without_last (sights.line_text answer.now)) }
{
    let mut bytes = line_text(alloc, answer)?;
    let _ = bytes.pop();
    Ok(bytes)
}

#[tactic(auto, unfolding(crate::specs::Sights::status_text))]
fn status_text(alloc: Global, answer: &Answer, numbers: &Numbers) -> Result<Vec<u8>, AllocError>
    ensures { IfOk result (λ v. v.items ≡ sights.status_text answer.now numbers.now) }
{
    let server = server_text(alloc, numbers)?;
    let mut bytes = open_text(alloc, answer)?;
    bytes.extend_from_slice(b",\"server\":")?;
    bytes.extend_from_slice(server.as_bytes())?;
    bytes.extend_from_slice(b"}")?;
    Ok(bytes)
}

fn status_response(
    alloc: Global,
    answer: &Answer,
    numbers: &Numbers,
) -> Result<Response, AllocError>
    ensures { IfOk result (λ r. sights.GivesStatus answer.now numbers.now (said_in r)) }
{
    match answer {
        Ok(_) => {
            let body = status_text(alloc, answer, numbers)?;
            text_response(alloc, JSON_TYPE, body)
        }
        Err(refusal) => refused_response(alloc, refusal),
    }
}

// ---- metrics

fn metrics_response(
    alloc: Global,
    answer: &Answer,
    numbers: &Numbers,
) -> Result<Response, AllocError>
    ensures { IfOk result (λ r. sights.GivesMetrics answer.now numbers.now (said_in r)) }
{
    match answer {
        Ok(Answered::New(Reply::Seen(View::Entities(rows)))) => {
            let text = metrics_text(alloc, rows.as_slice(), numbers)?;
            text_response(alloc, METRICS_TYPE, text.into_bytes())
        }
        Ok(_) => Ok(bare(alloc, Status::InternalServerError)),
        Err(refusal) => refused_response(alloc, refusal),
    }
}
