// What is to be told of a request, and its response.
ghost use Rattle.std.specs.Prelude.{◌≡◌, IfOk};
ghost use Rattle.sb_machine.specs.History.{stops};
ghost use Rattle.sb_http.specs.Responses.{said_in, response_bytes};
ghost use Rattle.sb_server.specs.Doings as doings;
ghost use Rattle.sb_server.specs.Responds as responds;
ghost use Rattle.sb_server.specs.Talks as talks;

use crate::ask::{Asker, Waiter};
use crate::ending::Ending;
use crate::head::LINES_TYPE;
use crate::patience::Patience;
use sb_http::{Header, Response, Status, write_response};
use sb_lines::{Form, reply_line};
use sb_machine::{Answer, Refusal};
use sb_numbers::Numbers;
use sb_rest::{RestFault, Wanted, fault_response, line_response, response_of};
use std::alloc::{AllocError, Global};

/// What comes after a response.
#[derive(Clone, Copy, PartialEq, Eq)]
pub enum Turn {
    /// The next request.
    Goes,
    /// The end of the connection.
    Closes,
    /// The same, since the namespace acts no more.
    Stops,
}

/// What came of a request.
#[derive(Drop)]
pub(crate) enum Said {
    /// A call was answered.
    Call {
        wanted: Wanted,
        asker: Asker,
        answer: Answer,
    },
    /// A script line was answered.
    Line {
        form: Form,
        answer: Answer,
    },
    /// Script lines were answered by these lines, and perhaps one of them tells that the namespace acts no
    /// more.
    Lines {
        text: Vec<u8>,
        stopped: bool,
    },
    /// It was no call.
    Fault {
        fault: RestFault,
    },
}

/// What is to be told of a request: what came of it, whether the response ends the connection because
/// the request asks for that, and how the connection ends behind it, if it does.
#[derive(Drop)]
pub(crate) struct Telling {
    pub(crate) said: Said,
    pub(crate) closes: bool,
    pub(crate) after: Option<Ending>,
}

/// What is to be told where this came of a request, which asks for the connection's end or doesn't.
pub(crate) fn telling_of(said: Said, closes: bool) -> Telling
    ensures { result ≡ doings.telling_of said closes }
{
    let after = ending_of(turn_of(closes, stops_by(&said)));
    Telling {
        said,
        closes,
        after,
    }
}

/// What came of what waits, where its last call was answered so.
pub(crate) fn said_of(waiter: Waiter, answer: Answer) -> Said
    ensures { result ≡ doings.said_of waiter answer }
{
    match waiter {
        Waiter::ByRest { wanted, asker } => Said::Call {
            wanted,
            asker,
            answer,
        },
        Waiter::ByLine { line } => {
            let form = line.form;
            drop(line);
            Said::Line { form, answer }
        }
    }
}

/// What is to be told of what waits where its caller has gone: that nothing was found, as its last call said.
pub(crate) fn farewell(patience: Patience) -> Telling
    ensures { result ≡ doings.farewell patience }
{
    let Patience {
        waiter,
        limit_ms: _,
        closes: _,
        first_ms: _,
        asked_ms: _,
        answer,
    } = patience;
    Telling {
        said: said_of(waiter, answer),
        closes: true,
        after: Some(Ending::Gone),
    }
}

/// The bytes of the response, which shows these numbers where it is asked for them.
pub(crate) fn response_to(
    alloc: Global,
    telling: &Telling,
    numbers: &Numbers,
) -> Result<Vec<u8>, AllocError>
    ensures { IfOk result (λ v. doings.Says telling.now.said telling.now.closes v.items) }
{
    let closes = telling.closes;
    match &telling.said {
        Said::Call {
            wanted,
            asker,
            answer,
        } => call_bytes(alloc, wanted, answer, asker, numbers, closes),
        Said::Line { form, answer } => line_bytes(alloc, *form, answer, closes),
        Said::Lines { text, stopped } => lines_bytes(alloc, text, *stopped, closes),
        Said::Fault { fault } => fault_bytes(alloc, fault, closes),
    }
}

// The bytes of a response, which also ends the connection where its request asks for that.
fn bytes_of(alloc: Global, response: Response, closes: bool) -> Result<Vec<u8>, AllocError>
    ensures { IfOk result (λ v. v.items ≡ response_bytes (responds.closed closes (said_in response))) }
{
    let mut response = response;
    response.closes = response.closes || closes;
    write_response(alloc, &response)
}

// The bytes of the response to a call.
fn call_bytes(
    alloc: Global,
    wanted: &Wanted,
    answer: &Answer,
    asker: &Asker,
    numbers: &Numbers,
    closes: bool,
) -> Result<Vec<u8>, AllocError>
    ensures { IfOk result (λ v. responds.AnswersCall wanted.now answer.now asker.now closes v.items) }
{
    let host = asker.host.as_slice();
    let response = response_of(
        alloc,
        wanted.sight,
        &wanted.call,
        answer,
        host,
        asker.json,
        numbers,
    )?;
    bytes_of(alloc, response, closes)
}

// The bytes of the response to a script line.
fn line_bytes(
    alloc: Global,
    form: Form,
    answer: &Answer,
    closes: bool,
) -> Result<Vec<u8>, AllocError>
    ensures { IfOk result (λ v. v.items ≡ responds.line_bytes form answer.now closes) }
{
    let line = reply_line(alloc, form, answer)?;
    let response = line_response(alloc, line);
    bytes_of(alloc, response, closes || stops(answer))
}

// The response with these lines.
fn lines_response(alloc: Global, text: &[u8]) -> Result<Response, AllocError>
    ensures { IfOk result (λ r. said_in r ≡ responds.lines_response text.now) }
{
    let header = Header {
        name: b"Content-Type".to_vec(alloc)?,
        value: LINES_TYPE.to_vec(alloc)?,
    };
    Ok(Response {
        status: Status::Ok,
        headers: vec![in alloc; header]?,
        body: text.to_vec(alloc)?,
        closes: false,
    })
}

// The bytes of the response to several script lines.
fn lines_bytes(
    alloc: Global,
    text: &[u8],
    stopped: bool,
    closes: bool,
) -> Result<Vec<u8>, AllocError>
    ensures { IfOk result (λ v. v.items ≡ responds.lines_bytes text.now stopped closes) }
{
    let response = lines_response(alloc, text)?;
    bytes_of(alloc, response, closes || stopped)
}

// The same fault once more.
fn copy_of(fault: &RestFault) -> Result<RestFault, AllocError>
    ensures { IfOk result (λ f. f ≡ fault.now) }
{
    match fault {
        RestFault::Foreign => Ok(RestFault::Foreign),
        RestFault::NoKey => Ok(RestFault::NoKey),
        RestFault::NoRoute => Ok(RestFault::NoRoute),
        RestFault::BadMethod { route } => Ok(RestFault::BadMethod { route: *route }),
        RestFault::Bad { part, key } => {
            let key = key.clone()?;
            Ok(RestFault::Bad { part: *part, key })
        }
        RestFault::Script => Ok(RestFault::Script),
        RestFault::Page => Ok(RestFault::Page),
        RestFault::OutOfMemory => Ok(RestFault::OutOfMemory),
    }
}

// The bytes of the response to a request that is no call.
fn fault_bytes(alloc: Global, fault: &RestFault, closes: bool) -> Result<Vec<u8>, AllocError>
    ensures { IfOk result (λ v. v.items ≡ responds.fault_bytes fault.now closes) }
{
    let fault = copy_of(fault)?;
    let response = fault_response(alloc, fault)?;
    bytes_of(alloc, response, closes)
}

/// Whether the namespace acts no more.
pub(crate) fn stops(answer: &Answer) -> bool
    ensures { result ≡ stops answer.now }
{
    matches!(
        answer,
        Err(Refusal::DiskFault) | Err(Refusal::Stopped { faults: _ })
    )
}

// The same, by what came of a request.
fn stops_by(said: &Said) -> bool
    ensures { result ≡ doings.stops_by said.now }
{
    match said {
        Said::Call {
            wanted: _,
            asker: _,
            answer,
        } => stops(answer),
        Said::Line { form: _, answer } => stops(answer),
        Said::Lines { text: _, stopped } => *stopped,
        Said::Fault { fault: _ } => false,
    }
}

// What comes after a response.
fn turn_of(closes: bool, stops: bool) -> Turn
    ensures { result ≡ responds.turn_of closes stops }
{
    if stops {
        return Turn::Stops;
    }
    if closes {
        return Turn::Closes;
    }
    Turn::Goes
}

// How it goes on after a response.
fn ending_of(turn: Turn) -> Option<Ending>
    ensures { result ≡ talks.ending_of turn }
{
    match turn {
        Turn::Goes => None,
        Turn::Closes => Some(Ending::Closed),
        Turn::Stops => Some(Ending::Stopped),
    }
}
