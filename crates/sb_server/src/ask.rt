// What a request asks for.
ghost use Rattle.std.specs.Prelude.{◌≡◌, Err};
ghost use Rattle.sb_machine.specs.Ordered.{IsActInOrder};
ghost use Rattle.sb_http.specs.Said.{said_by};
ghost use Rattle.sb_rest.specs.Calls.{call_of};
ghost use Rattle.sb_rest.specs.declared.call.RestFault.TheVariants.{Script};
ghost use Rattle.sb_server.specs.Asks as asks;
ghost use Rattle.sb_server.specs.Bodies.{line_in as line_said};
ghost use Rattle.sb_server.specs.Responds.{waiter_call};

use crate::body::{LineAsk, line_in, lines_in};
use crate::head::has_lines;
use sb_http::Request;
use sb_lines::refusal_of;
use sb_machine::{Act, Answer, Call};
use sb_model::Rows;
use sb_outside::Bytes;
use sb_rest::{Access, RestFault, Wanted, call_of, host_of, wants_json};
use sb_routes::Routes;
use std::alloc::Global;

/// What the response to a call has of who asks.
#[derive(Drop)]
pub struct Asker {
    /// The host that the request names, or `localhost`.
    pub host: Bytes,
    /// Whether the request asks for messages as JSON.
    pub json: bool,
}

/// What waits while its call finds nothing: a receive, or the accept of a session.
#[derive(Drop)]
pub enum Waiter {
    /// By REST, with what its response has of who asks.
    ByRest { wanted: Wanted, asker: Asker },
    /// By a script line.
    ByLine { line: sb_lines::Line },
}

impl Waiter {
    /// The call that it makes, once or more.
    pub(crate) fn call(&self) -> &Call
        ensures { result.now ≡ waiter_call self.now }
    {
        match self {
            Waiter::ByRest { wanted, asker: _ } => &wanted.call,
            Waiter::ByLine { line } => &line.timed.call,
        }
    }
}

/// What a request asks for.
#[derive(Drop)]
pub enum Ask {
    /// A call that is answered at once.
    Once { wanted: Wanted, asker: Asker },
    /// A call that waits so many ms at most.
    Patient { waiter: Waiter, limit_ms: u64 },
    /// A script line, which is called once.
    Line { line: sb_lines::Line },
    /// A script line that is no call.
    BadLine { answer: Answer },
    /// Script lines, each of which is called, in their order.
    Lines { lines: Rows<LineAsk> },
    /// No call.
    Fault { fault: RestFault },
}

/// What a request asks for. Where there is no memory to tell, that is a fault.
pub(crate) fn ask_of(alloc: Global, routes: &Routes, access: &Access, request: &Request) -> Ask
    ensures { asks.AsksFor access.now (said_by request.now) result }
{
    match call_of(alloc, routes, access, request) {
        Ok(wanted) => called(alloc, access, request, wanted),
        Err(RestFault::Script) => script_ask(alloc, access, request),
        Err(RestFault::Foreign) => Ask::Fault {
            fault: RestFault::Foreign,
        },
        Err(RestFault::NoKey) => Ask::Fault {
            fault: RestFault::NoKey,
        },
        Err(RestFault::NoRoute) => Ask::Fault {
            fault: RestFault::NoRoute,
        },
        Err(RestFault::BadMethod { route }) => Ask::Fault {
            fault: RestFault::BadMethod { route },
        },
        Err(RestFault::Bad { part, key }) => Ask::Fault {
            fault: RestFault::Bad { part, key },
        },
        Err(RestFault::Page) => Ask::Fault {
            fault: RestFault::Page,
        },
        Err(RestFault::OutOfMemory) => Ask::Fault {
            fault: RestFault::OutOfMemory,
        },
    }
}

// Whether an operation may wait: a receive, or the accept of the next session.
fn may_wait(act: &Act) -> bool
    ensures { result ≡ asks.may_wait act.now }
{
    matches!(
        act,
        Act::Receive {
            from: _,
            mode: _,
            session: _
        } | Act::Accept { from: _, id: None }
    )
}

// Whether a call is made again while it finds nothing: one that may wait, without a number.
fn waits(call: &Call) -> bool
    ensures { result ≡ asks.waits call.now }
{
    may_wait(&call.act) && call.by.is_none()
}

// A call that may wait.
fn called(alloc: Global, access: &Access, request: &Request, wanted: Wanted) -> Ask
    requires said { call_of access.now (said_by request.now) ≡ Ok wanted }
    requires in_order { IsActInOrder wanted.call.act }
    ensures { asks.AsksFor access.now (said_by request.now) result }
{
    let Ok(host) = Bytes::of(alloc, host_of(request)) else {
        drop(wanted);
        return Ask::Fault {
            fault: RestFault::OutOfMemory,
        };
    };
    let json = wants_json(request);
    let asker = Asker { host, json };
    if waits(&wanted.call) {
        let limit_ms = wanted.timeout.saturating_mul(1000);
        return Ask::Patient {
            waiter: Waiter::ByRest { wanted, asker },
            limit_ms,
        };
    }
    Ask::Once { wanted, asker }
}

// A body as one script line, or as several.
fn script_ask(alloc: Global, access: &Access, request: &Request) -> Ask
    requires { call_of access.now (said_by request.now) ≡ Err Script }
    ensures { asks.AsksFor access.now (said_by request.now) result }
{
    if !has_lines(request) {
        return line_ask(alloc, request.body);
    }
    match lines_in(alloc, request.body) {
        Ok(lines) => Ask::Lines { lines },
        Err(_) => Ask::Fault {
            fault: RestFault::OutOfMemory,
        },
    }
}

// Whether a line is called again while it finds nothing.
fn line_waits(line: &sb_lines::Line) -> bool
    ensures { result ≡ asks.line_waits line.now }
{
    line.wait_s > 0 && line.timed.call.by.is_none()
}

// A script line, which may wait.
fn line_called(body: &[u8], line: sb_lines::Line) -> Ask
    requires { asks.Reads (line_said body.now) line }
    ensures { asks.IsLineAsk body.now result }
{
    let _ = body;
    if line_waits(&line) {
        let limit_ms = line.wait_s.saturating_mul(1000);
        return Ask::Patient {
            waiter: Waiter::ByLine { line },
            limit_ms,
        };
    }
    Ask::Line { line }
}

// A body as a script line.
fn line_ask(alloc: Global, body: &[u8]) -> Ask
    ensures { asks.IsLineAsk body.now result }
{
    match line_in(alloc, body) {
        Ok(line) => line_called(body, line),
        Err(fault) => Ask::BadLine {
            answer: Err(refusal_of(fault)),
        },
    }
}
