// Which call a request of REST is, or which fault it has.
ghost use Rattle.std.specs.Prelude.{IfOk};
ghost use Rattle.sb_machine.specs.Ordered.{IsActInOrder};

use crate::http::request_of;
use crate::outcome::Rows;
use anyhow::{Context, Result, bail};
use sb_http::{Incoming, Request};
use sb_lines::read_line;
use sb_machine::Act;
use sb_model::Text;
use sb_repeats::is_same_act;
use sb_rest::{Access, RestFault, Sight, Wanted, call_of};
use sb_routes::Routes;
use std::alloc::{AllocError, Global};

/// Rows of a request, and of `401`, `403`, `404`, `405`, `400 KEY`, `script`, `page`, or the script line of its
/// call, before which stands its timeout where that isn't 60 seconds, or how its answer is told, as `health`.
/// Before them stands `front TEXT`, with which each request begins, and `key TEXT`, which each has to show.
#[derive(Drop)]
pub struct Requests {
    front: String,
    access: Access,
    routes: Routes,
}

impl Requests {
    pub fn new(alloc: Global) -> Result<Requests> {
        Ok(Requests {
            front: String::new(alloc),
            access: Access::unlocked(alloc),
            routes: Routes::new(alloc)?,
        })
    }
}

// How the answer to a call is told, its timeout and its script line.
fn manner(wanted: &str) -> (Sight, u64, &str) {
    if wanted.starts_with('{') {
        return (Sight::Reply, 60, wanted);
    }
    let (word, line) = wanted.split_once(' ').unwrap_or(("", ""));
    match word {
        "health" => (Sight::Health, 0, line),
        "line" => (Sight::Line, 0, line),
        "metrics" => (Sight::Metrics, 0, line),
        "status" => (Sight::Status, 0, line),
        _ => (Sight::Reply, word.parse::<u64>().unwrap_or(60), line),
    }
}

fn is_of_line(alloc: Global, act: &Act, line: &str) -> bool {
    match read_line(alloc, line) {
        Ok(line) => {
            let is_same = is_same_act(act, &line.timed.call.act);
            drop(line);
            is_same
        }
        Err(fault) => {
            drop(fault);
            false
        }
    }
}

fn is_call(alloc: Global, found: &Wanted, wanted: &str) -> bool {
    let (sight, timeout, line) = manner(wanted);
    found.sight == sight
        && found.timeout == timeout
        && found.call.by.is_none()
        && is_of_line(alloc, &found.call.act, line)
}

/// The call of a request where anybody may call, or its fault.
pub fn found_in(alloc: Global, routes: &Routes, request: &Request) -> Result<Wanted, RestFault>
    ensures in_order { IfOk result (λ wanted. IsActInOrder wanted.call.act) }
{
    let access = Access::unlocked(alloc);
    let found = call_of(alloc, routes, &access, request);
    drop(access);
    found
}

fn told(alloc: Global, found: Wanted, wanted: &str) -> Result<String, AllocError> {
    let timeout = found.timeout;
    let is_wanted = is_call(alloc, &found, wanted);
    drop(found);
    if is_wanted {
        return String::from_str(alloc, wanted);
    }
    format!(in alloc; "another call, with {timeout} s")
}

// What comes of a request, as a row has it; of another call than the wanted one, only that.
fn came(
    alloc: Global,
    routes: &Routes,
    access: &Access,
    request: &Request,
    wanted: &str,
) -> Result<String, AllocError> {
    match call_of(alloc, routes, access, request) {
        Ok(found) => told(alloc, found, wanted),
        Err(RestFault::Foreign) => String::from_str(alloc, "403"),
        Err(RestFault::NoKey) => String::from_str(alloc, "401"),
        Err(RestFault::NoRoute) => String::from_str(alloc, "404"),
        Err(RestFault::BadMethod { .. }) => String::from_str(alloc, "405"),
        Err(RestFault::Script) => String::from_str(alloc, "script"),
        Err(RestFault::Page) => String::from_str(alloc, "page"),
        Err(RestFault::Bad { part: None, key }) => format!(in alloc; "400 {}", key.as_str()),
        Err(
            RestFault::Bad {
                part: Some(part),
                key,
            },
        ) => format!(in alloc; "400 {} of {part}", key.as_str()),
        Err(RestFault::OutOfMemory) => Err(AllocError),
    }
}

// What comes of the one request of a stream.
fn came_of(
    alloc: Global,
    routes: &Routes,
    access: &Access,
    stream: &[u8],
    wanted: &str,
) -> Result<String> {
    let mut incoming = Incoming::new(alloc)?;
    let came = came_through(alloc, routes, access, &mut incoming, stream, wanted);
    drop(incoming);
    came
}

fn came_through(
    alloc: Global,
    routes: &Routes,
    access: &Access,
    incoming: &mut Incoming,
    stream: &[u8],
    wanted: &str,
) -> Result<String> {
    if incoming.feed(stream) != stream.len() {
        bail!("not all of the request is taken");
    }
    let Ok(next) = incoming.next_request() else {
        bail!("no request of HTTP");
    };
    let request = next.context("no whole request")?;
    Ok(came(alloc, routes, access, &request, wanted)?)
}

impl Rows for Requests {
    fn set(&mut self, alloc: Global, key: &str, value: &str) -> Result<bool> {
        match key {
            "front" => self.front = String::from_str(alloc, value)?,
            "key" => self.access.key = Some(Text::of(alloc, value)?),
            _ => return Ok(false),
        }
        Ok(true)
    }

    fn other(&self, alloc: Global, asked: &str, wanted: &str) -> Result<Option<String>> {
        let row = format!(in alloc; "{}{asked}", self.front.as_str())?;
        let stream = request_of(alloc, row.as_str())?;
        let came = came_of(alloc, &self.routes, &self.access, &stream, wanted)?;
        Ok(Some(came).filter(|came| came.as_str() != wanted))
    }
}
