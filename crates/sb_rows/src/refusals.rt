// Refusals as responses of REST.
use crate::bytes::shown;
use crate::http::response_bytes;
use crate::outcome::Rows;
use anyhow::{Result, bail};
use sb_http::{Response, write_response};
use sb_machine::{Act, Call, Mode, Part, Path, Refusal, at_part};
use sb_model::Text;
use sb_numbers::Numbers;
use sb_rest::{Sight, response_of};
use std::alloc::{AllocError, Global};

/// Rows of a refusal's name, behind which `of 1` may stand, where it is that of the operation at this place of those
/// that act together; and of the response to a receive that is refused so.
#[derive(Drop)]
pub struct Refusals {
    call: Call,
}

impl Refusals {
    pub fn new(alloc: Global) -> Result<Refusals> {
        Ok(Refusals {
            call: receive(alloc)?,
        })
    }
}

fn receive(alloc: Global) -> Result<Call, AllocError> {
    Ok(Call {
        by: None,
        act: Act::Receive {
            from: Path {
                name: Text::of(alloc, "q")?,
                subscription: None,
                part: Part::Main,
            },
            mode: Mode::Lock,
            session: None,
        },
    })
}

// Each refusal that a call of the routes may get, and that of an unknown client.
fn refusal_named(alloc: Global, name: &str) -> Result<Refusal> {
    Ok(match name {
        "BadCall" => Refusal::BadCall {
            key: Text::of(alloc, "props")?,
        },
        "EntityNotFound" => Refusal::EntityNotFound,
        "BadName" => Refusal::BadName,
        "WrongKind" => Refusal::WrongKind,
        "TooLarge" => Refusal::TooLarge { size: 262_145 },
        "QuotaExceeded" => Refusal::QuotaExceeded {
            copies: 1_000_000,
            adds: 2,
        },
        "SessionRequired" => Refusal::SessionRequired,
        "SessionNotAllowed" => Refusal::SessionNotAllowed,
        "SessionHeld" => Refusal::SessionHeld { until: 65_999 },
        "SessionLost" => Refusal::SessionLost,
        "LockLost" => Refusal::LockLost,
        "NotDeferred" => Refusal::NotDeferred,
        "NotScheduled" => Refusal::NotScheduled,
        "ClientNotFound" => Refusal::ClientNotFound,
        "TxnPending" => Refusal::TxnPending { txn: 7 },
        "TxnScope" => Refusal::TxnScope,
        "TxnFull" => Refusal::TxnFull,
        "TxnsFull" => Refusal::TxnsFull,
        "Exhausted" => Refusal::Exhausted,
        "DiskFault" => Refusal::DiskFault,
        "Stopped" => Refusal::Stopped { faults: 3 },
        "OutOfMemory" => Refusal::OutOfMemory,
        _ => bail!("no such refusal: {name}"),
    })
}

// The same, or that of an operation.
fn refusal_of(alloc: Global, words: &str) -> Result<Refusal> {
    match words.strip_suffix(" of 1") {
        Some(name) => Ok(at_part(1, refusal_named(alloc, name)?)),
        None => refusal_named(alloc, words),
    }
}

// The response to a call that is refused so.
fn response_to(alloc: Global, call: &Call, refusal: Refusal) -> Result<Vec<u8>, AllocError> {
    let numbers = Numbers::none(alloc);
    let answer = Err(refusal);
    let response = response_of(alloc, Sight::Reply, call, &answer, b"h", false, &numbers);
    drop(answer);
    drop(numbers);
    written(alloc, response?)
}

fn written(alloc: Global, response: Response) -> Result<Vec<u8>, AllocError> {
    let bytes = write_response(alloc, &response);
    drop(response);
    bytes
}

impl Rows for Refusals {
    fn set(&mut self, _alloc: Global, _key: &str, _value: &str) -> Result<bool> {
        Ok(false)
    }

    fn other(&self, alloc: Global, asked: &str, wanted: &str) -> Result<Option<String>> {
        let came = response_to(alloc, &self.call, refusal_of(alloc, asked)?)?;
        if came.as_slice() == response_bytes(alloc, wanted)?.as_slice() {
            return Ok(None);
        }
        Ok(Some(shown(alloc, &came)?))
    }
}
