// How long a request may wait.
ghost use Rattle.std.specs.Prelude.{◌≡◌, option_map};
ghost use Rattle.sb_lines.specs.Faults.{Answers};
ghost use Rattle.sb_rest.specs.Timeouts as timeouts;

use crate::query::value_of;
use form_urlencoded::decode;
use sb_http::number;
use sb_lines::{LineFault, bad};
use std::alloc::Global;

/// The longest timeout, in s.
const MAX_TIMEOUT: u64 = 3_600;

/// The timeout where none is given, in s.
const DEFAULT_TIMEOUT: u64 = 60;

fn seconds_in(text: &[u8]) -> Option<u64>
    ensures { result ≡ timeouts.seconds_in text.now }
{
    match number(text) {
        Some(n) if n <= MAX_TIMEOUT => Some(n),
        _ => None,
    }
}

fn timeout_from(alloc: Global, given: Option<&[u8]>) -> Result<u64, LineFault>
    ensures { Answers result (timeouts.timeout_from (option_map (λ v. v.now) given.entry)) }
{
    let Some(value) = given else {
        return Ok(DEFAULT_TIMEOUT);
    };
    let text = decode(alloc, value)?;
    match seconds_in((&*text).as_bytes()) {
        Some(seconds) => Ok(seconds),
        None => bad(alloc, "timeout"),
    }
}

/// The timeout that a query gives, in s: 0 to 3,600, by default 60.
pub(crate) fn timeout_in(alloc: Global, query: &[u8]) -> Result<u64, LineFault>
    ensures { Answers result (timeouts.timeout_in query.now) }
{
    let given = value_of(alloc, query, "timeout")?;
    timeout_from(alloc, given)
}
