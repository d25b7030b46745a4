// Moments as texts.
ghost use Rattle.std.specs.Prelude.{◌≡◌, ◌<◌, ◌/◌, min, IfOk, string_bytes};
ghost use Rattle.sb_rest.specs.Moments as moments;

use httpdate::{HttpDate, fmt_http_date};
use sb_machine::Showing;
use std::alloc::{AllocError, Global};

/// The last second of the year 9999, since 1970.
const LAST_SECOND: u64 = 253_402_300_799;

// The second of a moment, or the last that has a text.
fn second_of(ms: u64) -> u64
    ensures value { result ≡ min (ms / 1000) moments.last_second }
    ensures within { result < 253402300800 }
{
    let second = ms / 1000;
    if second <= LAST_SECOND {
        second
    } else {
        LAST_SECOND
    }
}

/// A moment in ms since 1970 in the form of headers, to the second.
pub(crate) fn time_text(alloc: Global, ms: u64) -> Result<String, AllocError>
    ensures { IfOk result (λ s. moments.IsTime ms (string_bytes s)) }
{
    let Ok(date) = HttpDate::from_unix_secs(second_of(ms)) else {
        return Ok(String::new(alloc));
    };
    let text = fmt_http_date(alloc, date)?;
    Ok(text)
}

/// Until when the lock lives under which a message was handed out.
pub(crate) fn until_text(alloc: Global, showing: Showing) -> Result<String, AllocError>
    ensures { IfOk result (λ s. moments.IsUntil showing (string_bytes s)) }
{
    match showing {
        Showing::Locked { until, .. } => time_text(alloc, until),
        Showing::Removed | Showing::Browsed(_) => Ok(String::new(alloc)),
    }
}
