// Time to live in BrokerProperties.
ghost use Rattle.std.specs.Prelude.{◌≡◌, ◌<◌, IfSome, option_map, option_and_then};
ghost use Rattle.serde_json.specs.Find.{as_str};
ghost use Rattle.serde_json.specs.View.{view};
ghost use Rattle.sb_lines.specs.Faults.{Answers};
ghost use Rattle.sb_lines.specs.Messages.{if_positive};
ghost use Rattle.sb_rest.specs.Lifetimes as lifetimes;

use crate::broker::given_at;
use sb_http::number;
use sb_lines::{LineFault, bad};
use sb_routes::cut;
use serde_json::Value;
use std::alloc::Global;
use std::num::{nearest_u64_to_f64, saturating_f64_to_u64};

/// The longest time to live, in s: a longer one counts as none.
const MAX_SECONDS: u128 = 922_337_203_685;

/// The time to live that an object gives, in s: as a whole number, which may be written `10.0`, or as
/// the service writes a span. Both at once are a fault of the span.
pub(crate) fn lifetime_in(alloc: Global, value: &Value) -> Result<Option<u64>, LineFault>
    ensures { Answers result (lifetimes.lifetime_in (view value.now)) }
{
    let seconds = given_at(value, "TimeToLive");
    match given_at(value, "TimeToLiveTimeSpan") {
        Some(span) => of_span(alloc, seconds.is_some(), span),
        None => of_seconds(alloc, seconds),
    }
}

fn of_seconds(alloc: Global, given: Option<&Value>) -> Result<Option<u64>, LineFault>
    ensures { Answers result (lifetimes.of_seconds (option_map (λ v. view v.now) given.entry)) }
{
    let Some(member) = given else {
        return Ok(None);
    };
    match lifetime_seconds(member) {
        Some(lifetime) => Ok(lifetime),
        None => bad(alloc, "TimeToLive"),
    }
}

fn of_span(alloc: Global, beside: bool, member: &Value) -> Result<Option<u64>, LineFault>
    ensures { Answers result (lifetimes.of_span beside (view member.now)) }
{
    if beside {
        return bad(alloc, "TimeToLiveTimeSpan");
    }
    match lifetime_span(member) {
        Some(lifetime) => Ok(lifetime),
        None => bad(alloc, "TimeToLiveTimeSpan"),
    }
}

fn lifetime_seconds(member: &Value) -> Option<Option<u64>>
    ensures { result ≡ option_and_then if_positive (lifetimes.seconds_in (view member.now)) }
{
    let seconds = seconds_in(member)?;
    if_positive(u128::from(seconds))
}

fn lifetime_span(member: &Value) -> Option<Option<u64>>
    ensures { result ≡ option_and_then if_positive (option_and_then lifetimes.span_in (as_str (view member.now))) }
{
    let text = member.as_str()?;
    let seconds = span_in(text.as_bytes())?;
    if_positive(seconds)
}

// 1 or more, and none above the longest.
fn if_positive(seconds: u128) -> Option<Option<u64>>
    ensures { result ≡ if_positive seconds }
{
    if seconds < 1 {
        return None;
    }
    if seconds <= MAX_SECONDS {
        Some(Some(seconds as u64))
    } else {
        Some(None)
    }
}

// ---- a number

fn seconds_in(value: &Value) -> Option<u64>
    ensures { result ≡ lifetimes.seconds_in (view value.now) }
{
    match value.as_u64() {
        Some(n) => Some(n),
        None => whole_float(value.as_f64()?),
    }
}

fn whole_float(x: f64) -> Option<u64>
    ensures { result ≡ lifetimes.whole_float x }
{
    let n = saturating_f64_to_u64(x);
    if n < u64::MAX && nearest_u64_to_f64(n) == x {
        Some(n)
    } else {
        None
    }
}

// ---- a span

fn two_digits(end: u64, word: &[u8]) -> Option<u64>
    ensures value { result ≡ lifetimes.two_digits end word.now }
    ensures below { IfSome result (λ n. n < end) }
{
    match number(word) {
        Some(n) if word.len() == 2 && n < end => Some(n),
        _ => None,
    }
}

// mm:ss
#[tactic(auto, unfolding(crate::specs::Lifetimes::minutes_in))]
fn minutes_in(text: &[u8]) -> Option<u64>
    ensures value { result ≡ lifetimes.minutes_in text.now }
    ensures below { IfSome result (λ n. n < 3600) }
{
    let (minutes, seconds) = cut(text, b':');
    let minutes = two_digits(60, minutes)?;
    let seconds = two_digits(60, seconds)?;
    Some(minutes * 60 + seconds)
}

// hh:mm:ss
#[tactic(auto, unfolding(crate::specs::Lifetimes::hours_in))]
fn hours_in(text: &[u8]) -> Option<u64>
    ensures value { result ≡ lifetimes.hours_in text.now }
    ensures below { IfSome result (λ n. n < 86400) }
{
    let (hours, rest) = cut(text, b':');
    let hours = two_digits(24, hours)?;
    let rest = minutes_in(rest)?;
    Some(hours * 3_600 + rest)
}

// d.hh:mm:ss
#[tactic(auto, unfolding(crate::specs::Lifetimes::span_in))]
fn span_in(text: &[u8]) -> Option<u128>
    ensures { result ≡ lifetimes.span_in text.now }
{
    let (days, rest) = cut(text, b'.');
    let days = number(days)?;
    let rest = hours_in(rest)?;
    Some(u128::from(days) * 86_400 + u128::from(rest))
}
