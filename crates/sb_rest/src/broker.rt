// BrokerProperties.
ghost use Rattle.std.specs.Prelude.{◌≡◌, option_map, IfOk};
ghost use Rattle.serde_json.specs.View.{view};
ghost use Rattle.sb_lines.specs.Faults.{Answers};
ghost use Rattle.sb_lines.specs.Messages.{member_at};
ghost use Rattle.sb_lines.specs.declared.texts.Nulls.TheVariants.{Absent};
ghost use Rattle.sb_rest.specs.Brokers as brokers;

use crate::draft::Broker;
use crate::lifetime::lifetime_in;
use crate::value::json_text;
use httpdate::HttpDate;
use sb_lines::{LineFault, Nulls, bad, broker_texts};
use sb_routes::text_of;
use serde_json::Value;
use std::alloc::{AllocError, Global};

/// The member of this name; a null counts as absent.
pub(crate) fn given_at<'a>(value: &'a Value, key: &str) -> Option<&'a Value>
    ensures { option_map (λ v. view v.now) result ≡ member_at Absent key.now (view value.now) }
{
    let member = value.get(key)?;
    if member.is_null() {
        return None;
    }
    Some(member)
}

// The moment that a date of HTTP says, in ms since 1970.
fn moment_of(text: &str) -> Option<u64>
    ensures { result ≡ brokers.moment_of text.now }
{
    match HttpDate::parse_ascii(text.as_bytes()) {
        Ok(date) => Some(date.unix_secs() * 1000),
        Err(_) => None,
    }
}

fn schedule_at(alloc: Global, value: &Value, key: &str) -> Result<Option<u64>, LineFault>
    ensures { Answers result (brokers.schedule_at key.now (view value.now)) }
{
    let Some(member) = given_at(value, key) else {
        return Ok(None);
    };
    let Some(text) = member.as_str() else {
        return bad(alloc, key);
    };
    match moment_of(text) {
        Some(moment) => Ok(Some(moment)),
        None => bad(alloc, key),
    }
}

/// What an object says of a message; a member of another kind is at fault, and the first of several
/// is the text of least code, then the time to live, then the schedule.
#[tactic(auto, unfolding(crate::specs::Brokers::broker_of))]
pub(crate) fn broker_of(alloc: Global, value: &Value) -> Result<Broker, LineFault>
    ensures { Answers result (brokers.broker_of (view value.now)) }
{
    let texts = broker_texts(alloc, value, Nulls::Absent)?;
    let ttl = lifetime_in(alloc, value)?;
    let schedule = schedule_at(alloc, value, "ScheduledEnqueueTimeUtc")?;
    Ok(Broker {
        texts,
        ttl,
        schedule,
    })
}

/// The object that bytes spell.
pub(crate) fn object_in(alloc: Global, bytes: &[u8]) -> Result<Option<Value>, AllocError>
    ensures { IfOk result (λ o. option_map view o ≡ brokers.object_in bytes.now) }
{
    let Some(text) = text_of(bytes) else {
        return Ok(None);
    };
    let Some(value) = json_text(alloc, text)? else {
        return Ok(None);
    };
    if value.is_object() {
        Ok(Some(value))
    } else {
        Ok(None)
    }
}

/// What the value of the header says, which is one JSON object.
pub(crate) fn broker_in(alloc: Global, bytes: &[u8]) -> Result<Broker, LineFault>
    ensures { Answers result (brokers.broker_in bytes.now) }
{
    let Some(object) = object_in(alloc, bytes)? else {
        return bad(alloc, "BrokerProperties");
    };
    broker_of(alloc, &object)
}
