// BrokerProperties of a message in a response.
ghost use Rattle.std.specs.Prelude.{◌≡◌, IfOk, OnOk, false, string_bytes};
ghost use Rattle.serde_json.specs.Data.{object, string, number, unsigned, put as with_member};
ghost use Rattle.serde_json.specs.View.{view, members_view};
ghost use Rattle.serde_json.specs.Written.{has_float, compact_text};
ghost use Rattle.sb_rest.specs.Shown as shown;

use crate::escape::ascii_json;
use sb_lines::token_text;
use sb_machine::{CopyShown, Showing};
use sb_model::SystemText;
use serde_json::{Map, Value, put};
use std::alloc::{AllocError, Global};

type Members = Map<String, Value>;

fn is_shown(text: &SystemText) -> bool
    ensures { result ≡ shown.is_shown text.now }
{
    text.name.code() != 8
}

/// Puts a text at a key.
pub(crate) fn put_text(
    members: &mut Map<String, Value>,
    alloc: Global,
    key: &str,
    text: &str,
) -> Result<(), AllocError>
    ensures { OnOk result (members_view members.new.entries
        ≡ with_member key.now (string text.now) (members_view members.old.entries)) }
{
    let value = Value::try_from_str(alloc, text)?;
    put(members, alloc, key, value)
}

fn put_number(members: &mut Members, alloc: Global, key: &str, n: u64) -> Result<(), AllocError>
    ensures { OnOk result (members_view members.new.entries
        ≡ with_member key.now (number (unsigned n)) (members_view members.old.entries)) }
{
    put(members, alloc, key, Value::from(n))
}

fn put_shown(members: &mut Members, alloc: Global, text: &SystemText) -> Result<(), AllocError>
    ensures { OnOk result (members_view members.new.entries
        ≡ shown.with_shown text.now (members_view members.old.entries)) }
{
    if is_shown(text) {
        put_text(members, alloc, text.name.name(), text.text.as_str())
    } else {
        Ok(())
    }
}

fn put_texts(members: &mut Members, alloc: Global, texts: &[SystemText]) -> Result<(), AllocError>
    ensures { OnOk result (members_view members.new.entries
        ≡ shown.with_texts texts.now (members_view members.old.entries)) }
{
    for text in texts {
        put_shown(members, alloc, text)?;
    }
    Ok(())
}

fn put_ttl(members: &mut Members, alloc: Global, ttl: Option<u64>) -> Result<(), AllocError>
    ensures { OnOk result (members_view members.new.entries
        ≡ shown.with_ttl ttl (members_view members.old.entries)) }
{
    match ttl {
        None => Ok(()),
        Some(seconds) => put_number(members, alloc, "TimeToLive", seconds),
    }
}

fn put_lock(
    members: &mut Members,
    alloc: Global,
    until: &str,
    showing: Showing,
) -> Result<(), AllocError>
    ensures { OnOk result (members_view members.new.entries
        ≡ shown.with_lock until.now showing (members_view members.old.entries)) }
{
    match showing {
        Showing::Locked { token, .. } => {
            put_text(members, alloc, "LockedUntilUtc", until)?;
            let token = token_text(alloc, token)?;
            put_text(members, alloc, "LockToken", token.as_str())
        }
        Showing::Removed | Showing::Browsed(_) => Ok(()),
    }
}

fn broker_members(
    alloc: Global,
    texts: &[SystemText],
    enqueued: &str,
    until: &str,
    copy: &CopyShown,
) -> Result<Members, AllocError>
    ensures { IfOk result (λ m. members_view m.entries ≡ shown.broker_members texts.now enqueued.now until.now copy.now) }
{
    let mut members = Map::new(alloc);
    put_texts(&mut members, alloc, texts)?;
    put_number(&mut members, alloc, "DeliveryCount", copy.delivery)?;
    put_number(
        &mut members,
        alloc,
        "EnqueuedSequenceNumber",
        copy.enqueued_seq,
    )?;
    put_text(&mut members, alloc, "EnqueuedTimeUtc", enqueued)?;
    put_number(&mut members, alloc, "SequenceNumber", copy.number)?;
    put_ttl(&mut members, alloc, copy.message.ttl)?;
    put_lock(&mut members, alloc, until, copy.showing)?;
    Ok(members)
}

fn broker_value(
    alloc: Global,
    texts: &[SystemText],
    enqueued: &str,
    until: &str,
    copy: &CopyShown,
) -> Result<Value, AllocError>
    ensures { IfOk result (λ v. view v ≡ object (shown.broker_members texts.now enqueued.now until.now copy.now)) }
{
    let members = broker_members(alloc, texts, enqueued, until, copy)?;
    Ok(Value::Object(members))
}

/// JSON without a float as compact text.
pub(crate) fn json_line(alloc: Global, value: &Value) -> Result<String, AllocError>
    requires { has_float (view value.now) ≡ false }
    ensures { IfOk result (λ s. string_bytes s ≡ compact_text (view value.now)) }
{
    let text = value.to_string(alloc)?;
    Ok(text)
}

/// BrokerProperties of a message, with these of its texts and the texts of its moments.
#[tactic(auto, unfolding(crate::specs::Shown::broker_text))]
pub(crate) fn broker_text(
    alloc: Global,
    texts: &[SystemText],
    enqueued: &str,
    until: &str,
    copy: &CopyShown,
) -> Result<Vec<u8>, AllocError>
    ensures { IfOk result (λ v. v.items ≡ shown.broker_text texts.now enqueued.now until.now copy.now) }
{
    let value = broker_value(alloc, texts, enqueued, until, copy)?;
    let text = json_line(alloc, &value)?;
    ascii_json(alloc, text.as_str())
}
