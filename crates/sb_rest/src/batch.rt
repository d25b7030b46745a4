// Several messages in one send.
ghost use Rattle.std.specs.Prelude.{◌≡◌, [], map, All, length, option_map, codes};
ghost use Rattle.serde_json.specs.Find.{as_array};
ghost use Rattle.httparse.specs.Spans.{IsHeaderWithin, header_bytes};
ghost use Rattle.serde_json.specs.View.{view, items_view, members_view};
ghost use Rattle.sb_lines.specs.Faults.{Answers, or_key, then_by};
ghost use Rattle.sb_lines.specs.Gathering.{Leaves};
ghost use Rattle.sb_lines.specs.Messages.{unless_null};
ghost use Rattle.sb_rest.specs.Batches as batches;

use crate::broker::broker_of;
use crate::draft::{Broker, Draft, message_from, no_broker};
use crate::media::has_media_type_in;
use crate::value::json_text;
use httparse::spans::HeaderSpan;
use sb_amqp::Gathered;
use sb_lines::{LineFault, bad, property_value};
use sb_model::{Body, Message, Rows, Text};
use sb_routes::text_of;
use serde_json::{Map, Value};
use std::alloc::Global;

/// The media type of a batch (Microsoft Learn, Service Bus REST API reference, "Send Message Batch").
const BATCH_TYPE: &[u8] = b"application/vnd.microsoft.servicebus.json";

/// Whether the last Content-Type of these lines is that of a batch.
pub(crate) fn is_batch(text: &[u8], lines: &[HeaderSpan]) -> bool
    requires { All (IsHeaderWithin (length text.now)) lines.now }
    ensures { result ≡ batches.is_batch (map (header_bytes text.now) lines.now) }
{
    has_media_type_in(text, lines, BATCH_TYPE)
}

// ---- one message

fn body_from(alloc: Global, given: Option<&Value>) -> Result<Body, LineFault>
    ensures { Answers result (batches.body_from (option_map (λ v. view v.now) given.entry)) }
{
    let Some(member) = given else {
        return Ok(Body::new());
    };
    let Some(text) = member.as_str() else {
        return bad(alloc, "Body");
    };
    Ok(Body::of(alloc, text.as_bytes())?)
}

fn broker_from(alloc: Global, given: Option<&Value>) -> Result<Broker, LineFault>
    ensures { Answers result (batches.broker_from (option_map (λ v. view v.now) given.entry)) }
{
    let Some(member) = given else {
        return Ok(no_broker(alloc));
    };
    if !member.is_object() {
        return bad(alloc, "BrokerProperties");
    }
    broker_of(alloc, member)
}

fn gather_member(
    alloc: Global,
    name: &str,
    value: &Value,
    props: &mut Gathered,
) -> Result<(), LineFault>
    ensures { Leaves result props.new (batches.property_from name.now (unless_null (view value.now)) props.old) }
{
    if value.is_null() {
        return Ok(());
    }
    let value = property_value(alloc, value, name)?;
    props.put(alloc, name, value)?;
    Ok(())
}

fn gather(
    alloc: Global,
    members: &Map<String, Value>,
    props: &mut Gathered,
) -> Result<(), LineFault>
    ensures { Leaves result props.new (batches.with_members (members_view members.now.entries) props.old) }
{
    for (name, member) in members.iter() {
        gather_member(alloc, name.as_str(), member, props)?;
    }
    Ok(())
}

fn properties_of(alloc: Global, members: &Map<String, Value>) -> Result<Gathered, LineFault>
    ensures { Answers result (batches.with_members (members_view members.now.entries) []) }
{
    let mut props = Gathered::new(alloc);
    if let Err(fault) = gather(alloc, members, &mut props) {
        drop(props);
        return Err(fault);
    }
    Ok(props)
}

fn properties_from(alloc: Global, given: Option<&Value>) -> Result<Gathered, LineFault>
    ensures { Answers result (batches.properties_from (option_map (λ v. view v.now) given.entry)) }
{
    let Some(member) = given else {
        return Ok(Gathered::new(alloc));
    };
    let Some(members) = member.as_object() else {
        return bad(alloc, "UserProperties");
    };
    properties_of(alloc, members)
}

#[tactic(auto, unfolding(crate::specs::Batches::message_of))]
fn message_of(alloc: Global, value: &Value) -> Result<Message, LineFault>
    ensures { Answers result (batches.message_of (view value.now)) }
{
    if !value.is_object() {
        return bad(alloc, "Body");
    }
    let body = body_from(alloc, value.get("Body"))?;
    let broker = broker_from(alloc, value.get("BrokerProperties"))?;
    let props = properties_from(alloc, value.get("UserProperties"))?;
    let draft = Draft {
        broker,
        content_type: Text::from_string(String::new(alloc)),
        props,
    };
    Ok(message_from(alloc, body, draft)?)
}

// ---- the array

fn messages_of(alloc: Global, values: &[Value]) -> Result<Rows<Message>, LineFault>
    ensures { Answers result (batches.messages_of (items_view values.now)) }
{
    let mut list = Vec::new(alloc);
    for value in values {
        let message = message_of(alloc, value)?;
        list.push(message)?;
    }
    Ok(Rows::from_vec(list))
}

fn messages_from(alloc: Global, value: &Value) -> Result<Rows<Message>, LineFault>
    ensures { Answers result (then_by (or_key (codes "Body") (as_array (view value.now))) batches.messages_of) }
{
    let Some(values) = value.as_array() else {
        return bad(alloc, "Body");
    };
    messages_of(alloc, values.as_slice())
}

/// The messages of a batch with this body; `Body` is at fault where it is no array of objects.
pub(crate) fn messages_in(alloc: Global, body: &[u8]) -> Result<Rows<Message>, LineFault>
    ensures { Answers result (batches.messages_in body.now) }
{
    let Some(text) = text_of(body) else {
        return bad(alloc, "Body");
    };
    let Some(value) = json_text(alloc, text)? else {
        return bad(alloc, "Body");
    };
    messages_from(alloc, &value)
}
