// Whether a call is such as the machine accepts.
ghost use Rattle.std.specs.Prelude.{◌≡◌, ◌&&◌, IfOk, Some, false, is_none, nat_le, sum_by};
ghost use Rattle.std.specs.List.{list_all};
ghost use Rattle.sb_machine.specs.Administration as administration;
ghost use Rattle.sb_machine.specs.Each.{is_read};
ghost use Rattle.sb_machine.specs.Fields as fields;
ghost use Rattle.sb_machine.specs.Judged as judged;
ghost use Rattle.sb_machine.specs.Messages as messages;
ghost use Rattle.sb_machine.specs.Names as names;
ghost use Rattle.sb_machine.specs.Ordered.{asked_of};
ghost use Rattle.sb_machine.specs.Queueing.{max_operations};
ghost use Rattle.sb_machine.specs.Sessions as sessions;
ghost use Rattle.sb_machine.specs.Together as together;
ghost use Rattle.sb_machine.specs.declared.call.FilterText.TheVariants.{Correlation};
ghost use Rattle.sb_model.specs.Texts.{filter_in, action_in};
ghost use Rattle.sb_judge.specs.Calls as spec;

use crate::entities::is_described;
use crate::messages::are_in_order;
use sb_machine::{Act, Conditions, EntityKind, FilterText, Path, Step, Which};
use sb_model::{Message, Name, Rows, Text};
use sb_names::limits::{MAX_PROPERTY_BYTES, MAX_STATE};
use sb_names::{
    are_addressed, are_few, bad_field, conditions_size, forgets_itself, is_address, is_client_name,
    is_id, is_name, is_number, is_rule_name, is_short_name, large_size, large_steps, takes_number,
};
use sb_sqltext::{ParseFault, parse_action, parse_filter, texts_are_read_exactly};
use std::alloc::{AllocError, Global};

/// Whether an act that a client numbered passed all tests of a call, and its lists stand in order.
#[tactic(auto, unfolding(crate::specs::Calls::call_verdict))]
pub(crate) fn is_call(
    alloc: Global,
    act: &Act,
    client: &Text,
    number: u64,
) -> Result<bool, AllocError>
    ensures { IfOk result (λ b. b ≡ (spec.call_verdict false act.now (Some (record { client = client.now; number = number }))).0) }
{
    if !is_plain(act) || !is_by(act, client, number) {
        return Ok(false);
    }
    has_sizes(alloc, act)
}

// ---- all tests

#[tactic(auto, using(crate::proofs::Alone::alone))]
fn is_in_range(act: &Act) -> bool
    ensures { result ≡ is_none (fields.bad_in_act false act.now) }
{
    bad_field(false, act, &None).is_none()
}

#[tactic(auto, unfolding(crate::specs::Calls::plain_verdict))]
fn is_plain(act: &Act) -> bool
    ensures { result ≡ (spec.plain_verdict false act.now).0 }
{
    takes_number(act)
        && is_in_range(act)
        && has_names(act)
        && has_described(act)
        && has_short_id(act)
        && is_act_in_order(act)
}

fn is_client(act: &Act, client: &Text) -> bool
    ensures { result ≡ (fields.takes_number act.now && fields.is_client_name client.now) }
{
    takes_number(act) && is_client_name(client.as_str())
}

fn is_by(act: &Act, client: &Text, number: u64) -> bool
    ensures { result ≡ is_none (fields.bad_in_by act.now (Some (record { client = client.now; number = number }))) }
{
    !forgets_itself(act, client) && is_client(act, client) && is_number(number)
}

// ---- order

fn are_messages_in_order(sent: &[Message]) -> bool
    ensures { result ≡ list_all (λ m. (spec.in_order_verdict m).0) sent.now }
{
    sent.iter().all(|message| is_message_in_order(message))
}

#[tactic(auto, unfolding(crate::specs::Calls::in_order_verdict))]
fn is_message_in_order(message: &Message) -> bool
    ensures { result ≡ (spec.in_order_verdict message.now).0 }
{
    are_in_order(message.sys.as_slice(), message.props.as_slice())
}

#[tactic(auto, unfolding(crate::specs::Calls::in_order_verdict))]
fn are_conditions_in_order(conditions: &Conditions) -> bool
    ensures { result ≡ (spec.in_order_verdict (asked_of conditions.now)).0 }
{
    are_in_order(conditions.sys.as_slice(), conditions.props.as_slice())
}

fn is_filter_in_order(asked: &FilterText) -> bool
    ensures { result ≡ (spec.filter_order_verdict asked.now).0 }
{
    match asked {
        FilterText::Sql(_) => true,
        FilterText::Correlation(conditions) => are_conditions_in_order(conditions),
    }
}

#[tactic(auto, unfolding(crate::specs::Calls::step_order_verdict))]
fn is_step_in_order(step: &Step) -> bool
    ensures { result ≡ (spec.step_order_verdict step.now).0 }
{
    match step {
        Step::Send { messages, .. } => are_messages_in_order(messages.as_slice()),
        Step::Settle { .. } | Step::SessionSet { .. } => true,
    }
}

fn are_steps_in_order(steps: &[Step]) -> bool
    ensures { result ≡ list_all (λ x. (spec.step_order_verdict x).0) steps.now }
{
    steps.iter().all(|step| is_step_in_order(step))
}

#[tactic(auto, unfolding(crate::specs::Calls::act_order_verdict))]
fn is_act_in_order(act: &Act) -> bool
    ensures { result ≡ (spec.act_order_verdict act.now).0 }
{
    match act {
        Act::Send { messages, .. } => are_messages_in_order(messages.as_slice()),
        Act::CreateRule { filter, .. } => is_filter_in_order(filter),
        Act::Together { steps, .. } => are_steps_in_order(steps.as_slice()),
        _ => true,
    }
}

// ---- names and descriptions

fn are_rule_names(topic: &Name, subscription: &Name, name: &Name) -> bool
    ensures { result ≡ administration.are_rule_names topic.now subscription.now name.now }
{
    is_name(topic.as_str()) && is_short_name(subscription.as_str()) && is_rule_name(name.as_str())
}

fn are_in_addressed(entity: &Path, steps: &[Step]) -> bool
    ensures { result ≡ (names.is_address entity.now && together.are_addressed steps.now) }
{
    is_address(entity) && are_addressed(steps)
}

fn has_names(act: &Act) -> bool
    ensures { result ≡ judged.has_names act.now }
{
    match act {
        Act::CreateQueue { name, .. } | Act::CreateTopic { name, .. } => is_name(name.as_str()),
        Act::CreateSubscription { topic, name, .. } => {
            is_name(topic.as_str()) && is_short_name(name.as_str())
        }
        Act::CreateRule {
            topic,
            subscription,
            name,
            ..
        }
        | Act::DeleteRule {
            topic,
            subscription,
            name,
        } => are_rule_names(topic, subscription, name),
        Act::Delete { entity } | Act::Begin { entity } | Act::Counts { entity } => {
            is_address(entity)
        }
        Act::Send { to, .. } => is_address(to),
        Act::Cancel { from, .. }
        | Act::Receive { from, .. }
        | Act::ReceiveDeferred { from, .. }
        | Act::Settle { from, .. }
        | Act::Renew { from, .. }
        | Act::Accept { from, .. }
        | Act::SessionRenew { from, .. }
        | Act::SessionClose { from, .. }
        | Act::SessionSet { from, .. }
        | Act::SessionState { from, .. }
        | Act::Peek { from, .. } => is_address(from),
        Act::Together { entity, steps } => are_in_addressed(entity, steps.as_slice()),
        Act::Commit { .. } | Act::Rollback { .. } | Act::ForgetClient { .. } | Act::Look { .. } =>
            true,
    }
}

fn has_described(act: &Act) -> bool
    ensures { result ≡ is_none (judged.bad_described act.now) }
{
    match act {
        Act::CreateQueue { description, .. } => is_described(EntityKind::Queue, description),
        Act::CreateTopic { description, .. } => is_described(EntityKind::Topic, description),
        Act::CreateSubscription { description, .. } => {
            is_described(EntityKind::Subscription, description)
        }
        _ => true,
    }
}

fn is_short_id(which: &Which) -> bool
    ensures { result ≡ judged.is_short_id which.now }
{
    match which {
        Which::Number(_) => true,
        Which::Id(id) => is_id(id.as_str()),
    }
}

fn has_short_id(act: &Act) -> bool
    ensures { result ≡ judged.has_short_id act.now }
{
    match act {
        Act::Settle { which, .. } | Act::Renew { which, .. } => is_short_id(which),
        _ => true,
    }
}

// ---- sizes, and texts that are read

fn is_filter(alloc: Global, text: &Text) -> Result<bool, AllocError>
    ensures { IfOk result (λ b. b ≡ is_read (filter_in text.now)) }
{
    texts_are_read_exactly();
    match parse_filter(alloc, text.as_str()) {
        Ok(_) => Ok(true),
        Err(ParseFault::At(_)) => Ok(false),
        Err(ParseFault::OutOfMemory) => Err(AllocError),
    }
}

fn is_action(alloc: Global, text: &Text) -> Result<bool, AllocError>
    ensures { IfOk result (λ b. b ≡ is_read (action_in text.now)) }
{
    texts_are_read_exactly();
    match parse_action(alloc, text.as_str()) {
        Ok(_) => Ok(true),
        Err(ParseFault::At(_)) => Ok(false),
        Err(ParseFault::OutOfMemory) => Err(AllocError),
    }
}

fn asks_something(conditions: &Conditions) -> bool
    ensures { result ≡ is_read (administration.filter_of (Correlation conditions.now)) }
{
    !conditions.sys.is_empty() || !conditions.props.is_empty()
}

fn is_filter_read(alloc: Global, asked: &FilterText) -> Result<bool, AllocError>
    ensures { IfOk result (λ b. b ≡ is_read (administration.filter_of asked.now)) }
{
    match asked {
        FilterText::Sql(text) => is_filter(alloc, text),
        FilterText::Correlation(conditions) => Ok(asks_something(conditions)),
    }
}

fn is_action_read(alloc: Global, asked: &Option<Text>) -> Result<bool, AllocError>
    ensures { IfOk result (λ b. b ≡ is_read (administration.action_of asked.now)) }
{
    match asked {
        Some(text) => is_action(alloc, text),
        None => Ok(true),
    }
}

fn is_small_filter(asked: &FilterText) -> Result<bool, AllocError>
    ensures { IfOk result (λ b. b ≡ is_none (administration.large_filter asked.now)) }
{
    let size = conditions_size(asked)?;
    Ok(size <= MAX_PROPERTY_BYTES)
}

fn is_rule(alloc: Global, asked: &FilterText, action: &Option<Text>) -> Result<bool, AllocError>
    ensures { IfOk result (λ b. b ≡ (is_read (administration.filter_of asked.now) && is_read (administration.action_of action.now) && is_none (administration.large_filter asked.now))) }
{
    let is_filter = is_filter_read(alloc, asked)?;
    let is_action = is_action_read(alloc, action)?;
    let is_small = is_small_filter(asked)?;
    Ok(is_filter && is_action && is_small)
}

fn are_small(sent: &[Message]) -> Result<bool, AllocError>
    ensures { IfOk result (λ b. b ≡ is_none (messages.large_size sent.now)) }
{
    let size = large_size(sent)?;
    Ok(size.is_none())
}

fn is_small_state(state: &Option<Rows<u8>>) -> bool
    ensures { result ≡ nat_le (sessions.size_of state.now) sessions.max_state }
{
    match state {
        Some(bytes) => bytes.len() <= MAX_STATE,
        None => true,
    }
}

fn are_fitting(steps: &[Step]) -> Result<bool, AllocError>
    ensures { IfOk result (λ b. b ≡ (nat_le (sum_by together.step_weight steps.now) max_operations && is_none (together.large_steps steps.now))) }
{
    let size = large_steps(steps)?;
    Ok(are_few(steps) && size.is_none())
}

fn has_sizes(alloc: Global, act: &Act) -> Result<bool, AllocError>
    ensures { IfOk result (λ b. b ≡ judged.has_sizes act.now) }
{
    match act {
        Act::CreateRule { filter, action, .. } => is_rule(alloc, filter, action),
        Act::Send { messages, .. } => are_small(messages.as_slice()),
        Act::SessionSet { state, .. } => Ok(is_small_state(state)),
        Act::Together { steps, .. } => are_fitting(steps.as_slice()),
        _ => Ok(true),
    }
}
