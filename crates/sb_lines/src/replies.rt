// A reply as JSON.
ghost use Rattle.std.specs.Prelude.{◌≡◌, IfOk, OnOk, map, option_map};
ghost use Rattle.serde_json.specs.Data.{array, object, put as with_member, number, unsigned};
ghost use Rattle.serde_json.specs.View.{view, members_view, items_of};
ghost use Rattle.sb_machine.specs.declared.reply.Reply.TheVariants.{Aborted, Counts, Session, State};
ghost use Rattle.sb_lines.specs.declared.form.Form.TheVariants.{Plain};
ghost use Rattle.sb_lines.specs.Replies as replies;
ghost use Rattle.sb_lines.specs.Shown.{shown_data};

use crate::form::Form;
use crate::members::{
    Members, put_bytes, put_number, put_text, put_token, tag_alone, tag_with, tagged,
};
use crate::shown::shown_value;
use crate::views::{
    clients_value, description_value, entities_value, forwards_value, kind_name, rules_value,
    sessions_value, transactions_value,
};
use sb_machine::{CopyShown, Described, Part, Receipt, Reply, StepReply, Token, View};
use sb_model::{Rows, Text};
use serde_json::{Map, Value, put};
use std::alloc::{AllocError, Global};

fn said(alloc: Global, word: &str) -> Result<Value, AllocError>
    ensures { IfOk result (λ v. view v ≡ object (replies.said word.now)) }
{
    tag_alone(alloc, "ok", word)
}

fn said_with(alloc: Global, word: &str, key: &str, value: Value) -> Result<Value, AllocError>
    ensures { IfOk result (λ v. view v ≡ object (with_member key.now (view value) (replies.said word.now))) }
{
    tag_with(alloc, "ok", word, key, value)
}

fn receipt_value(receipt: Receipt) -> Value
    ensures { view result ≡ replies.receipt_data receipt }
{
    match receipt {
        Receipt::Number(n) => Value::from(n),
        Receipt::Duplicate => Value::Null,
    }
}

fn receipts_value(alloc: Global, receipts: &[Receipt]) -> Result<Value, AllocError>
    ensures { IfOk result (λ v. view v ≡ array (items_of (map replies.receipt_data receipts.now))) }
{
    let mut items = Vec::new(alloc);
    for receipt in receipts {
        items.push(receipt_value(*receipt))?;
    }
    Ok(Value::Array(items))
}

fn sent_value(alloc: Global, receipts: &[Receipt]) -> Result<Value, AllocError>
    ensures { IfOk result (λ v. view v ≡ replies.sent_data receipts.now) }
{
    let numbers = receipts_value(alloc, receipts)?;
    said_with(alloc, "sent", "numbers", numbers)
}

fn step_value(alloc: Global, reply: &StepReply) -> Result<Value, AllocError>
    ensures { IfOk result (λ v. view v ≡ replies.step_data reply.now) }
{
    match reply {
        StepReply::Done => said(alloc, "done"),
        StepReply::Sent(receipts) => sent_value(alloc, receipts.as_slice()),
    }
}

fn steps_value(alloc: Global, steps: &[StepReply]) -> Result<Value, AllocError>
    ensures { IfOk result (λ v. view v ≡ array (items_of (map replies.step_data steps.now))) }
{
    let mut items = Vec::new(alloc);
    for step in steps {
        let told = step_value(alloc, step)?;
        items.push(told)?;
    }
    Ok(Value::Array(items))
}

fn copies_value(alloc: Global, form: Form, copies: &[CopyShown]) -> Result<Value, AllocError>
    ensures { IfOk result (λ v. view v ≡ array (items_of (map (λ c. shown_data form c) copies.now))) }
{
    let mut items = Vec::new(alloc);
    for copy in copies {
        let shown = shown_value(alloc, form, copy)?;
        items.push(shown)?;
    }
    Ok(Value::Array(items))
}

fn session_value(alloc: Global, id: &Text, session: Token, until: u64) -> Result<Value, AllocError>
    ensures { IfOk result (λ v. view v ≡ replies.reply_data Plain (Session id.now session until)) }
{
    let mut members = tagged(alloc, "ok", "session")?;
    put_text(&mut members, alloc, "id", id.as_str())?;
    put_token(&mut members, alloc, "session", session)?;
    put_number(&mut members, alloc, "until", until)?;
    Ok(Value::Object(members))
}

fn put_state(
    members: &mut Members,
    alloc: Global,
    state: &Option<Rows<u8>>,
) -> Result<(), AllocError>
    ensures { OnOk result (members_view members.new.entries
        ≡ replies.with_state state.now (members_view members.old.entries)) }
{
    match state {
        None => put(members, alloc, "state", Value::Null),
        Some(bytes) => put_bytes(members, alloc, "state", "state_hex", bytes.as_slice()),
    }
}

fn state_value(alloc: Global, state: &Option<Rows<u8>>) -> Result<Value, AllocError>
    ensures { IfOk result (λ v. view v ≡ replies.reply_data Plain (State state.now)) }
{
    let mut members = tagged(alloc, "ok", "state")?;
    put_state(&mut members, alloc, state)?;
    Ok(Value::Object(members))
}

fn part_name(part: Part) -> &'static str
    ensures { result.now ≡ replies.part_name part }
{
    match part {
        Part::Main => "main",
        Part::Dead => "dead",
        Part::Transfer => "transfer",
    }
}

fn aborted_value(alloc: Global, part: Part, number: u64) -> Result<Value, AllocError>
    ensures { IfOk result (λ v. view v ≡ replies.reply_data Plain (Aborted part number)) }
{
    let mut members = tagged(alloc, "ok", "aborted")?;
    put_text(&mut members, alloc, "part", part_name(part))?;
    put_number(&mut members, alloc, "seq", number)?;
    Ok(Value::Object(members))
}

fn parts_value(alloc: Global, main: u64, dead: u64, transfer: u64) -> Result<Value, AllocError>
    ensures { IfOk result (λ v. view v ≡ replies.count_data main dead transfer) }
{
    let mut members = Map::new(alloc);
    put_number(&mut members, alloc, "dead", dead)?;
    put_number(&mut members, alloc, "main", main)?;
    put_number(&mut members, alloc, "transfer", transfer)?;
    Ok(Value::Object(members))
}

fn counts_value(alloc: Global, main: u64, dead: u64, transfer: u64) -> Result<Value, AllocError>
    ensures { IfOk result (λ v. view v ≡ replies.reply_data Plain (Counts main dead transfer)) }
{
    let parts = parts_value(alloc, main, dead, transfer)?;
    said_with(alloc, "counts", "counts", parts)
}

fn described_value(alloc: Global, described: &Described) -> Result<Value, AllocError>
    ensures { IfOk result (λ v. view v ≡ replies.described_data described.now) }
{
    let description = description_value(alloc, described.kind, &described.description)?;
    let forwards = forwards_value(alloc, described)?;
    let rules = rules_value(alloc, described.rules.as_slice())?;
    let mut members = tagged(alloc, "ok", "description")?;
    put(&mut members, alloc, "rules", rules)?;
    put_text(&mut members, alloc, "kind", kind_name(described.kind))?;
    put(&mut members, alloc, "forwards", forwards)?;
    put(&mut members, alloc, "description", description)?;
    Ok(Value::Object(members))
}

fn seen_value(alloc: Global, seen: &View) -> Result<Value, AllocError>
    ensures { IfOk result (λ v. view v ≡ replies.seen_data seen.now) }
{
    match seen {
        View::Entities(entities) => {
            let list = entities_value(alloc, entities.as_slice())?;
            said_with(alloc, "list", "entities", list)
        }
        View::Entity(described) => described_value(alloc, described),
        View::Sessions(sessions) => {
            let list = sessions_value(alloc, sessions.as_slice())?;
            said_with(alloc, "sessions", "sessions", list)
        }
        View::Transactions(transactions) => {
            let list = transactions_value(alloc, transactions.as_slice())?;
            said_with(alloc, "transactions", "transactions", list)
        }
        View::Clients(clients) => {
            let list = clients_value(alloc, clients.as_slice())?;
            said_with(alloc, "clients", "clients", list)
        }
    }
}

/// A reply as JSON with copies in this form, without the word that it is kept.
pub(crate) fn reply_value(alloc: Global, form: Form, reply: &Reply) -> Result<Value, AllocError>
    ensures { IfOk result (λ v. view v ≡ replies.reply_data form reply.now) }
{
    match reply {
        Reply::Done => said(alloc, "done"),
        Reply::Sent(receipts) => sent_value(alloc, receipts.as_slice()),
        Reply::Message(copy) => {
            let shown = shown_value(alloc, form, copy)?;
            said_with(alloc, "message", "message", shown)
        }
        Reply::Empty => said(alloc, "empty"),
        Reply::Copies(copies) => {
            let list = copies_value(alloc, form, copies.as_slice())?;
            said_with(alloc, "copies", "copies", list)
        }
        Reply::Expired { number } => said_with(alloc, "expired", "seq", Value::from(*number)),
        Reply::Session { id, session, until } => { session_value(alloc, id, *session, *until) }
        Reply::Renewed { until } => said_with(alloc, "renewed", "until", Value::from(*until)),
        Reply::State(state) => state_value(alloc, state),
        Reply::Begun { txn } => said_with(alloc, "begun", "txn", Value::from(*txn)),
        Reply::Queued => said(alloc, "queued"),
        Reply::Committed => said(alloc, "committed"),
        Reply::Aborted { part, number } => aborted_value(alloc, *part, *number),
        Reply::Together(steps) => {
            let told = steps_value(alloc, steps.as_slice())?;
            said_with(alloc, "together", "replies", told)
        }
        Reply::Counts {
            main,
            dead,
            transfer,
        } => counts_value(alloc, *main, *dead, *transfer),
        Reply::Seen(seen) => seen_value(alloc, seen),
    }
}
