// What an operator looks at, as JSON.
ghost use Rattle.std.specs.Prelude.{◌≡◌, ◌++◌, IfOk, OnOk, map, string_bytes};
ghost use Rattle.serde_json.specs.Data.{array, object, number, unsigned, put as with_member};
ghost use Rattle.serde_json.specs.View.{view, members_view, items_of};
ghost use Rattle.sb_lines.specs.Views as views;

use crate::members::{Members, put_number, put_text};
use crate::shown::{properties_value, texts_value};
use sb_machine::{
    ClientShown, Conditions, Described, Description, EntityKind, EntityShown, FilterText,
    PartShown, Path, RuleShown, SessionShown, TransactionShown,
};
use sb_model::Text;
use serde_json::{Map, Value, put};
use std::alloc::{AllocError, Global};

// ---- members

fn number_or_null(n: Option<u64>) -> Value
    ensures { view result ≡ views.number_or_null n }
{
    match n {
        None => Value::Null,
        Some(n) => Value::from(n),
    }
}

fn put_number_if(
    members: &mut Members,
    alloc: Global,
    key: &str,
    n: Option<u64>,
) -> Result<(), AllocError>
    ensures { OnOk result (members_view members.new.entries
        ≡ views.number_if key.now n (members_view members.old.entries)) }
{
    match n {
        None => Ok(()),
        Some(n) => put_number(members, alloc, key, n),
    }
}

fn put_text_if(
    members: &mut Members,
    alloc: Global,
    key: &str,
    text: &Option<Text>,
) -> Result<(), AllocError>
    ensures { OnOk result (members_view members.new.entries
        ≡ views.string_if key.now text.now (members_view members.old.entries)) }
{
    match text {
        None => Ok(()),
        Some(text) => put_text(members, alloc, key, text.as_str()),
    }
}

// ---- addresses

fn text_under(alloc: Global, name: &str, subscription: &Option<Text>) -> Result<String, AllocError>
    ensures { IfOk result (λ s. string_bytes s ≡ views.text_under name.now subscription.now) }
{
    let mut text = String::from_str(alloc, name)?;
    if let Some(subscription) = subscription {
        text.push_str("/subscriptions/")?;
        text.push_str(subscription.as_str())?;
    }
    Ok(text)
}

// The address of an entity, whatever part of it is meant.
fn entity_text(alloc: Global, path: &Path) -> Result<String, AllocError>
    ensures { IfOk result (λ s. string_bytes s ≡ views.entity_text path.now) }
{
    text_under(alloc, path.name.as_str(), &path.subscription)
}

fn entity_or_null(alloc: Global, entity: &Option<Path>) -> Result<Value, AllocError>
    ensures { IfOk result (λ v. view v ≡ views.entity_or_null entity.now) }
{
    match entity {
        None => Ok(Value::Null),
        Some(path) => {
            let text = entity_text(alloc, path)?;
            Ok(Value::String(text))
        }
    }
}

// ---- entities

pub(crate) fn kind_name(kind: EntityKind) -> &'static str
    ensures { result.now ≡ views.kind_name kind }
{
    match kind {
        EntityKind::Queue => "queue",
        EntityKind::Topic => "topic",
        EntityKind::Subscription => "subscription",
    }
}

fn part_value(alloc: Global, part: PartShown) -> Result<Value, AllocError>
    ensures { IfOk result (λ v. view v ≡ views.part_data part) }
{
    let mut members = Map::new(alloc);
    put_number(&mut members, alloc, "deferred", part.deferred)?;
    put_number(&mut members, alloc, "held", part.held)?;
    put(&mut members, alloc, "oldest", number_or_null(part.oldest))?;
    put_number(&mut members, alloc, "ready", part.ready)?;
    put_number(&mut members, alloc, "scheduled", part.scheduled)?;
    Ok(Value::Object(members))
}

fn part_members(alloc: Global, entity: &EntityShown) -> Result<Members, AllocError>
    ensures { IfOk result (λ m. members_view m.entries ≡ views.part_members entity.now) }
{
    let dead = part_value(alloc, entity.dead)?;
    let main = part_value(alloc, entity.main)?;
    let transfer = part_value(alloc, entity.transfer)?;
    let mut members = Map::new(alloc);
    put(&mut members, alloc, "dead", dead)?;
    put(&mut members, alloc, "main", main)?;
    put(&mut members, alloc, "transfer", transfer)?;
    Ok(members)
}

fn entity_value(alloc: Global, entity: &EntityShown) -> Result<Value, AllocError>
    ensures { IfOk result (λ v. view v ≡ views.entity_data entity.now) }
{
    let address = entity_text(alloc, &entity.path)?;
    let mut members = part_members(alloc, entity)?;
    put_number(&mut members, alloc, "sessions", entity.sessions)?;
    put_number(&mut members, alloc, "held_sessions", entity.held_sessions)?;
    put_text(&mut members, alloc, "kind", kind_name(entity.kind))?;
    put(&mut members, alloc, "address", Value::String(address))?;
    Ok(Value::Object(members))
}

pub(crate) fn entities_value(alloc: Global, entities: &[EntityShown]) -> Result<Value, AllocError>
    ensures { IfOk result (λ v. view v ≡ views.entities_data entities.now) }
{
    let mut items = Vec::new(alloc);
    for entity in entities {
        let shown = entity_value(alloc, entity)?;
        items.push(shown)?;
    }
    Ok(Value::Array(items))
}

// ---- the description of an entity

fn lease_members(alloc: Global, description: &Description) -> Result<Members, AllocError>
    ensures { IfOk result (λ m. members_view m.entries ≡ views.lease_members description.now) }
{
    let mut members = Map::new(alloc);
    let requires_session = Value::from(description.requires_session);
    put_number(&mut members, alloc, "lock", description.lock)?;
    put_number(
        &mut members,
        alloc,
        "max_delivery",
        description.max_delivery,
    )?;
    put(&mut members, alloc, "requires_session", requires_session)?;
    Ok(members)
}

fn put_forwards(
    members: &mut Members,
    alloc: Global,
    description: &Description,
) -> Result<(), AllocError>
    ensures { OnOk result (members_view members.new.entries
        ≡ views.with_forwards description.now (members_view members.old.entries)) }
{
    put_text_if(members, alloc, "forward_to", &description.forward_to)?;
    put_text_if(
        members,
        alloc,
        "forward_dead_to",
        &description.forward_dead_to,
    )
}

fn queue_members(alloc: Global, description: &Description) -> Result<Members, AllocError>
    ensures { IfOk result (λ m. members_view m.entries ≡ views.queue_members description.now) }
{
    let mut members = lease_members(alloc, description)?;
    let dead_on_expiry = Value::from(description.dead_on_expiry);
    put(&mut members, alloc, "dead_on_expiry", dead_on_expiry)?;
    put_forwards(&mut members, alloc, description)?;
    put_number_if(&mut members, alloc, "ttl", description.ttl)?;
    put_number_if(&mut members, alloc, "window", description.window)?;
    Ok(members)
}

fn topic_members(alloc: Global, description: &Description) -> Result<Members, AllocError>
    ensures { IfOk result (λ m. members_view m.entries ≡ views.topic_members description.now) }
{
    let mut members = Map::new(alloc);
    put_number_if(&mut members, alloc, "ttl", description.ttl)?;
    put_number_if(&mut members, alloc, "window", description.window)?;
    Ok(members)
}

fn subscription_members(alloc: Global, description: &Description) -> Result<Members, AllocError>
    ensures { IfOk result (λ m. members_view m.entries ≡ views.subscription_members description.now) }
{
    let mut members = lease_members(alloc, description)?;
    let dead_on_fault = Value::from(description.dead_on_fault);
    let dead_on_expiry = Value::from(description.dead_on_expiry);
    put(&mut members, alloc, "dead_on_fault", dead_on_fault)?;
    put(&mut members, alloc, "dead_on_expiry", dead_on_expiry)?;
    put_forwards(&mut members, alloc, description)?;
    put_number_if(&mut members, alloc, "ttl", description.ttl)?;
    Ok(members)
}

pub(crate) fn description_value(
    alloc: Global,
    kind: EntityKind,
    description: &Description,
) -> Result<Value, AllocError>
    ensures { IfOk result (λ v. view v ≡ views.description_data kind description.now) }
{
    match kind {
        EntityKind::Queue => Ok(Value::Object(queue_members(alloc, description)?)),
        EntityKind::Topic => Ok(Value::Object(topic_members(alloc, description)?)),
        EntityKind::Subscription => Ok(Value::Object(subscription_members(alloc, description)?)),
    }
}

fn forward_value(alloc: Global, field: &str, there: bool) -> Result<Value, AllocError>
    ensures { IfOk result (λ v. view v ≡ views.forward_data field.now there) }
{
    let mut members = Map::new(alloc);
    put_text(&mut members, alloc, "field", field)?;
    put(&mut members, alloc, "there", Value::from(there))?;
    Ok(Value::Object(members))
}

fn push_forward(
    items: &mut Vec<Value>,
    alloc: Global,
    field: &str,
    name: &Option<Text>,
    there: bool,
) -> Result<(), AllocError>
    ensures { OnOk result (map view items.new.items
        ≡ map view items.old.items ++ views.forward_if field.now name.now there) }
{
    match name {
        None => Ok(()),
        Some(_) => {
            let forward = forward_value(alloc, field, there)?;
            items.push(forward)?;
            Ok(())
        }
    }
}

pub(crate) fn forwards_value(alloc: Global, described: &Described) -> Result<Value, AllocError>
    ensures { IfOk result (λ v. view v ≡ views.forwards_data described.now) }
{
    let mut items = Vec::new(alloc);
    let description = &described.description;
    push_forward(
        &mut items,
        alloc,
        "forward_dead_to",
        &description.forward_dead_to,
        described.forward_dead_there,
    )?;
    push_forward(
        &mut items,
        alloc,
        "forward_to",
        &description.forward_to,
        described.forward_there,
    )?;
    Ok(Value::Array(items))
}

// ---- the rules of a subscription

fn conditions_value(alloc: Global, conditions: &Conditions) -> Result<Value, AllocError>
    ensures { IfOk result (λ v. view v ≡ views.conditions_data conditions.now) }
{
    let properties = properties_value(alloc, conditions.props.as_slice())?;
    let texts = texts_value(alloc, conditions.sys.as_slice())?;
    let mut members = Map::new(alloc);
    put(&mut members, alloc, "props", properties)?;
    put(&mut members, alloc, "sys", texts)?;
    Ok(Value::Object(members))
}

fn put_filter(members: &mut Members, alloc: Global, filter: &FilterText) -> Result<(), AllocError>
    ensures { OnOk result (members_view members.new.entries
        ≡ views.with_filter filter.now (members_view members.old.entries)) }
{
    match filter {
        FilterText::Sql(text) => put_text(members, alloc, "filter", text.as_str()),
        FilterText::Correlation(conditions) => {
            let value = conditions_value(alloc, conditions)?;
            put(members, alloc, "correlation", value)
        }
    }
}

fn rule_value(alloc: Global, rule: &RuleShown) -> Result<Value, AllocError>
    ensures { IfOk result (λ v. view v ≡ views.rule_data rule.now) }
{
    let mut members = Map::new(alloc);
    put_text(&mut members, alloc, "name", rule.name.as_str())?;
    put_filter(&mut members, alloc, &rule.filter)?;
    put_text_if(&mut members, alloc, "action", &rule.action)?;
    Ok(Value::Object(members))
}

pub(crate) fn rules_value(alloc: Global, rules: &[RuleShown]) -> Result<Value, AllocError>
    ensures { IfOk result (λ v. view v ≡ views.rules_data rules.now) }
{
    let mut items = Vec::new(alloc);
    for rule in rules {
        let shown = rule_value(alloc, rule)?;
        items.push(shown)?;
    }
    Ok(Value::Array(items))
}

// ---- sessions, transactions, clients

fn session_value(alloc: Global, session: &SessionShown) -> Result<Value, AllocError>
    ensures { IfOk result (λ v. view v ≡ views.session_data session.now) }
{
    let mut members = Map::new(alloc);
    put_text(&mut members, alloc, "id", session.id.as_str())?;
    put_number(&mut members, alloc, "ready", session.ready)?;
    put_number(&mut members, alloc, "state_bytes", session.state_bytes)?;
    put(&mut members, alloc, "until", number_or_null(session.until))?;
    Ok(Value::Object(members))
}

pub(crate) fn sessions_value(alloc: Global, sessions: &[SessionShown]) -> Result<Value, AllocError>
    ensures { IfOk result (λ v. view v ≡ views.sessions_data sessions.now) }
{
    let mut items = Vec::new(alloc);
    for session in sessions {
        let shown = session_value(alloc, session)?;
        items.push(shown)?;
    }
    Ok(Value::Array(items))
}

fn transaction_value(alloc: Global, transaction: &TransactionShown) -> Result<Value, AllocError>
    ensures { IfOk result (λ v. view v ≡ views.transaction_data transaction.now) }
{
    let entity = entity_or_null(alloc, &transaction.entity)?;
    let mut members = Map::new(alloc);
    put_number(&mut members, alloc, "deadline", transaction.deadline)?;
    put(&mut members, alloc, "entity", entity)?;
    put_number(&mut members, alloc, "operations", transaction.operations)?;
    put_number(&mut members, alloc, "txn", transaction.number)?;
    Ok(Value::Object(members))
}

pub(crate) fn transactions_value(
    alloc: Global,
    transactions: &[TransactionShown],
) -> Result<Value, AllocError>
    ensures { IfOk result (λ v. view v ≡ views.transactions_data transactions.now) }
{
    let mut items = Vec::new(alloc);
    for transaction in transactions {
        let shown = transaction_value(alloc, transaction)?;
        items.push(shown)?;
    }
    Ok(Value::Array(items))
}

fn client_value(alloc: Global, client: &ClientShown) -> Result<Value, AllocError>
    ensures { IfOk result (λ v. view v ≡ views.client_data client.now) }
{
    let mut members = Map::new(alloc);
    put_text(&mut members, alloc, "client", client.client.as_str())?;
    put_number(&mut members, alloc, "number", client.number)?;
    Ok(Value::Object(members))
}

pub(crate) fn clients_value(alloc: Global, clients: &[ClientShown]) -> Result<Value, AllocError>
    ensures { IfOk result (λ v. view v ≡ views.clients_data clients.now) }
{
    let mut items = Vec::new(alloc);
    for client in clients {
        let shown = client_value(alloc, client)?;
        items.push(shown)?;
    }
    Ok(Value::Array(items))
}
