// The first field of a call that is outside its range.
ghost use Rattle.std.specs.Prelude.{◌≡◌, ℕ, ◌∷◌, ◌&&◌, ◌||◌, not, length, bytes_eq, codes, is_none, is_some, option_map, position};
ghost use Rattle.std.specs.List.{list_all, list_any};
ghost use Rattle.std.specs.Str.{chars};
ghost use Rattle.sb_machine.specs.Fields as fields;
ghost use Rattle.sb_machine.specs.declared.call.Act.TheVariants.{Together};
ghost use Rattle.sb_machine.specs.declared.look.Look.TheVariants as look;
ghost use Rattle.sb_model.specs.Effects as effects;

use crate::address::{is_address, is_main};
use crate::limits::{
    MAX_ID, MAX_LISTED, MAX_MESSAGES, MAX_NAME, MAX_NUMBER, MAX_PEEKED, MAX_REASON, MAX_STEPS,
    MAX_TTL, MAX_USER_PROPERTIES,
};
use crate::name::are_name_bytes;
use crate::ranges::{
    characters, is_between, is_between_or_none, is_client_name, is_id, is_length_between,
    is_number, is_short,
};
use sb_machine::{Act, By, FilterText, How, Look, Path, Step, Which};
use sb_model::{Message, Name, Property, SystemName, SystemText, Text};

// The key where the test fails.
fn unless(passes: bool, key: &'static str) -> Option<&'static str>
    ensures { option_map (λ k. k.now) result ≡ fields.unless passes key.now }
{
    if passes { None } else { Some(key) }
}

// ---- messages

fn text_limit(name: SystemName) -> Option<usize>
    ensures { result ≡ effects.text_limit name }
{
    match name {
        SystemName::MessageId | SystemName::SessionId | SystemName::ReplyToSessionId => {
            Some(MAX_ID)
        }
        SystemName::Label
        | SystemName::CorrelationId
        | SystemName::To
        | SystemName::ReplyTo
        | SystemName::ContentType => None,
    }
}

fn is_within(limit: Option<usize>, count: usize) -> bool
    ensures { result ≡ effects.is_within limit count }
{
    match limit {
        Some(limit) => count <= limit,
        None => true,
    }
}

fn is_good_text(own: &SystemText) -> bool
    ensures { result ≡ effects.is_within (effects.text_limit own.now.name) (length (chars own.now.text)) }
{
    is_within(text_limit(own.name), characters(own.text.as_str()))
}

/// The name of the first system text that is longer than it may be.
pub fn bad_in_texts(sys: &[SystemText]) -> Option<&'static str>
    ensures { option_map (λ k. k.now) result ≡ fields.bad_in_texts sys.now }
{
    for own in sys {
        if !is_good_text(own) {
            return Some(own.name.name());
        }
    }
    None
}

fn is_capital(b: u8) -> bool
    ensures { result ≡ fields.is_capital b }
{
    65 <= b && b <= 90
}

fn has_capital(name: &[u8]) -> bool
    ensures { result ≡ list_any fields.is_capital name.now }
{
    name.iter().any(|b| is_capital(*b))
}

fn is_property_name(name: &[u8]) -> bool
    ensures { result ≡ fields.is_property_name name.now }
{
    is_length_between(1, 128, name.len()) && !has_capital(name)
}

fn are_property_names(props: &[Property]) -> bool
    ensures { result ≡ list_all (λ p. fields.is_property_name p.name) props.now }
{
    props.iter().all(|p| is_property_name(p.name.as_bytes()))
}

fn are_properties(props: &[Property]) -> bool
    ensures { result ≡ fields.are_properties props.now }
{
    are_property_names(props) && props.len() <= MAX_USER_PROPERTIES
}

fn bad_in_conditions(sys: &[SystemText], props: &[Property]) -> Option<&'static str>
    ensures { option_map (λ k. k.now) result ≡ fields.bad_in_conditions sys.now props.now }
{
    let bad = bad_in_texts(sys);
    if bad.is_some() {
        return bad;
    }
    unless(are_properties(props), "props")
}

fn may_be_scheduled(is_via: bool, schedule: Option<u64>) -> bool
    ensures { result ≡ (not is_via || is_none schedule) }
{
    !is_via || schedule.is_none()
}

fn bad_in_message(is_via: bool, message: &Message) -> Option<&'static str>
    ensures { option_map (λ k. k.now) result ≡ fields.bad_in_message is_via message.now }
{
    let bad = bad_in_conditions(message.sys.as_slice(), message.props.as_slice());
    if bad.is_some() {
        return bad;
    }
    if !is_between_or_none(1, MAX_TTL, message.ttl) {
        return Some("ttl");
    }
    unless(may_be_scheduled(is_via, message.schedule), "schedule")
}

/// The first bad field of messages, in their order. `is_via` where they are sent, in a transaction, to
/// another entity than the transaction's.
pub fn bad_in_messages(is_via: bool, messages: &[Message]) -> Option<&'static str>
    ensures { option_map (λ k. k.now) result ≡ fields.bad_in_messages is_via messages.now }
{
    for message in messages {
        let bad = bad_in_message(is_via, message);
        if bad.is_some() {
            return bad;
        }
    }
    None
}

fn bad_in_send(is_via: bool, messages: &[Message], txn: Option<u64>) -> Option<&'static str>
    ensures { option_map (λ k. k.now) result ≡ fields.bad_in_send is_via messages.now txn }
{
    if messages.len() > MAX_MESSAGES {
        return Some("messages");
    }
    let bad = bad_in_messages(is_via, messages);
    if bad.is_some() {
        return bad;
    }
    unless(is_between_or_none(1, MAX_NUMBER, txn), "txn")
}

// ---- other acts

fn bad_in_filter(asked: &FilterText) -> Option<&'static str>
    ensures { option_map (λ k. k.now) result ≡ fields.bad_in_filter asked.now }
{
    match asked {
        FilterText::Sql(_) => None,
        FilterText::Correlation(conditions) => {
            bad_in_conditions(conditions.sys.as_slice(), conditions.props.as_slice())
        }
    }
}

fn bad_in_which(which: &Which) -> Option<&'static str>
    ensures { option_map (λ k. k.now) result ≡ fields.bad_in_which which.now }
{
    match which {
        Which::Number(number) => unless(is_number(*number), "seq"),
        Which::Id(_) => None,
    }
}

/// The first field of a settlement's manner that is out of its range: `reason`, then `description`.
pub fn bad_in_how(how: &How) -> Option<&'static str>
    ensures { option_map (λ k. k.now) result ≡ fields.bad_in_how how.now }
{
    match how {
        How::Complete | How::Abandon | How::Defer => None,
        How::DeadLetter {
            reason,
            description,
        } => {
            if !is_short(MAX_REASON, reason) {
                return Some("reason");
            }
            unless(is_short(MAX_REASON, description), "description")
        }
    }
}

fn bad_in_settle(which: &Which, txn: Option<u64>, how: &How) -> Option<&'static str>
    ensures { option_map (λ k. k.now) result ≡ fields.first_some (fields.bad_in_which which.now) (fields.first_some (fields.unless (fields.is_between_or_none 1 9223372036854775807 txn) (codes "txn")) (fields.bad_in_how how.now)) }
{
    let bad = bad_in_which(which);
    if bad.is_some() {
        return bad;
    }
    if !is_between_or_none(1, MAX_NUMBER, txn) {
        return Some("txn");
    }
    bad_in_how(how)
}

fn bad_in_entity(path: &Path) -> Option<&'static str>
    ensures { option_map (λ k. k.now) result ≡ fields.bad_in_entity path.now }
{
    unless(is_main(path.part), "entity")
}

fn bad_in_peek(start: u64, count: u64) -> Option<&'static str>
    ensures { option_map (λ k. k.now) result ≡ fields.first_some (fields.unless (fields.is_number start) (codes "start")) (fields.unless (fields.is_between 1 fields.max_peeked count) (codes "count")) }
{
    if !is_number(start) {
        return Some("start");
    }
    unless(is_between(1, MAX_PEEKED, count), "count")
}

// ---- looks

fn is_front(prefix: &Option<Name>) -> bool
    ensures { result ≡ fields.is_front prefix.now }
{
    match prefix {
        Some(front) => front.as_bytes().len() <= MAX_NAME && are_name_bytes(front.as_bytes()),
        None => true,
    }
}

fn is_entity_or_none(after: &Option<Path>) -> bool
    ensures { result ≡ fields.is_entity_or_none after.now }
{
    match after {
        Some(path) => is_address(path) && is_main(path.part),
        None => true,
    }
}

fn bad_in_list(prefix: &Option<Name>, after: &Option<Path>, count: u64) -> Option<&'static str>
    ensures { option_map (λ k. k.now) result ≡ fields.bad_in_look (look.Entities prefix.now after.now count) }
{
    if !is_front(prefix) {
        return Some("prefix");
    }
    if !is_entity_or_none(after) {
        return Some("after");
    }
    unless(is_between(1, MAX_LISTED, count), "count")
}

fn bad_in_sessions(path: &Path, after: &Option<Text>, count: u64) -> Option<&'static str>
    ensures { option_map (λ k. k.now) result ≡ fields.bad_in_look (look.Sessions path.now after.now count) }
{
    let bad = bad_in_entity(path);
    if bad.is_some() {
        return bad;
    }
    if !is_short(MAX_ID, after) {
        return Some("after");
    }
    unless(is_between(1, MAX_LISTED, count), "count")
}

fn is_client_or_none(after: &Option<Text>) -> bool
    ensures { result ≡ fields.is_client_or_none after.now }
{
    match after {
        Some(name) => is_client_name(name.as_str()),
        None => true,
    }
}

fn bad_in_clients(after: &Option<Text>, count: u64) -> Option<&'static str>
    ensures { option_map (λ k. k.now) result ≡ fields.bad_in_look (look.Clients after.now count) }
{
    if !is_client_or_none(after) {
        return Some("after");
    }
    unless(is_between(1, MAX_LISTED, count), "count")
}

fn bad_in_look(what: &Look) -> Option<&'static str>
    ensures { option_map (λ k. k.now) result ≡ fields.bad_in_look what.now }
{
    match what {
        Look::Entities {
            prefix,
            after,
            count,
        } => bad_in_list(prefix, after, *count),
        Look::Entity { path } => bad_in_entity(path),
        Look::Sessions { path, after, count } => bad_in_sessions(path, after, *count),
        Look::Transactions => None,
        Look::Clients { after, count } => bad_in_clients(after, *count),
    }
}

// ---- operations that act together

fn sets_session(lock: u64, step: &Step) -> bool
    ensures { result ≡ fields.sets_session lock step.now }
{
    match step {
        Step::SessionSet { session, .. } => session.lock == lock,
        Step::Send { .. } | Step::Settle { .. } => false,
    }
}

fn set_session(lock: u64, steps: &[Step]) -> bool
    ensures { result ≡ list_any (fields.sets_session lock) steps.now }
{
    steps.iter().any(|step| sets_session(lock, step))
}

// Whether one of those behind an operation sets the session again that it sets.
fn is_set_again(step: &Step, behind: &[Step]) -> bool
    ensures { fields.are_set_once (step.now ∷ behind.now) ≡ (not result && fields.are_set_once behind.now) }
{
    match step {
        Step::SessionSet { session, .. } => set_session(session.lock, behind),
        Step::Send { .. } | Step::Settle { .. } => false,
    }
}

fn are_set_once(steps: &[Step]) -> bool
    ensures { result ≡ fields.are_set_once steps.now }
{
    let mut left = steps;
    'steps: while let [step, behind @ ..] = left {
        if is_set_again(step, behind) {
            return false;
        }
        left = behind;
    }
    true
}

fn are_operations(steps: &[Step]) -> bool
    ensures { result ≡ (fields.is_between 1 fields.max_steps (length steps.now) && fields.are_set_once steps.now) }
{
    is_length_between(1, MAX_STEPS, steps.len()) && are_set_once(steps)
}

fn bad_in_id(which: &Which) -> Option<&'static str>
    ensures { option_map (λ k. k.now) result ≡ fields.bad_in_id which.now }
{
    match which {
        Which::Number(_) => None,
        Which::Id(id) => unless(is_id(id.as_str()), "id"),
    }
}

fn bad_in_settled(which: &Which, how: &How) -> Option<&'static str>
    ensures { option_map (λ k. k.now) result ≡ fields.first_some (fields.bad_in_which which.now) (fields.first_some (fields.bad_in_id which.now) (fields.bad_in_how how.now)) }
{
    let bad = bad_in_which(which);
    if bad.is_some() {
        return bad;
    }
    let bad = bad_in_id(which);
    if bad.is_some() {
        return bad;
    }
    bad_in_how(how)
}

fn bad_in_step(step: &Step) -> Option<&'static str>
    ensures { option_map (λ k. k.now) result ≡ fields.bad_in_step step.now }
{
    match step {
        Step::Send { messages, .. } => bad_in_send(false, messages.as_slice(), None),
        Step::Settle { which, how, .. } => bad_in_settled(which, how),
        Step::SessionSet { .. } => None,
    }
}

fn bad_in_steps(steps: &[Step]) -> Option<&'static str>
    ensures { option_map (λ k. k.now) result ≡ fields.bad_in_steps steps.now }
{
    for step in steps {
        let bad = bad_in_step(step);
        if bad.is_some() {
            return bad;
        }
    }
    None
}

fn bad_in_whole(entity: &Path, steps: &[Step]) -> Option<&'static str>
    ensures { option_map (λ k. k.now) result ≡ fields.bad_in_whole entity.now steps.now }
{
    let bad = bad_in_entity(entity);
    if bad.is_some() {
        return bad;
    }
    unless(are_operations(steps), "operations")
}

fn bad_in_together(entity: &Path, steps: &[Step]) -> Option<&'static str>
    ensures { option_map (λ k. k.now) result ≡ fields.bad_in_together entity.now steps.now }
{
    let bad = bad_in_whole(entity, steps);
    if bad.is_some() {
        return bad;
    }
    bad_in_steps(steps)
}

fn place_of_bad(steps: &[Step]) -> Option<usize>
    ensures { result ≡ position (λ x. is_some (fields.bad_in_step x)) steps.now }
{
    steps.iter().position(|step| bad_in_step(step).is_some())
}

fn bad_part_of(entity: &Path, steps: &[Step]) -> Option<usize>
    ensures { result ≡ fields.bad_part (Together entity.now steps.now) }
{
    if bad_in_whole(entity, steps).is_some() {
        return None;
    }
    place_of_bad(steps)
}

/// Where the operation stands, from 0, that has the first bad field of what acts together; none where it is a field of
/// the whole, no field is bad, or the act is another.
pub fn bad_part(act: &Act) -> Option<usize>
    ensures { result ≡ fields.bad_part act.now }
{
    match act {
        Act::Together { entity, steps } => bad_part_of(entity, steps.as_slice()),
        _ => None,
    }
}

// ---- all acts

fn bad_in_act(is_via: bool, act: &Act) -> Option<&'static str>
    ensures { option_map (λ k. k.now) result ≡ fields.bad_in_act is_via act.now }
{
    match act {
        Act::CreateRule { filter, .. } => bad_in_filter(filter),
        Act::Delete { entity } | Act::Counts { entity } | Act::Begin { entity } => {
            bad_in_entity(entity)
        }
        Act::Send { messages, txn, .. } => bad_in_send(is_via, messages.as_slice(), *txn),
        Act::Cancel { number, .. } | Act::ReceiveDeferred { number, .. } => {
            unless(is_number(*number), "seq")
        }
        Act::Settle {
            which,
            how,
            txn,
            ..
        } => bad_in_settle(which, *txn, how),
        Act::Renew { which, .. } => bad_in_which(which),
        Act::Accept { id, .. } => unless(is_short(MAX_ID, id), "id"),
        Act::Commit { txn } | Act::Rollback { txn } => unless(is_number(*txn), "txn"),
        Act::Peek { start, count, .. } => bad_in_peek(*start, *count),
        Act::Look { what } => bad_in_look(what),
        Act::Together { entity, steps } => bad_in_together(entity, steps.as_slice()),
        Act::ForgetClient { client } => unless(is_client_name(client.as_str()), "name"),
        Act::CreateQueue { .. }
        | Act::CreateTopic { .. }
        | Act::CreateSubscription { .. }
        | Act::DeleteRule { .. }
        | Act::Receive { .. }
        | Act::SessionRenew { .. }
        | Act::SessionClose { .. }
        | Act::SessionSet { .. }
        | Act::SessionState { .. } => None,
    }
}

// ---- who asks

/// Whether an act takes a client's number: those that only look take none.
pub fn takes_number(act: &Act) -> bool
    ensures { result ≡ fields.takes_number act.now }
{
    match act {
        Act::Peek { .. } | Act::SessionState { .. } | Act::Counts { .. } | Act::Look { .. } =>
            false,
        Act::CreateQueue { .. }
        | Act::CreateTopic { .. }
        | Act::CreateSubscription { .. }
        | Act::CreateRule { .. }
        | Act::Delete { .. }
        | Act::DeleteRule { .. }
        | Act::Send { .. }
        | Act::Cancel { .. }
        | Act::Receive { .. }
        | Act::ReceiveDeferred { .. }
        | Act::Settle { .. }
        | Act::Renew { .. }
        | Act::Accept { .. }
        | Act::SessionRenew { .. }
        | Act::SessionClose { .. }
        | Act::SessionSet { .. }
        | Act::Begin { .. }
        | Act::Commit { .. }
        | Act::Rollback { .. }
        | Act::Together { .. }
        | Act::ForgetClient { .. } => true,
    }
}

fn is_same_client(client: &Text, other: &Text) -> bool
    ensures { result ≡ bytes_eq client.now other.now }
{
    client.as_bytes() == other.as_bytes()
}

/// Whether a call of this client, of any number, would forget the client itself.
pub fn forgets_itself(act: &Act, client: &Text) -> bool
    ensures { (number : ℕ) → result ≡ fields.forgets_itself act.now (record { client = client.now; number = number }) }
{
    match act {
        Act::ForgetClient { client: name } => is_same_client(name, client),
        _ => false,
    }
}

fn forgets_asker(act: &Act, by: &By) -> bool
    ensures { result ≡ fields.forgets_itself act.now by.now }
{
    forgets_itself(act, &by.client)
}

fn is_client(act: &Act, client: &Text) -> bool
    ensures { result ≡ (fields.takes_number act.now && fields.is_client_name client.now) }
{
    takes_number(act) && is_client_name(client.as_str())
}

fn bad_in_by(act: &Act, by: &Option<By>) -> Option<&'static str>
    ensures { option_map (λ k. k.now) result ≡ fields.bad_in_by act.now by.now }
{
    match by {
        Some(by) => {
            if forgets_asker(act, by) {
                return Some("name");
            }
            if !is_client(act, &by.client) {
                return Some("client");
            }
            unless(is_number(by.number), "number")
        }
        None => None,
    }
}

/// The key of the first field at fault, the client's last. `is_via` where the act sends, in a
/// transaction, to another entity than the transaction's.
pub fn bad_field(is_via: bool, act: &Act, by: &Option<By>) -> Option<&'static str>
    ensures { option_map (λ k. k.now) result ≡ fields.bad_field is_via act.now by.now }
{
    let bad = bad_in_act(is_via, act);
    if bad.is_some() {
        return bad;
    }
    bad_in_by(act, by)
}
