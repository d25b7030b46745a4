// Whether two acts are equal, in all their fields: one test for each kind of act.
ghost use Rattle.std.specs.Prelude.{◌≡◌, ◌==◌, ◌&&◌};
ghost use Rattle.sb_machine.specs.Same.{same_act};
ghost use Rattle.sb_machine.specs.declared.call.Act.TheVariants.{CreateQueue, CreateTopic, CreateSubscription, CreateRule, Delete, DeleteRule, Send, Cancel, Receive, ReceiveDeferred, Settle, Renew, Accept, SessionRenew, SessionClose, SessionSet, SessionState, Begin, Commit, Rollback, Together, ForgetClient, Peek, Counts, Look as LooksAt};

use crate::same::{
    are_same_messages, is_same_bytes_option, is_same_description, is_same_filter, is_same_how,
    is_same_look, is_same_mode, is_same_number_option, is_same_path, is_same_text,
    is_same_text_option, is_same_token, is_same_token_option, is_same_which,
};
use crate::same_step::are_same_steps;
use sb_machine::{Act, Description, FilterText, How, Look, Mode, Path, Step, Token, Which};
use sb_model::{Message, Rows, Text};

/// Whether these acts are equal in all their fields, so that one repeats the other.
pub fn is_same_act(a: &Act, b: &Act) -> bool
    ensures { result ≡ same_act a.now b.now }
{
    match a {
        Act::CreateQueue { name, description } => is_create_queue(b, name, description),
        Act::CreateTopic { name, description } => is_create_topic(b, name, description),
        Act::CreateSubscription {
            topic,
            name,
            description,
        } => is_create_subscription(b, topic, name, description),
        Act::CreateRule {
            topic,
            subscription,
            name,
            filter,
            action,
        } => is_create_rule(b, topic, subscription, name, filter, action),
        Act::Delete { entity } => is_delete(b, entity),
        Act::DeleteRule {
            topic,
            subscription,
            name,
        } => is_delete_rule(b, topic, subscription, name),
        Act::Send { to, messages, txn } => is_send(b, to, messages, *txn),
        Act::Cancel { from, number } => is_cancel(b, from, *number),
        Act::Receive {
            from,
            mode,
            session,
        } => is_receive(b, from, *mode, *session),
        Act::ReceiveDeferred {
            from,
            number,
            mode,
            session,
        } => is_receive_deferred(b, from, *number, *mode, *session),
        Act::Settle {
            from,
            which,
            token,
            session,
            how,
            txn,
        } => is_settle(b, from, which, *token, *session, how, *txn),
        Act::Renew { from, which, token } => is_renew(b, from, which, *token),
        Act::Accept { from, id } => is_accept(b, from, id),
        Act::SessionRenew { from, session } => is_session_renew(b, from, *session),
        Act::SessionClose { from, session } => is_session_close(b, from, *session),
        Act::SessionSet {
            from,
            session,
            state,
        } => is_session_set(b, from, *session, state),
        Act::SessionState { from, session } => is_session_state(b, from, *session),
        Act::Begin { entity } => is_begin(b, entity),
        Act::Commit { txn } => is_commit(b, *txn),
        Act::Rollback { txn } => is_rollback(b, *txn),
        Act::Together { entity, steps } => is_together(b, entity, steps),
        Act::ForgetClient { client } => is_forget_client(b, client),
        Act::Peek { from, start, count } => is_peek(b, from, *start, *count),
        Act::Counts { entity } => is_counts(b, entity),
        Act::Look { what } => is_look(b, what),
    }
}

fn is_create_queue(other: &Act, name: &Text, description: &Description) -> bool
    ensures { result ≡ same_act (CreateQueue name.now description.now) other.now }
{
    match other {
        Act::CreateQueue {
            name: own_name,
            description: own_description,
        } => is_same_text(name, own_name) && is_same_description(description, own_description),
        _ => false,
    }
}

fn is_create_topic(other: &Act, name: &Text, description: &Description) -> bool
    ensures { result ≡ same_act (CreateTopic name.now description.now) other.now }
{
    match other {
        Act::CreateTopic {
            name: own_name,
            description: own_description,
        } => is_same_text(name, own_name) && is_same_description(description, own_description),
        _ => false,
    }
}

fn is_create_subscription(other: &Act, topic: &Text, name: &Text, description: &Description) -> bool
    ensures { result ≡ same_act (CreateSubscription topic.now name.now description.now) other.now }
{
    match other {
        Act::CreateSubscription {
            topic: own_topic,
            name: own_name,
            description: own_description,
        } => is_same_text(topic, own_topic)
            && is_same_text(name, own_name)
            && is_same_description(description, own_description),
        _ => false,
    }
}

fn is_create_rule(
    other: &Act,
    topic: &Text,
    subscription: &Text,
    name: &Text,
    filter: &FilterText,
    action: &Option<Text>,
) -> bool
    ensures { result ≡ same_act (CreateRule topic.now subscription.now name.now filter.now action.now) other.now }
{
    match other {
        Act::CreateRule {
            topic: own_topic,
            subscription: own_subscription,
            name: own_name,
            filter: own_filter,
            action: own_action,
        } => is_same_text(topic, own_topic)
            && is_same_text(subscription, own_subscription)
            && is_same_text(name, own_name)
            && is_same_filter(filter, own_filter)
            && is_same_text_option(action, own_action),
        _ => false,
    }
}

fn is_delete(other: &Act, entity: &Path) -> bool
    ensures { result ≡ same_act (Delete entity.now) other.now }
{
    match other {
        Act::Delete { entity: own_entity } => is_same_path(entity, own_entity),
        _ => false,
    }
}

fn is_delete_rule(other: &Act, topic: &Text, subscription: &Text, name: &Text) -> bool
    ensures { result ≡ same_act (DeleteRule topic.now subscription.now name.now) other.now }
{
    match other {
        Act::DeleteRule {
            topic: own_topic,
            subscription: own_subscription,
            name: own_name,
        } => is_same_text(topic, own_topic)
            && is_same_text(subscription, own_subscription)
            && is_same_text(name, own_name),
        _ => false,
    }
}

fn is_send(other: &Act, to: &Path, messages: &Rows<Message>, txn: Option<u64>) -> bool
    ensures { result ≡ same_act (Send to.now messages.now txn) other.now }
{
    match other {
        Act::Send {
            to: own_to,
            messages: own_messages,
            txn: own_txn,
        } => is_same_path(to, own_to)
            && are_same_messages(messages, own_messages)
            && is_same_number_option(txn, *own_txn),
        _ => false,
    }
}

fn is_cancel(other: &Act, from: &Path, number: u64) -> bool
    ensures { result ≡ same_act (Cancel from.now number) other.now }
{
    match other {
        Act::Cancel {
            from: own_from,
            number: own_number,
        } => is_same_path(from, own_from) && number == *own_number,
        _ => false,
    }
}

fn is_receive(other: &Act, from: &Path, mode: Mode, session: Option<Token>) -> bool
    ensures { result ≡ same_act (Receive from.now mode session) other.now }
{
    match other {
        Act::Receive {
            from: own_from,
            mode: own_mode,
            session: own_session,
        } => is_same_path(from, own_from)
            && is_same_mode(mode, *own_mode)
            && is_same_token_option(session, *own_session),
        _ => false,
    }
}

fn is_receive_deferred(
    other: &Act,
    from: &Path,
    number: u64,
    mode: Mode,
    session: Option<Token>,
) -> bool
    ensures { result ≡ same_act (ReceiveDeferred from.now number mode session) other.now }
{
    match other {
        Act::ReceiveDeferred {
            from: own_from,
            number: own_number,
            mode: own_mode,
            session: own_session,
        } => is_same_path(from, own_from)
            && number == *own_number
            && is_same_mode(mode, *own_mode)
            && is_same_token_option(session, *own_session),
        _ => false,
    }
}

fn is_settle(
    other: &Act,
    from: &Path,
    which: &Which,
    token: Token,
    session: Option<Token>,
    how: &How,
    txn: Option<u64>,
) -> bool
    ensures { result ≡ same_act (Settle from.now which.now token session how.now txn) other.now }
{
    match other {
        Act::Settle {
            from: own_from,
            which: own_which,
            token: own_token,
            session: own_session,
            how: own_how,
            txn: own_txn,
        } => is_same_path(from, own_from)
            && is_same_which(which, own_which)
            && is_same_token(token, *own_token)
            && is_same_token_option(session, *own_session)
            && is_same_how(how, own_how)
            && is_same_number_option(txn, *own_txn),
        _ => false,
    }
}

fn is_renew(other: &Act, from: &Path, which: &Which, token: Token) -> bool
    ensures { result ≡ same_act (Renew from.now which.now token) other.now }
{
    match other {
        Act::Renew {
            from: own_from,
            which: own_which,
            token: own_token,
        } => is_same_path(from, own_from)
            && is_same_which(which, own_which)
            && is_same_token(token, *own_token),
        _ => false,
    }
}

fn is_accept(other: &Act, from: &Path, id: &Option<Text>) -> bool
    ensures { result ≡ same_act (Accept from.now id.now) other.now }
{
    match other {
        Act::Accept {
            from: own_from,
            id: own_id,
        } => is_same_path(from, own_from) && is_same_text_option(id, own_id),
        _ => false,
    }
}

fn is_session_renew(other: &Act, from: &Path, session: Token) -> bool
    ensures { result ≡ same_act (SessionRenew from.now session) other.now }
{
    match other {
        Act::SessionRenew {
            from: own_from,
            session: own_session,
        } => is_same_path(from, own_from) && is_same_token(session, *own_session),
        _ => false,
    }
}

fn is_session_close(other: &Act, from: &Path, session: Token) -> bool
    ensures { result ≡ same_act (SessionClose from.now session) other.now }
{
    match other {
        Act::SessionClose {
            from: own_from,
            session: own_session,
        } => is_same_path(from, own_from) && is_same_token(session, *own_session),
        _ => false,
    }
}

fn is_session_set(other: &Act, from: &Path, session: Token, state: &Option<Rows<u8>>) -> bool
    ensures { result ≡ same_act (SessionSet from.now session state.now) other.now }
{
    match other {
        Act::SessionSet {
            from: own_from,
            session: own_session,
            state: own_state,
        } => is_same_path(from, own_from)
            && is_same_token(session, *own_session)
            && is_same_bytes_option(state, own_state),
        _ => false,
    }
}

fn is_session_state(other: &Act, from: &Path, session: Token) -> bool
    ensures { result ≡ same_act (SessionState from.now session) other.now }
{
    match other {
        Act::SessionState {
            from: own_from,
            session: own_session,
        } => is_same_path(from, own_from) && is_same_token(session, *own_session),
        _ => false,
    }
}

fn is_begin(other: &Act, entity: &Path) -> bool
    ensures { result ≡ same_act (Begin entity.now) other.now }
{
    match other {
        Act::Begin { entity: own_entity } => is_same_path(entity, own_entity),
        _ => false,
    }
}

fn is_commit(other: &Act, txn: u64) -> bool
    ensures { result ≡ same_act (Commit txn) other.now }
{
    match other {
        Act::Commit { txn: own_txn } => txn == *own_txn,
        _ => false,
    }
}

fn is_rollback(other: &Act, txn: u64) -> bool
    ensures { result ≡ same_act (Rollback txn) other.now }
{
    match other {
        Act::Rollback { txn: own_txn } => txn == *own_txn,
        _ => false,
    }
}

fn is_together(other: &Act, entity: &Path, steps: &Rows<Step>) -> bool
    ensures { result ≡ same_act (Together entity.now steps.now) other.now }
{
    match other {
        Act::Together {
            entity: own_entity,
            steps: own_steps,
        } => is_same_path(entity, own_entity) && are_same_steps(steps, own_steps),
        _ => false,
    }
}

fn is_forget_client(other: &Act, client: &Text) -> bool
    ensures { result ≡ same_act (ForgetClient client.now) other.now }
{
    match other {
        Act::ForgetClient { client: own_client } => is_same_text(client, own_client),
        _ => false,
    }
}

fn is_peek(other: &Act, from: &Path, start: u64, count: u64) -> bool
    ensures { result ≡ same_act (Peek from.now start count) other.now }
{
    match other {
        Act::Peek {
            from: own_from,
            start: own_start,
            count: own_count,
        } => is_same_path(from, own_from) && start == *own_start && count == *own_count,
        _ => false,
    }
}

fn is_counts(other: &Act, entity: &Path) -> bool
    ensures { result ≡ same_act (Counts entity.now) other.now }
{
    match other {
        Act::Counts { entity: own_entity } => is_same_path(entity, own_entity),
        _ => false,
    }
}

fn is_look(other: &Act, what: &Look) -> bool
    ensures { result ≡ same_act (LooksAt what.now) other.now }
{
    match other {
        Act::Look { what: own_what } => is_same_look(what, own_what),
        _ => false,
    }
}
