// Copies of what is asked and answered, written out: each field's copy may want memory, and a
// function for each variant keeps what is given up then small.
ghost use Rattle.std.specs.Prelude.{◌≡◌, IfOk};
ghost use Rattle.sb_machine.specs.declared.call.Act.TheVariants as act_of;
ghost use Rattle.sb_machine.specs.declared.call.Step.TheVariants as step_of;
ghost use Rattle.sb_machine.specs.declared.look.View.TheVariants as view_of;
ghost use Rattle.sb_machine.specs.declared.reply.Reply.TheVariants as reply_of;

use crate::{
    Act, ClientShown, CopyShown, Described, Description, EntityShown, FilterText, How, Path,
    Receipt, Reply, RuleShown, SessionShown, Step, StepReply, Token, TransactionShown, View, Which,
};
use sb_model::{Message, Name, Rows, Text};
use std::alloc::AllocError;

impl Clone for Act {
    ghost is_clone = { λ v w. w ≡ v };

    fn clone(&self) -> Result<Act, AllocError> {
        match self {
            Act::CreateQueue { name, description } => create_queue(name, description),
            Act::CreateTopic { name, description } => create_topic(name, description),
            Act::CreateSubscription {
                topic,
                name,
                description,
            } => create_subscription(topic, name, description),
            Act::CreateRule {
                topic,
                subscription,
                name,
                filter,
                action,
            } => create_rule(topic, subscription, name, filter, action),
            Act::Delete { entity } => Ok(Act::Delete {
                entity: entity.clone()?,
            }),
            Act::DeleteRule {
                topic,
                subscription,
                name,
            } => delete_rule(topic, subscription, name),
            Act::Send { to, messages, txn } => send(to, messages, *txn),
            Act::Cancel { from, number } => Ok(Act::Cancel {
                from: from.clone()?,
                number: *number,
            }),
            Act::Receive {
                from,
                mode,
                session,
            } => Ok(Act::Receive {
                from: from.clone()?,
                mode: *mode,
                session: *session,
            }),
            Act::ReceiveDeferred {
                from,
                number,
                mode,
                session,
            } => Ok(Act::ReceiveDeferred {
                from: from.clone()?,
                number: *number,
                mode: *mode,
                session: *session,
            }),
            Act::Settle {
                from,
                which,
                token,
                session,
                how,
                txn,
            } => settle(from, which, *token, *session, how, *txn),
            Act::Renew { from, which, token } => renew(from, which, *token),
            Act::Accept { from, id } => accept(from, id),
            Act::SessionRenew { from, session } => Ok(Act::SessionRenew {
                from: from.clone()?,
                session: *session,
            }),
            Act::SessionClose { from, session } => Ok(Act::SessionClose {
                from: from.clone()?,
                session: *session,
            }),
            Act::SessionSet {
                from,
                session,
                state,
            } => session_set(from, *session, state),
            Act::SessionState { from, session } => Ok(Act::SessionState {
                from: from.clone()?,
                session: *session,
            }),
            Act::Begin { entity } => Ok(Act::Begin {
                entity: entity.clone()?,
            }),
            Act::Commit { txn } => Ok(Act::Commit { txn: *txn }),
            Act::Rollback { txn } => Ok(Act::Rollback { txn: *txn }),
            Act::Together { entity, steps } => together(entity, steps),
            Act::ForgetClient { client } => Ok(Act::ForgetClient {
                client: client.clone()?,
            }),
            Act::Peek { from, start, count } => Ok(Act::Peek {
                from: from.clone()?,
                start: *start,
                count: *count,
            }),
            Act::Counts { entity } => Ok(Act::Counts {
                entity: entity.clone()?,
            }),
            Act::Look { what } => Ok(Act::Look {
                what: what.clone()?,
            }),
        }
    }
}

impl Clone for Reply {
    ghost is_clone = { λ v w. w ≡ v };

    fn clone(&self) -> Result<Reply, AllocError> {
        match self {
            Reply::Done => Ok(Reply::Done),
            Reply::Sent(receipts) => sent(receipts),
            Reply::Message(shown) => message(shown),
            Reply::Empty => Ok(Reply::Empty),
            Reply::Copies(all) => copies(all),
            Reply::Expired { number } => Ok(Reply::Expired { number: *number }),
            Reply::Session { id, session, until } => of_session(id, *session, *until),
            Reply::Renewed { until } => Ok(Reply::Renewed { until: *until }),
            Reply::State(state) => remembered(state),
            Reply::Begun { txn } => Ok(Reply::Begun { txn: *txn }),
            Reply::Queued => Ok(Reply::Queued),
            Reply::Committed => Ok(Reply::Committed),
            Reply::Aborted { part, number } => Ok(Reply::Aborted {
                part: *part,
                number: *number,
            }),
            Reply::Together(all) => step_replies(all),
            Reply::Counts {
                main,
                dead,
                transfer,
            } => Ok(Reply::Counts {
                main: *main,
                dead: *dead,
                transfer: *transfer,
            }),
            Reply::Seen(view) => seen(view),
        }
    }
}

impl Clone for RuleShown {
    ghost is_clone = { λ v w. w ≡ v };

    fn clone(&self) -> Result<RuleShown, AllocError> {
        Ok(RuleShown {
            name: self.name.clone()?,
            filter: copy_of_filter(&self.filter)?,
            action: copy_of_action(&self.action)?,
        })
    }
}

impl Clone for Described {
    ghost is_clone = { λ v w. w ≡ v };

    fn clone(&self) -> Result<Described, AllocError> {
        Ok(Described {
            kind: self.kind,
            description: self.description.clone()?,
            forward_there: self.forward_there,
            forward_dead_there: self.forward_dead_there,
            rules: self.rules.clone()?,
        })
    }
}

impl Clone for Step {
    ghost is_clone = { λ v w. w ≡ v };

    fn clone(&self) -> Result<Step, AllocError> {
        match self {
            Step::Send { to, messages } => step_send(to, messages),
            Step::Settle {
                from,
                which,
                token,
                session,
                how,
            } => step_settle(from, which, *token, *session, how),
            Step::SessionSet {
                from,
                session,
                state,
            } => step_set(from, *session, state),
        }
    }
}

impl Clone for View {
    ghost is_clone = { λ v w. w ≡ v };

    fn clone(&self) -> Result<View, AllocError> {
        match self {
            View::Entities(all) => entities(all),
            View::Entity(one) => described(one),
            View::Sessions(all) => sessions(all),
            View::Transactions(all) => transactions(all),
            View::Clients(all) => clients(all),
        }
    }
}

// ---- acts with more than one field that takes memory

fn create_queue(name: &Name, description: &Description) -> Result<Act, AllocError>
    ensures { IfOk result (λ act. act ≡ act_of.CreateQueue name.now description.now) }
{
    Ok(Act::CreateQueue {
        name: name.clone()?,
        description: description.clone()?,
    })
}

fn create_topic(name: &Name, description: &Description) -> Result<Act, AllocError>
    ensures { IfOk result (λ act. act ≡ act_of.CreateTopic name.now description.now) }
{
    Ok(Act::CreateTopic {
        name: name.clone()?,
        description: description.clone()?,
    })
}

fn create_subscription(
    topic: &Name,
    name: &Name,
    description: &Description,
) -> Result<Act, AllocError>
    ensures { IfOk result (λ act. act ≡ act_of.CreateSubscription topic.now name.now description.now) }
{
    Ok(Act::CreateSubscription {
        topic: topic.clone()?,
        name: name.clone()?,
        description: description.clone()?,
    })
}

fn copy_of_filter(filter: &FilterText) -> Result<FilterText, AllocError>
    ensures { IfOk result (λ copy. copy ≡ filter.now) }
{
    filter.clone()
}

fn copy_of_action(action: &Option<Text>) -> Result<Option<Text>, AllocError>
    ensures { IfOk result (λ copy. copy ≡ action.now) }
{
    action.clone()
}

fn create_rule(
    topic: &Name,
    subscription: &Name,
    name: &Name,
    filter: &FilterText,
    action: &Option<Text>,
) -> Result<Act, AllocError>
    ensures { IfOk result (λ act. act ≡ act_of.CreateRule topic.now subscription.now name.now filter.now action.now) }
{
    Ok(Act::CreateRule {
        topic: topic.clone()?,
        subscription: subscription.clone()?,
        name: name.clone()?,
        filter: copy_of_filter(filter)?,
        action: copy_of_action(action)?,
    })
}

fn delete_rule(topic: &Name, subscription: &Name, name: &Name) -> Result<Act, AllocError>
    ensures { IfOk result (λ act. act ≡ act_of.DeleteRule topic.now subscription.now name.now) }
{
    Ok(Act::DeleteRule {
        topic: topic.clone()?,
        subscription: subscription.clone()?,
        name: name.clone()?,
    })
}

fn step_send(to: &Path, messages: &Rows<Message>) -> Result<Step, AllocError>
    ensures { IfOk result (λ step. step ≡ step_of.Send to.now messages.now) }
{
    Ok(Step::Send {
        to: to.clone()?,
        messages: messages.clone()?,
    })
}

fn step_settle(
    from: &Path,
    which: &Which,
    token: Token,
    session: Option<Token>,
    how: &How,
) -> Result<Step, AllocError>
    ensures { IfOk result (λ step. step ≡ step_of.Settle from.now which.now token session how.now) }
{
    Ok(Step::Settle {
        from: from.clone()?,
        which: which.clone()?,
        token,
        session,
        how: how.clone()?,
    })
}

fn step_set(from: &Path, session: Token, state: &Option<Rows<u8>>) -> Result<Step, AllocError>
    ensures { IfOk result (λ step. step ≡ step_of.SessionSet from.now session state.now) }
{
    Ok(Step::SessionSet {
        from: from.clone()?,
        session,
        state: state.clone()?,
    })
}

fn together(entity: &Path, steps: &Rows<Step>) -> Result<Act, AllocError>
    ensures { IfOk result (λ act. act ≡ act_of.Together entity.now steps.now) }
{
    Ok(Act::Together {
        entity: entity.clone()?,
        steps: steps.clone()?,
    })
}

fn send(to: &Path, messages: &Rows<Message>, txn: Option<u64>) -> Result<Act, AllocError>
    ensures { IfOk result (λ act. act ≡ act_of.Send to.now messages.now txn) }
{
    Ok(Act::Send {
        to: to.clone()?,
        messages: messages.clone()?,
        txn,
    })
}

fn settle(
    from: &Path,
    which: &Which,
    token: Token,
    session: Option<Token>,
    how: &How,
    txn: Option<u64>,
) -> Result<Act, AllocError>
    ensures { IfOk result (λ act. act ≡ act_of.Settle from.now which.now token session how.now txn) }
{
    Ok(Act::Settle {
        from: from.clone()?,
        which: which.clone()?,
        token,
        session,
        how: how.clone()?,
        txn,
    })
}

fn renew(from: &Path, which: &Which, token: Token) -> Result<Act, AllocError>
    ensures { IfOk result (λ act. act ≡ act_of.Renew from.now which.now token) }
{
    Ok(Act::Renew {
        from: from.clone()?,
        which: which.clone()?,
        token,
    })
}

fn accept(from: &Path, id: &Option<Text>) -> Result<Act, AllocError>
    ensures { IfOk result (λ act. act ≡ act_of.Accept from.now id.now) }
{
    Ok(Act::Accept {
        from: from.clone()?,
        id: id.clone()?,
    })
}

fn session_set(from: &Path, session: Token, state: &Option<Rows<u8>>) -> Result<Act, AllocError>
    ensures { IfOk result (λ act. act ≡ act_of.SessionSet from.now session state.now) }
{
    Ok(Act::SessionSet {
        from: from.clone()?,
        session,
        state: state.clone()?,
    })
}

// ---- replies with fields that take memory

fn sent(receipts: &Rows<Receipt>) -> Result<Reply, AllocError>
    ensures { IfOk result (λ reply. reply ≡ reply_of.Sent receipts.now) }
{
    Ok(Reply::Sent(receipts.clone()?))
}

fn message(shown: &CopyShown) -> Result<Reply, AllocError>
    ensures { IfOk result (λ reply. reply ≡ reply_of.Message shown.now) }
{
    Ok(Reply::Message(shown.clone()?))
}

fn copies(all: &Rows<CopyShown>) -> Result<Reply, AllocError>
    ensures { IfOk result (λ reply. reply ≡ reply_of.Copies all.now) }
{
    Ok(Reply::Copies(all.clone()?))
}

fn step_replies(all: &Rows<StepReply>) -> Result<Reply, AllocError>
    ensures { IfOk result (λ reply. reply ≡ reply_of.Together all.now) }
{
    Ok(Reply::Together(all.clone()?))
}

fn of_session(id: &Text, session: Token, until: u64) -> Result<Reply, AllocError>
    ensures { IfOk result (λ reply. reply ≡ reply_of.Session id.now session until) }
{
    Ok(Reply::Session {
        id: id.clone()?,
        session,
        until,
    })
}

fn remembered(state: &Option<Rows<u8>>) -> Result<Reply, AllocError>
    ensures { IfOk result (λ reply. reply ≡ reply_of.State state.now) }
{
    Ok(Reply::State(state.clone()?))
}

fn seen(view: &View) -> Result<Reply, AllocError>
    ensures { IfOk result (λ reply. reply ≡ reply_of.Seen view.now) }
{
    Ok(Reply::Seen(view.clone()?))
}

// ---- views

fn entities(all: &Rows<EntityShown>) -> Result<View, AllocError>
    ensures { IfOk result (λ view. view ≡ view_of.Entities all.now) }
{
    Ok(View::Entities(all.clone()?))
}

fn described(one: &Described) -> Result<View, AllocError>
    ensures { IfOk result (λ view. view ≡ view_of.Entity one.now) }
{
    Ok(View::Entity(one.clone()?))
}

fn sessions(all: &Rows<SessionShown>) -> Result<View, AllocError>
    ensures { IfOk result (λ view. view ≡ view_of.Sessions all.now) }
{
    Ok(View::Sessions(all.clone()?))
}

fn transactions(all: &Rows<TransactionShown>) -> Result<View, AllocError>
    ensures { IfOk result (λ view. view ≡ view_of.Transactions all.now) }
{
    Ok(View::Transactions(all.clone()?))
}

fn clients(all: &Rows<ClientShown>) -> Result<View, AllocError>
    ensures { IfOk result (λ view. view ≡ view_of.Clients all.now) }
{
    Ok(View::Clients(all.clone()?))
}
