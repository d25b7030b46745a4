// The acts that lines ask for, each by its fields in the order in which they are judged.
ghost use Rattle.std.specs.Prelude.{◌≡◌};
ghost use Rattle.serde_json.specs.View.{view};
ghost use Rattle.sb_lines.specs.Faults.{Answers};
ghost use Rattle.sb_lines.specs.Lines as lines;

use crate::descriptions::{QueueFields, SubscriptionFields, TopicFields};
use crate::fault::LineFault;
use crate::in_line::{InLine, Shown, Waiting};
use crate::keys::{Address, EntityAddress, ModeWord, Named, Number, TokenText, Whole, Words};
use crate::looks::look_act;
use crate::messages::{Correlation, Messages};
use crate::settlements::{Reasons, Remembered, Settled, WhichOne};
use crate::steps::Operations;
use crate::table::{AtMostOne, Both, Either, Field, OneOf, Optional, object_of};
use sb_machine::{Act, Conditions, FilterText, How};
use sb_model::Text;
use serde_json::Value;
use std::alloc::Global;

fn filter_of(said: Either<Text, Conditions>) -> FilterText
    ensures { result ≡ lines.filter_of said }
{
    match said {
        Either::First(text) => FilterText::Sql(text),
        Either::Second(conditions) => FilterText::Correlation(conditions),
    }
}

struct FilterOne;

impl Field for FilterOne {
    type Value = FilterText;

    ghost field = { λ _. lines.filter };

    #[tactic(auto, unfolding(crate::specs::Lines::filter, crate::specs::Messages::conditions))]
    fn knows(&self, key: &str) -> bool {
        key == "filter" || key == "correlation"
    }

    #[tactic(auto, unfolding(crate::specs::Lines::filter))]
    fn read(&self, alloc: Global, value: &Value) -> Result<FilterText, LineFault> {
        let said = OneOf(AtMostOne(
            "filter",
            Words("filter"),
            "correlation",
            Correlation("correlation"),
        ))
        .read(alloc, value)?;
        Ok(filter_of(said))
    }
}

// The act whose fields stand so in an object that has no other keys.
macro_rules! row {
    ($alloc:ident, $value:ident, $act:ident { $a:ident: $one:expr }) => {{
        let $a = object_of($alloc, $value, &InLine($one))?;
        Ok(Act::$act { $a })
    }};
    ($alloc:ident, $value:ident, $act:ident { $a:ident: $one:expr, $b:ident: $two:expr }) => {{
        let ($a, $b) = object_of($alloc, $value, &InLine(Both($one, $two)))?;
        Ok(Act::$act { $a, $b })
    }};
    ($alloc:ident, $value:ident, $act:ident { $a:ident: $one:expr, $b:ident: $two:expr, $c:ident: $three:expr }) => {{
        let ($a, ($b, $c)) = object_of($alloc, $value, &InLine(Both($one, Both($two, $three))))?;
        Ok(Act::$act { $a, $b, $c })
    }};
    ($alloc:ident, $value:ident, $act:ident { $a:ident: $one:expr, $b:ident: $two:expr, $c:ident: $three:expr, $d:ident: $four:expr }) => {{
        let ($a, ($b, ($c, $d))) =
            object_of($alloc, $value, &InLine(Both($one, Both($two, Both($three, $four)))))?;
        Ok(Act::$act { $a, $b, $c, $d })
    }};
    ($alloc:ident, $value:ident, $act:ident { $a:ident: $one:expr, $b:ident: $two:expr, $c:ident: $three:expr, $d:ident: $four:expr, $e:ident: $five:expr }) => {{
        let ($a, ($b, ($c, ($d, $e)))) =
            object_of($alloc, $value, &InLine(Both($one, Both($two, Both($three, Both($four, $five))))))?;
        Ok(Act::$act { $a, $b, $c, $d, $e })
    }};
}

#[tactic(auto, unfolding(crate::specs::Lines::create_queue))]
fn create_queue(alloc: Global, value: &Value) -> Result<Act, LineFault>
    ensures { Answers result (lines.create_queue (view value.now)) }
{
    row!(
        alloc,
        value,
        CreateQueue {
            name: Named("name"),
            description: QueueFields
        }
    )
}

#[tactic(auto, unfolding(crate::specs::Lines::create_topic))]
fn create_topic(alloc: Global, value: &Value) -> Result<Act, LineFault>
    ensures { Answers result (lines.create_topic (view value.now)) }
{
    row!(
        alloc,
        value,
        CreateTopic {
            name: Named("name"),
            description: TopicFields
        }
    )
}

#[tactic(auto, unfolding(crate::specs::Lines::create_subscription))]
fn create_subscription(alloc: Global, value: &Value) -> Result<Act, LineFault>
    ensures { Answers result (lines.create_subscription (view value.now)) }
{
    row!(
        alloc,
        value,
        CreateSubscription {
            topic: Named("topic"),
            name: Named("name"),
            description: SubscriptionFields
        }
    )
}

#[tactic(auto, unfolding(crate::specs::Lines::create_rule))]
fn create_rule(alloc: Global, value: &Value) -> Result<Act, LineFault>
    ensures { Answers result (lines.create_rule (view value.now)) }
{
    row!(
        alloc,
        value,
        CreateRule {
            topic: Named("topic"),
            subscription: Named("subscription"),
            name: Named("name"),
            filter: FilterOne,
            action: Optional("action", Words("action"))
        }
    )
}

#[tactic(auto, unfolding(crate::specs::Lines::delete))]
fn delete(alloc: Global, value: &Value) -> Result<Act, LineFault>
    ensures { Answers result (lines.delete (view value.now)) }
{
    row!(
        alloc,
        value,
        Delete {
            entity: EntityAddress("entity")
        }
    )
}

#[tactic(auto, unfolding(crate::specs::Lines::delete_rule))]
fn delete_rule(alloc: Global, value: &Value) -> Result<Act, LineFault>
    ensures { Answers result (lines.delete_rule (view value.now)) }
{
    row!(
        alloc,
        value,
        DeleteRule {
            topic: Named("topic"),
            subscription: Named("subscription"),
            name: Named("name")
        }
    )
}

#[tactic(auto, unfolding(crate::specs::Lines::send))]
fn send(alloc: Global, value: &Value) -> Result<Act, LineFault>
    ensures { Answers result (lines.send (view value.now)) }
{
    row!(
        alloc,
        value,
        Send {
            to: Address("to"),
            messages: Messages("messages"),
            txn: Optional("txn", Number("txn"))
        }
    )
}

#[tactic(auto, unfolding(crate::specs::Lines::cancel))]
fn cancel(alloc: Global, value: &Value) -> Result<Act, LineFault>
    ensures { Answers result (lines.cancel (view value.now)) }
{
    row!(
        alloc,
        value,
        Cancel {
            from: Address("from"),
            number: Number("seq")
        }
    )
}

#[tactic(auto, unfolding(crate::specs::Lines::receive))]
fn receive(alloc: Global, value: &Value) -> Result<Act, LineFault>
    ensures { Answers result (lines.receive (view value.now)) }
{
    let (from, (mode, session)) = object_of(
        alloc,
        value,
        &InLine(Waiting(Shown(Both(
            Address("from"),
            Both(ModeWord("mode"), Optional("session", TokenText("session"))),
        )))),
    )?;
    Ok(Act::Receive {
        from,
        mode,
        session,
    })
}

#[tactic(auto, unfolding(crate::specs::Lines::receive_deferred))]
fn receive_deferred(alloc: Global, value: &Value) -> Result<Act, LineFault>
    ensures { Answers result (lines.receive_deferred (view value.now)) }
{
    let (from, (number, (mode, session))) = object_of(
        alloc,
        value,
        &InLine(Shown(Both(
            Address("from"),
            Both(
                Number("seq"),
                Both(ModeWord("mode"), Optional("session", TokenText("session"))),
            ),
        ))),
    )?;
    Ok(Act::ReceiveDeferred {
        from,
        number,
        mode,
        session,
    })
}

// Complete, abandon, defer.
#[tactic(auto, unfolding(crate::specs::Lines::settle))]
fn settle(alloc: Global, value: &Value, how: How) -> Result<Act, LineFault>
    ensures { Answers result (lines.settle how (view value.now)) }
{
    let (from, (which, (token, (session, txn)))) = object_of(
        alloc,
        value,
        &InLine(Settled(Optional("txn", Number("txn")))),
    )?;
    Ok(Act::Settle {
        from,
        which,
        token,
        session,
        how,
        txn,
    })
}

#[tactic(auto, unfolding(crate::specs::Lines::dead_letter))]
fn dead_letter(alloc: Global, value: &Value) -> Result<Act, LineFault>
    ensures { Answers result (lines.dead_letter (view value.now)) }
{
    let (from, (which, (token, (session, (txn, (reason, description)))))) = object_of(
        alloc,
        value,
        &InLine(Settled(Both(Optional("txn", Number("txn")), Reasons))),
    )?;
    Ok(Act::Settle {
        from,
        which,
        token,
        session,
        how: How::DeadLetter {
            reason,
            description,
        },
        txn,
    })
}

#[tactic(auto, unfolding(crate::specs::Lines::renew))]
fn renew(alloc: Global, value: &Value) -> Result<Act, LineFault>
    ensures { Answers result (lines.renew (view value.now)) }
{
    row!(
        alloc,
        value,
        Renew {
            from: Address("from"),
            which: WhichOne,
            token: TokenText("token")
        }
    )
}

#[tactic(auto, unfolding(crate::specs::Lines::accept))]
fn accept(alloc: Global, value: &Value) -> Result<Act, LineFault>
    ensures { Answers result (lines.accept (view value.now)) }
{
    let (from, id) = object_of(
        alloc,
        value,
        &InLine(Waiting(Both(Address("from"), Optional("id", Words("id"))))),
    )?;
    Ok(Act::Accept { from, id })
}

#[tactic(auto, unfolding(crate::specs::Lines::session_renew))]
fn session_renew(alloc: Global, value: &Value) -> Result<Act, LineFault>
    ensures { Answers result (lines.session_renew (view value.now)) }
{
    row!(
        alloc,
        value,
        SessionRenew {
            from: Address("from"),
            session: TokenText("session")
        }
    )
}

#[tactic(auto, unfolding(crate::specs::Lines::session_close))]
fn session_close(alloc: Global, value: &Value) -> Result<Act, LineFault>
    ensures { Answers result (lines.session_close (view value.now)) }
{
    row!(
        alloc,
        value,
        SessionClose {
            from: Address("from"),
            session: TokenText("session")
        }
    )
}

#[tactic(auto, unfolding(crate::specs::Lines::session_set))]
fn session_set(alloc: Global, value: &Value) -> Result<Act, LineFault>
    ensures { Answers result (lines.session_set (view value.now)) }
{
    let (from, (session, state)) = object_of(alloc, value, &InLine(Remembered))?;
    Ok(Act::SessionSet {
        from,
        session,
        state,
    })
}

#[tactic(auto, unfolding(crate::specs::Lines::session_state))]
fn session_state(alloc: Global, value: &Value) -> Result<Act, LineFault>
    ensures { Answers result (lines.session_state (view value.now)) }
{
    row!(
        alloc,
        value,
        SessionState {
            from: Address("from"),
            session: TokenText("session")
        }
    )
}

#[tactic(auto, unfolding(crate::specs::Lines::begin))]
fn begin(alloc: Global, value: &Value) -> Result<Act, LineFault>
    ensures { Answers result (lines.begin (view value.now)) }
{
    row!(
        alloc,
        value,
        Begin {
            entity: EntityAddress("entity")
        }
    )
}

#[tactic(auto, unfolding(crate::specs::Lines::commit))]
fn commit(alloc: Global, value: &Value) -> Result<Act, LineFault>
    ensures { Answers result (lines.commit (view value.now)) }
{
    row!(alloc, value, Commit { txn: Number("txn") })
}

#[tactic(auto, unfolding(crate::specs::Lines::rollback))]
fn rollback(alloc: Global, value: &Value) -> Result<Act, LineFault>
    ensures { Answers result (lines.rollback (view value.now)) }
{
    row!(alloc, value, Rollback { txn: Number("txn") })
}

#[tactic(auto, unfolding(crate::specs::Lines::together))]
fn together(alloc: Global, value: &Value) -> Result<Act, LineFault>
    ensures { Answers result (lines.together (view value.now)) }
{
    row!(
        alloc,
        value,
        Together {
            entity: EntityAddress("entity"),
            steps: Operations
        }
    )
}

#[tactic(auto, unfolding(crate::specs::Lines::forget_client))]
fn forget_client(alloc: Global, value: &Value) -> Result<Act, LineFault>
    ensures { Answers result (lines.forget_client (view value.now)) }
{
    row!(
        alloc,
        value,
        ForgetClient {
            client: Words("name")
        }
    )
}

#[tactic(auto, unfolding(crate::specs::Lines::peek))]
fn peek(alloc: Global, value: &Value) -> Result<Act, LineFault>
    ensures { Answers result (lines.peek (view value.now)) }
{
    let (from, (start, count)) = object_of(
        alloc,
        value,
        &InLine(Shown(Both(Address("from"), Both(Number("start"), Whole("count"))))),
    )?;
    Ok(Act::Peek { from, start, count })
}

#[tactic(auto, unfolding(crate::specs::Lines::counts))]
fn counts(alloc: Global, value: &Value) -> Result<Act, LineFault>
    ensures { Answers result (lines.counts (view value.now)) }
{
    row!(
        alloc,
        value,
        Counts {
            entity: EntityAddress("entity")
        }
    )
}

// Of transactions and of clients, or of what follows.
#[tactic(auto, unfolding(crate::specs::Lines::transaction_act))]
fn transaction_act(alloc: Global, value: &Value, word: &str) -> Result<Act, LineFault>
    ensures { Answers result (lines.transaction_act word.now (view value.now)) }
{
    match word {
        "begin" => begin(alloc, value),
        "commit" => commit(alloc, value),
        "rollback" => rollback(alloc, value),
        "together" => together(alloc, value),
        "forget-client" => forget_client(alloc, value),
        _ => look_act(alloc, value, word),
    }
}

// Of sessions, or of what follows.
#[tactic(auto, unfolding(crate::specs::Lines::session_act))]
fn session_act(alloc: Global, value: &Value, word: &str) -> Result<Act, LineFault>
    ensures { Answers result (lines.session_act word.now (view value.now)) }
{
    match word {
        "accept" => accept(alloc, value),
        "session-renew" => session_renew(alloc, value),
        "session-close" => session_close(alloc, value),
        "session-set" => session_set(alloc, value),
        "session-state" => session_state(alloc, value),
        _ => transaction_act(alloc, value, word),
    }
}

// Of copies under a lock, or of what follows.
#[tactic(auto, unfolding(crate::specs::Lines::lock_act))]
fn lock_act(alloc: Global, value: &Value, word: &str) -> Result<Act, LineFault>
    ensures { Answers result (lines.lock_act word.now (view value.now)) }
{
    match word {
        "complete" => settle(alloc, value, How::Complete),
        "abandon" => settle(alloc, value, How::Abandon),
        "defer" => settle(alloc, value, How::Defer),
        "dead-letter" => dead_letter(alloc, value),
        "renew" => renew(alloc, value),
        _ => session_act(alloc, value, word),
    }
}

// Of messages, or of what follows.
#[tactic(auto, unfolding(crate::specs::Lines::message_act))]
fn message_act(alloc: Global, value: &Value, word: &str) -> Result<Act, LineFault>
    ensures { Answers result (lines.message_act word.now (view value.now)) }
{
    match word {
        "send" => send(alloc, value),
        "cancel" => cancel(alloc, value),
        "receive" => receive(alloc, value),
        "receive-deferred" => receive_deferred(alloc, value),
        "peek" => peek(alloc, value),
        _ => lock_act(alloc, value, word),
    }
}

/// The act of this name, with its fields.
#[tactic(auto, unfolding(crate::specs::Lines::act_named))]
pub(crate) fn act_named(alloc: Global, value: &Value, word: &str) -> Result<Act, LineFault>
    ensures { Answers result (lines.act_named word.now (view value.now)) }
{
    match word {
        "create-queue" => create_queue(alloc, value),
        "create-topic" => create_topic(alloc, value),
        "create-subscription" => create_subscription(alloc, value),
        "create-rule" => create_rule(alloc, value),
        "delete" => delete(alloc, value),
        "delete-rule" => delete_rule(alloc, value),
        "counts" => counts(alloc, value),
        _ => message_act(alloc, value, word),
    }
}
