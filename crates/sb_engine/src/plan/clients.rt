// What an accepted act comes to where clients are remembered: one is forgotten, they are looked at,
// and the call is kept where a client with a number asks.
ghost use Rattle.std.specs.Prelude.{◌≡◌, ℕ, [], true, None, Ok, is_some, IfOk, IfErr};
ghost use Rattle.std.specs.Option.{option_map};
ghost use Rattle.std.specs.Result.{IsOk};
ghost use Rattle.sb_machine.specs.Answers.{kept_as};
ghost use Rattle.sb_machine.specs.Changes.{is_numbered};
ghost use Rattle.sb_machine.specs.Repeats as repeats;
ghost use Rattle.sb_machine.specs.Repeats.{acted, forgot};
ghost use Rattle.sb_machine.specs.declared.look.View.TheVariants as view_of;
ghost use Rattle.sb_machine.specs.declared.reply.Answered.TheVariants.{Kept as Repeated};
ghost use Rattle.sb_machine.specs.declared.reply.Refusal.TheVariants.{OutOfMemory};
ghost use Rattle.sb_machine.specs.declared.reply.Reply.TheVariants.{Seen};
ghost use Rattle.sb_machine.specs.declared.state.State.{State};
ghost use Rattle.sb_engine.specs.Engines.{planned_of, IsSound, PlansAs};
ghost use Rattle.sb_engine.specs.Small.{is_small};

use crate::{Draft, Plan};
use sb_machine::{Act, Answered, By, Changes, Kept, Look, Refusal, Reply, View};
use sb_model::Text;
use sb_repeats::Clients;
use std::alloc::{AllocError, Global};

/// The plan of an act that the namespace has accepted so.
pub fn plan_answer(
    alloc: Global,
    clients: &Clients,
    by: Option<&By>,
    act: &Act,
    draft: Draft,
) -> Result<Plan, Refusal>
    ensures plan { PlansAs result (planned_of (option_map (λ b. b.now) by.entry) act.now (repeats.of_answer clients.now.clients act.now draft.reply draft.changes)) }
    ensures free { option_map (λ b. b.now) by.entry ≡ None → is_small act.now ≡ true → IsOk result }
    ensures sound { (s : State) (t : ℕ) → is_numbered t draft.changes s.space ≡ true → IfOk result (λ p. IsSound s t p) }
{
    match act {
        Act::ForgetClient { client } => {
            drop(draft);
            plan_forgetting(alloc, clients, by, act, client)
        }
        Act::Look { what } => {
            let draft = with_clients(alloc, clients, what, draft)?;
            plan_acted(by, act, draft)
        }
        _ => plan_acted(by, act, draft),
    }
}

/// The plan of a call that acted before.
pub fn plan_repeated(alloc: Global, reply: &Reply) -> Result<Plan, AllocError>
    ensures { IfOk result (λ p. p ≡ record { changes = []; answered = Repeated reply.now; forgets = None; kept = None }) }
{
    let reply = reply.clone()?;
    Ok(Plan::new(Changes::new(alloc), Answered::Kept(reply), None))
}

// ---- what is kept

// What is kept of an accepted call.
fn kept_of(by: &By, act: &Act, reply: &Reply) -> Result<Kept, AllocError>
    ensures { IfOk result (λ k. k ≡ kept_as by.now act.now reply.now) }
{
    let client = by.client.clone()?;
    let act = act.clone()?;
    let Ok(reply) = reply.clone() else {
        drop(act);
        return Err(AllocError);
    };
    Ok(Kept {
        client,
        number: by.number,
        act,
        reply,
    })
}

fn kept_where(by: Option<&By>, act: &Act, reply: &Reply) -> Result<Option<Kept>, AllocError>
    ensures kept { IfOk result (λ k. k ≡ option_map (λ b. kept_as b act.now reply.now) (option_map (λ b. b.now) by.entry)) }
    ensures free { option_map (λ b. b.now) by.entry ≡ None → IsOk result }
{
    match by {
        Some(by) => Ok(Some(kept_of(by, act, reply)?)),
        None => Ok(None),
    }
}

// ---- an act on the namespace

// The plan of a draft, kept where a client with a number asks.
fn plan_draft(by: Option<&By>, act: &Act, draft: Draft) -> Result<Plan, AllocError>
    ensures plan { IfOk result (λ p. planned_of (option_map (λ b. b.now) by.entry) act.now (acted draft.reply draft.changes) ≡ Ok p) }
    ensures free { option_map (λ b. b.now) by.entry ≡ None → IsOk result }
    ensures changes { IfOk result (λ p. p.changes ≡ draft.changes) }
{
    let Draft { reply, changes } = draft;
    let Ok(kept) = kept_where(by, act, &reply) else {
        drop(reply);
        drop(changes);
        return Err(AllocError);
    };
    Ok(Plan::new(changes, Answered::New(reply), kept))
}

fn plan_acted(by: Option<&By>, act: &Act, draft: Draft) -> Result<Plan, Refusal>
    ensures plan { PlansAs result (planned_of (option_map (λ b. b.now) by.entry) act.now (acted draft.reply draft.changes)) }
    ensures free { option_map (λ b. b.now) by.entry ≡ None → IsOk result }
    ensures changes { IfOk result (λ p. p.changes ≡ draft.changes) }
{
    match plan_draft(by, act, draft) {
        Ok(plan) => Ok(plan),
        Err(_) => Err(Refusal::OutOfMemory),
    }
}

// ---- a look

fn draft_of_clients(
    alloc: Global,
    clients: &Clients,
    after: &Option<Text>,
    count: u64,
    changes: Changes,
) -> Result<Draft, Refusal>
    ensures ok { IfOk result (λ d. (d.reply ≡ Seen (view_of.Clients (repeats.clients_shown after.now count clients.now.clients))) × (d.changes ≡ changes)) }
    ensures err { IfErr result (λ r. r ≡ OutOfMemory) }
{
    match clients.shown(alloc, after, count) {
        Ok(shown) => Ok(Draft {
            reply: Reply::Seen(View::Clients(shown)),
            changes,
        }),
        Err(_) => {
            drop(changes);
            Err(Refusal::OutOfMemory)
        }
    }
}

// A look at clients shows those that are remembered; what any other shows, the namespace has said.
fn with_clients(
    alloc: Global,
    clients: &Clients,
    what: &Look,
    draft: Draft,
) -> Result<Draft, Refusal>
    ensures ok { IfOk result (λ d. (d.reply ≡ repeats.with_clients clients.now.clients what.now draft.reply) × (d.changes ≡ draft.changes)) }
    ensures err { IfErr result (λ r. r ≡ OutOfMemory) }
{
    match what {
        Look::Clients { after, count } => {
            let Draft { reply, changes } = draft;
            drop(reply);
            draft_of_clients(alloc, clients, after, *count, changes)
        }
        _ => Ok(draft),
    }
}

// ---- a client that is forgotten

fn is_remembered(clients: &Clients, client: &Text) -> bool
    ensures { result ≡ is_some (repeats.kept_for client.now clients.now.clients) }
{
    clients.get(client.as_str()).is_some()
}

fn plan_forgotten(
    alloc: Global,
    by: Option<&By>,
    act: &Act,
    client: &Text,
) -> Result<Plan, AllocError>
    ensures plan { IfOk result (λ p. planned_of (option_map (λ b. b.now) by.entry) act.now (forgot client.now) ≡ Ok p) }
    ensures none { IfOk result (λ p. p.changes ≡ []) }
{
    let client = client.clone()?;
    let Ok(kept) = kept_where(by, act, &Reply::Done) else {
        drop(client);
        return Err(AllocError);
    };
    Ok(Plan::forgetting(alloc, client, kept))
}

fn plan_forgetting(
    alloc: Global,
    clients: &Clients,
    by: Option<&By>,
    act: &Act,
    client: &Text,
) -> Result<Plan, Refusal>
    ensures plan { PlansAs result (planned_of (option_map (λ b. b.now) by.entry) act.now (repeats.forgetting client.now clients.now.clients)) }
    ensures none { IfOk result (λ p. p.changes ≡ []) }
{
    if !is_remembered(clients, client) {
        return Err(Refusal::ClientNotFound);
    }
    match plan_forgotten(alloc, by, act, client) {
        Ok(plan) => Ok(plan),
        Err(_) => Err(Refusal::OutOfMemory),
    }
}
