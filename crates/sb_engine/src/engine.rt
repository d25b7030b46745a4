// A whole namespace in memory.
ghost use Rattle.std.specs.Prelude.{◌≡◌, ℕ, ◌⊎◌, ◌≤◌, ◌<◌, ◌^◌, [], Some, None, is_some, true, false, Ok, Err, IfOk, IfErr, OnOk, OnErr};
ghost use Rattle.std.specs.Option.{option_map};
ghost use Rattle.std.specs.Result.{IsOk};
ghost use Rattle.sb_entities.specs.Stores.{space_in, IsRoomFor};
ghost use Rattle.sb_machine.specs.Acts.{is_via_in, row_of};
ghost use Rattle.sb_machine.specs.Answers.{answer_of, max_moment};
ghost use Rattle.sb_machine.specs.Changes.{after_all, is_numbered};
ghost use Rattle.sb_machine.specs.Consistent.{IsConsistent};
ghost use Rattle.sb_machine.specs.Due as due;
ghost use Rattle.sb_machine.specs.Due.{is_none_in};
ghost use Rattle.sb_machine.specs.Fields.{bad_field};
ghost use Rattle.sb_machine.specs.History.{advanced, is_spent};
ghost use Rattle.sb_machine.specs.Namespace.{empty_state, live as live_of, made as made_of};
ghost use Rattle.sb_machine.specs.Repeats as repeats;
ghost use Rattle.sb_machine.specs.Rows.{refuses};
ghost use Rattle.sb_machine.specs.declared.reply.Refusal.TheVariants.{Exhausted, OutOfMemory};
ghost use Rattle.sb_laws.specs.Sweepable.{IsSweepable};
ghost use Rattle.sb_engine.specs.Deadlines.{never};
ghost use Rattle.sb_engine.specs.Engines.{engine_state, engine_stock, adds_nothing, carried_out, planned_of, summary_of, with_call, without, HasRoom, IsPlanOf, IsSound, PlansAs};
ghost use Rattle.sb_engine.specs.Small.{is_small, takes_no_memory};

use crate::deliver::arrivals::Marks;
use crate::plan::calls::{Verdict, client_of, judge_number};
use crate::plan::clients::{plan_answer, plan_repeated};
use crate::plan::planning::plan_row;
use crate::time::due::{is_due, soonest};
use crate::time::ticks::plan_tick;
use crate::{Plan, Summary};
use sb_entities::SpaceStore;
use sb_machine::{Answered, By, Call, Changes, Kept, Refusal, Reply, State};
use sb_model::Text;
use sb_repeats::Clients;
use std::alloc::{AllocError, Global};

/// A namespace, with what is kept of its clients.
#[derive(Drop)]
pub struct Engine {
    alloc: Global,
    moment: u64,
    clients: Clients,
    space: SpaceStore,
    // Of the parts for which something came.
    entered: Marks,
}

impl Engine {
    /// A namespace with nothing in it; takes no memory.
    pub fn new(alloc: Global, salt: u64) -> Engine
        ensures { engine_state result ≡ empty_state salt }
    {
        Engine {
            alloc,
            moment: 0,
            clients: Clients::new(alloc),
            space: SpaceStore::new(alloc, salt),
            entered: Marks::new(),
        }
    }

    /// A namespace that is this state.
    pub fn from_state(alloc: Global, state: State) -> Result<Engine, AllocError>
        requires { IsConsistent state }
        ensures { IfOk result (λ e. engine_state e ≡ state) }
    {
        let State {
            now,
            clients,
            space,
        } = state;
        let space = SpaceStore::from_space(alloc, space)?;
        Ok(Engine {
            alloc,
            moment: now,
            clients: Clients::from_rows(clients),
            space,
            entered: Marks::new(),
        })
    }

    /// The moment up to which time has come, in ms since 1970.
    pub fn moment(&self) -> u64
        ensures { result ≡ (engine_state self.now).now }
    {
        self.moment
    }

    /// What is kept of its clients.
    pub fn clients(&self) -> &Clients
        ensures { result.now.clients ≡ (engine_state self.now).clients }
    {
        &self.clients
    }

    /// The entities and open transactions.
    pub fn space(&self) -> &SpaceStore
        ensures { space_in result.now ≡ (engine_state self.now).space }
    {
        &self.space
    }

    // ---- planning

    // What a call that acts would do.
    fn plan_acting(&self, moment: u64, by: Option<&By>, call: &Call) -> Result<Plan, Refusal>
        requires { moment ≤ max_moment }
        ensures plan { PlansAs result (planned_of (option_map (λ b. b.now) by.entry) call.now.act (repeats.of_row (engine_state self.now).clients call.now.act (row_of (engine_state self.now).space moment call.now.by call.now.act))) }
        ensures free { option_map (λ b. b.now) by.entry ≡ None → bad_field (is_via_in (engine_state self.now).space call.now.act) call.now.act call.now.by ≡ None → is_small call.now.act ≡ true → IfErr result (λ r. row_of (engine_state self.now).space moment call.now.by call.now.act ≡ refuses r) }
        ensures sound { IfOk result (λ p. IsSound (engine_state self.now) moment p) }
    {
        let draft = plan_row(self.alloc, &self.space, moment, &call.by, &call.act)?;
        plan_answer(self.alloc, &self.clients, by, &call.act, draft)
    }

    // What a call with a client's number would do.
    fn plan_numbered(&self, moment: u64, by: &By, call: &Call) -> Result<Plan, Refusal>
        requires { moment ≤ max_moment }
        ensures plan { PlansAs result (planned_of (Some by.now) call.now.act (repeats.for_client (Some by.now) call.now.act (engine_state self.now).clients (repeats.of_row (engine_state self.now).clients call.now.act (row_of (engine_state self.now).space moment call.now.by call.now.act)))) }
        ensures sound { IfOk result (λ p. IsSound (engine_state self.now) moment p) }
    {
        match judge_number(&self.clients, by, &call.act) {
            Verdict::Acts => self.plan_acting(moment, Some(by), call),
            Verdict::Acted(reply) => match plan_repeated(self.alloc, reply) {
                Ok(plan) => Ok(plan),
                Err(_) => Err(Refusal::OutOfMemory),
            },
            Verdict::Refused(refusal) => Err(refusal),
        }
    }

    fn plan_call(&self, moment: u64, call: &Call) -> Result<Plan, Refusal>
        requires { moment ≤ max_moment }
        ensures plan { PlansAs result (planned_of (repeats.client_of call.now) call.now.act (repeats.outcome_of (engine_state self.now) moment call.now)) }
        ensures free { takes_no_memory (engine_state self.now).space call.now ≡ true → IfErr result (λ r. planned_of (repeats.client_of call.now) call.now.act (repeats.outcome_of (engine_state self.now) moment call.now) ≡ Err r) }
        ensures sound { IfOk result (λ p. IsSound (engine_state self.now) moment p) }
    {
        match client_of(call) {
            Some(by) => self.plan_numbered(moment, by, call),
            None => self.plan_acting(moment, None, call),
        }
    }

    /// What a call would do at a moment, in ms since 1970, at which nothing is due. It changes
    /// nothing.
    pub fn plan(&self, moment: u64, call: &Call) -> Result<Plan, Refusal>
        requires { moment ≤ max_moment }
        ensures ok { IfOk result (λ p. IsPlanOf (engine_state self.now) moment call.now p × IsSound (engine_state self.now) moment p) }
        ensures err { IfErr result (λ r. (r ≡ OutOfMemory) ⊎ (answer_of (engine_state self.now) moment call.now ≡ Err r)) }
        ensures free { takes_no_memory (engine_state self.now).space call.now ≡ true → IfErr result (λ r. answer_of (engine_state self.now) moment call.now ≡ Err r) }

        // Nor does `reserve` take memory for what such a call would do.
        ensures bare { takes_no_memory (engine_state self.now).space call.now ≡ true → IfOk result (λ p. (is_some p.kept ≡ false) × (adds_nothing p.changes ≡ true)) }
    {
        self.plan_call(moment, call)
    }

    // ---- time

    /// Whether something is due at a moment, in ms since 1970. This looks at each open transaction,
    /// at no entity; at the last moment that there is at each copy.
    pub fn is_due(&self, moment: u64) -> bool
        ensures { result ≡ due.is_due moment (engine_state self.now).space }
    {
        is_due(&self.space, moment)
    }

    /// The first moment at which something is due, in ms since 1970; `u64::MAX` where nothing ever is.
    /// This looks at each open transaction, at no entity.
    pub fn soonest(&self) -> u64
        ensures before { (m : ℕ) → m < result → due.is_due m (engine_state self.now).space ≡ false }
        ensures reached { result < never → due.is_due result (engine_state self.now).space ≡ true }
    {
        soonest(&self.space)
    }

    /// What happens as time comes up to a moment, in ms since 1970; nobody waits for its answer.
    /// It changes nothing, and looks at no entity of which nothing is due.
    pub fn plan_tick(&self, moment: u64) -> Result<Plan, Refusal>
        requires sweepable { IsSweepable (engine_state self.now).space }
        ensures ok { IfOk result (λ p. (carried_out moment p (engine_state self.now) ≡ advanced (engine_state self.now) moment) × (is_spent (engine_state self.now) moment ≡ false) × IsSound (engine_state self.now) moment p) }
        ensures err { IfErr result (λ r. (r ≡ OutOfMemory) ⊎ ((r ≡ Exhausted) × (is_spent (engine_state self.now) moment ≡ true))) }
    {
        let changes = plan_tick(self.alloc, &self.space, moment)?;
        Ok(Plan::new(changes, Answered::New(Reply::Done), None))
    }

    // ---- carrying out

    /// Takes all memory that a plan needs; where it is wanting, the namespace stays, with exactly as
    /// many slots as before. A plan whose changes add nothing, and that isn't kept, needs none.
    pub fn reserve(&mut self, plan: &Plan) -> Result<(), AllocError>
        ensures state { engine_state self.new ≡ engine_state self.old }
        ensures room { OnOk result ((moment : ℕ) → IsSound (engine_state self.old) moment plan.now → HasRoom self.new moment plan.now) }
        ensures free { is_some plan.now.kept ≡ false → adds_nothing plan.now.changes ≡ true → IsOk result }
        ensures kept { OnErr result (engine_stock self.new ≡ engine_stock self.old) }
    {
        if plan.is_kept() {
            self.clients.reserve(1)?;
        }
        self.space.reserve(plan.changes())
    }

    /// Carries a plan out at a moment, in ms since 1970; it takes no memory.
    pub fn commit(&mut self, moment: u64, plan: Plan) -> Answered
        requires room { HasRoom self.old moment plan }
        ensures state { engine_state self.new ≡ carried_out moment plan (engine_state self.old) }
        ensures answered { result ≡ plan.answered }
    {
        let (changes, answered, forgets, kept) = plan.into_parts();
        self.entered.note(&self.space, &changes);
        carry_changes(&mut self.space, moment, changes);
        forget(&mut self.clients, forgets);
        keep(&mut self.clients, kept);
        self.moment = moment;
        answered
    }

    /// The marks ([`crate::mark_of`]) of the parts in which the plans that were carried out since this was
    /// asked last brought something to receive, or made a session free.
    pub fn take_entered(&mut self) -> u64
        ensures same { self.new ≡ self.old }
    {
        self.entered.take()
    }

    // ---- numbers

    /// The numbers of the namespace; of the journal it knows nothing.
    pub fn summary(&self) -> Summary
        requires copies { live_of (engine_state self.now).space < 2 ^ 64 }
        requires numbers { made_of (engine_state self.now).space < 2 ^ 64 }
        ensures { result ≡ summary_of (engine_state self.now) 0 }
    {
        Summary {
            copies: self.space.live(),
            entities: self.space.entities().len() as u64,
            events: 0,
            made: self.space.made(),
            now: self.moment,
        }
    }
}

// Changes are carried out where there are any.
fn carry_changes(space: &mut SpaceStore, moment: u64, changes: Changes)
    requires room { IsRoomFor changes space.old }
    requires numbered { is_none_in changes ≡ false → is_numbered moment changes (space_in space.old) ≡ true }
    ensures { space_in space.new ≡ after_all moment changes (space_in space.old) }
{
    if !changes.is_empty() {
        space.carry_out(moment, changes);
    } else {
        drop(changes);
    }
}

fn forget(clients: &mut Clients, forgets: Option<Text>)
    ensures clients { clients.new.clients ≡ without forgets clients.old.clients }
    ensures spare { clients.new.spare ≡ clients.old.spare }
{
    if let Some(client) = forgets {
        clients.forget(client.as_str());
    }
}

fn keep(clients: &mut Clients, kept: Option<Kept>)
    requires { is_some kept ≡ true → 1 ≤ clients.old.spare }
    ensures { clients.new.clients ≡ with_call kept clients.old.clients }
{
    if let Some(kept) = kept {
        clients.keep(kept);
    }
}
