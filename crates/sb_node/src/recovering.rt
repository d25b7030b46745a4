// The engine that a journal's file leads to.
ghost use Rattle.std.specs.Prelude.{◌≡◌, ◌-◌};
ghost use Rattle.sb_engine.specs.Engines.{engine_state, summary_of};
ghost use Rattle.sb_machine.specs.Consistent.{IsConsistent};

use crate::growth::Growth;
use crate::replay::Replaying;
use sb_engine::{Engine, Summary};
use sb_journal::Judged;

/// An engine in the state to which the events of a file lead.
#[derive(Drop)]
pub(crate) struct Reached {
    pub(crate) engine: Engine,
    /// The number of the last record.
    pub(crate) last: u64,
    /// How far the journal has grown.
    pub(crate) growth: Growth,
}

/// The engine that has carried out all events of the file that was found.
pub(crate) fn reached_by(judged: Judged<Replaying>) -> Reached
    ensures engine { result.engine ≡ judged.judge.engine }
    ensures last { result.last ≡ judged.next - 1 }
    ensures growth { result.growth.checkpoint_after ≡ 0 }
{
    let Judged { next, judge, .. } = judged;
    let growth = judge.growth();
    Reached {
        engine: judge.into_engine(),
        last: next.saturating_sub(1),
        growth,
    }
}

/// The numbers of an engine, and of its journal by the number of the last record.
pub(crate) fn numbers_of(engine: &Engine, last: u64) -> Summary
    requires { ∥ IsConsistent (engine_state engine.now) ∥₁ }
    ensures { result ≡ summary_of (engine_state engine.now) last }
{
    let mut summary = engine.summary();
    summary.events = last;
    summary
}
