// Where a worker stands.
ghost use Rattle.std.specs.Prelude.{◌≡◌, true, false};
ghost use Rattle.sb_server.specs.Stages as stages;
ghost use Rattle.sb_server.specs.Works.{stop_of};

use crate::doing::Doing;
use crate::ending::Ending;
use crate::inbox::Inbox;
use crate::limits::Since;
use crate::work::Stop;
use std::mem;

/// A connection that is being served: what came of it and isn't answered yet, what it does now, but where a
/// call is posted for it, and since when it waits for the other side.
#[derive(Drop)]
pub(crate) struct Guest<N> {
    pub(crate) conn: N,
    pub(crate) inbox: Inbox,
    pub(crate) doing: Doing,
    pub(crate) since: Since,
}

/// Where a worker stands. It says how many connections more are served at most.
#[derive(Drop)]
pub(crate) enum Stage<N> {
    /// It wants a connection.
    Wants(u64),
    /// It serves one.
    Serves(u64, Guest<N>),
    Over(Stop),
}

// Whether a worker ends behind a connection that ended so.
fn stop_of(ending: Ending) -> Option<Stop>
    ensures { result ≡ stop_of ending }
{
    match ending {
        Ending::Stopped => Some(Stop::Stopped),
        Ending::OutOfMemory => Some(Stop::OutOfMemory),
        Ending::Closed
        | Ending::BadHead
        | Ending::HeadTooLarge
        | Ending::BodyTooLarge
        | Ending::Truncated
        | Ending::LongConnection
        | Ending::ReadFault
        | Ending::Gone
        | Ending::WriteFault
        | Ending::Slow => None,
    }
}

/// Where a worker stands behind a connection that ended so, if it may serve so many more.
pub(crate) fn stage_behind<N>(ending: Ending, left: u64) -> Stage<N>
    ensures { result ≡ stages.stage_behind (stop_of ending) left }
{
    match stop_of(ending) {
        Some(stop) => Stage::Over(stop),
        None => Stage::Wants(left),
    }
}

/// Lets the stage of a worker go that is over, and so has no connection.
pub(crate) fn let_go<N>(stage: Stage<N>)
    requires { stages.is_over stage ≡ true }
{
    let Stage::Over(_) = stage else {
        unreachable!()
    };
}

/// Has a worker that has no connection stand there.
pub(crate) fn stand_at<N>(stage: &mut Stage<N>, new: Stage<N>)
    requires { stages.has_conn stage.old ≡ false }
    ensures { stage.new ≡ new }
{
    let old = mem::replace(stage, new);
    let (Stage::Wants(_) | Stage::Over(_)) = old else {
        unreachable!()
    };
}

/// Why a worker ended, where it is over.
pub(crate) fn stop_at<N>(stage: &Stage<N>, other: Stop) -> Stop
    ensures { result ≡ stages.stop_at stage.now other }
{
    match stage {
        Stage::Over(stop) => *stop,
        Stage::Wants(_) | Stage::Serves(_, _) => other,
    }
}

/// Whether it is over.
pub(crate) fn is_over<N>(stage: &Stage<N>) -> bool
    ensures { result ≡ stages.is_over stage.now }
{
    matches!(stage, Stage::Over(_))
}
