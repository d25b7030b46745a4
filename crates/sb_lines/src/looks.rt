// The looks that lines ask for, each by its fields in the order in which they are judged.
ghost use Rattle.std.specs.Prelude.{◌≡◌};
ghost use Rattle.serde_json.specs.View.{view};
ghost use Rattle.sb_lines.specs.Faults.{Answers};
ghost use Rattle.sb_lines.specs.Lines as lines;

use crate::fault::{LineFault, bad};
use crate::in_line::InLine;
use crate::keys::{EntityAddress, Named, Whole, Words};
use crate::table::{Both, Nothing, Optional, object_of};
use sb_machine::{Act, Look};
use serde_json::Value;
use std::alloc::Global;

/// Whether an act of this name is a look.
pub(crate) fn is_look(word: &str) -> bool
    ensures { result ≡ lines.is_look word.now }
{
    word == "list"
        || word == "describe"
        || word == "sessions"
        || word == "transactions"
        || word == "clients"
}

/// The look of this name, with its fields.
#[tactic(auto, unfolding(crate::specs::Lines::look_act))]
pub(crate) fn look_act(alloc: Global, value: &Value, word: &str) -> Result<Act, LineFault>
    ensures { Answers result (lines.look_act word.now (view value.now)) }
{
    match word {
        "list" => list(alloc, value),
        "describe" => describe(alloc, value),
        "sessions" => sessions(alloc, value),
        "transactions" => transactions(alloc, value),
        "clients" => clients(alloc, value),
        _ => bad(alloc, "do"),
    }
}

#[tactic(auto, unfolding(crate::specs::Lines::list))]
fn list(alloc: Global, value: &Value) -> Result<Act, LineFault>
    ensures { Answers result (lines.list (view value.now)) }
{
    let (prefix, (after, count)) = object_of(
        alloc,
        value,
        &InLine(Both(
            Optional("prefix", Named("prefix")),
            Both(Optional("after", EntityAddress("after")), Whole("count")),
        )),
    )?;
    let what = Look::Entities {
        prefix,
        after,
        count,
    };
    Ok(Act::Look { what })
}

#[tactic(auto, unfolding(crate::specs::Lines::describe))]
fn describe(alloc: Global, value: &Value) -> Result<Act, LineFault>
    ensures { Answers result (lines.describe (view value.now)) }
{
    let path = object_of(alloc, value, &InLine(EntityAddress("entity")))?;
    let what = Look::Entity { path };
    Ok(Act::Look { what })
}

#[tactic(auto, unfolding(crate::specs::Lines::sessions))]
fn sessions(alloc: Global, value: &Value) -> Result<Act, LineFault>
    ensures { Answers result (lines.sessions (view value.now)) }
{
    let (path, (after, count)) = object_of(
        alloc,
        value,
        &InLine(Both(
            EntityAddress("entity"),
            Both(Optional("after", Words("after")), Whole("count")),
        )),
    )?;
    let what = Look::Sessions { path, after, count };
    Ok(Act::Look { what })
}

#[tactic(auto, unfolding(crate::specs::Lines::transactions))]
fn transactions(alloc: Global, value: &Value) -> Result<Act, LineFault>
    ensures { Answers result (lines.transactions (view value.now)) }
{
    object_of(alloc, value, &InLine(Nothing))?;
    let what = Look::Transactions;
    Ok(Act::Look { what })
}

#[tactic(auto, unfolding(crate::specs::Lines::clients))]
fn clients(alloc: Global, value: &Value) -> Result<Act, LineFault>
    ensures { Answers result (lines.clients (view value.now)) }
{
    let (after, count) = object_of(
        alloc,
        value,
        &InLine(Both(Optional("after", Words("after")), Whole("count"))),
    )?;
    let what = Look::Clients { after, count };
    Ok(Act::Look { what })
}
