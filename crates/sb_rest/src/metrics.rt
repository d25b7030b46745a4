// How many messages stand how, and what the server does, as text for who gathers numbers.
ghost use Rattle.std.specs.Prelude.{◌≡◌, ◌++◌, IfOk, OnOk, string_bytes};
ghost use Rattle.std.specs.List.{flat_map};
ghost use Rattle.sb_rest.specs.Sights as sights;

use crate::exposition::{push_about, push_label, push_number, push_value};
use crate::location::push_address;
use crate::server_numbers::push_numbers_text;
use sb_machine::{EntityShown, PartShown, Path};
use sb_numbers::Numbers;
use std::alloc::{AllocError, Global};

/// The text of all metrics of these entities, and of the server behind them.
#[tactic(auto, unfolding(crate::specs::Sights::metrics_text))]
pub(crate) fn metrics_text(
    alloc: Global,
    rows: &[EntityShown],
    numbers: &Numbers,
) -> Result<String, AllocError>
    ensures { IfOk result (λ s. string_bytes s ≡ sights.metrics_text rows.now numbers.now) }
{
    let mut out = String::new(alloc);
    push_messages_text(alloc, &mut out, rows)?;
    push_oldest_text(alloc, &mut out, rows)?;
    push_sessions_text(alloc, &mut out, rows)?;
    push_numbers_text(alloc, &mut out, numbers)?;
    Ok(out)
}

// ---- one metric each

#[tactic(auto, unfolding(crate::specs::Sights::messages_text))]
fn push_messages_text(
    alloc: Global,
    out: &mut String,
    rows: &[EntityShown],
) -> Result<(), AllocError>
    ensures { OnOk result (string_bytes out.new ≡ string_bytes out.old ++ sights.messages_text rows.now) }
{
    push_messages_about(out)?;
    push_messages(alloc, out, rows)?;
    Ok(())
}

#[tactic(auto, unfolding(crate::specs::Sights::oldest_text))]
fn push_oldest_text(alloc: Global, out: &mut String, rows: &[EntityShown]) -> Result<(), AllocError>
    ensures { OnOk result (string_bytes out.new ≡ string_bytes out.old ++ sights.oldest_text rows.now) }
{
    push_oldest_about(out)?;
    push_oldest(alloc, out, rows)?;
    Ok(())
}

#[tactic(auto, unfolding(crate::specs::Sights::sessions_text))]
fn push_sessions_text(
    alloc: Global,
    out: &mut String,
    rows: &[EntityShown],
) -> Result<(), AllocError>
    ensures { OnOk result (string_bytes out.new ≡ string_bytes out.old ++ sights.sessions_text rows.now) }
{
    push_sessions_about(out)?;
    push_sessions(alloc, out, rows)?;
    Ok(())
}

// ---- what a metric is

#[tactic(auto, unfolding(crate::specs::Sights::messages_about))]
fn push_messages_about(out: &mut String) -> Result<(), AllocError>
    ensures { OnOk result (string_bytes out.new ≡ string_bytes out.old ++ sights.messages_about) }
{
    push_about(
        out,
        "zolmutarn_messages",
        "gauge",
        "Messages of a part of an entity, by state.",
    )
}

#[tactic(auto, unfolding(crate::specs::Sights::oldest_about))]
fn push_oldest_about(out: &mut String) -> Result<(), AllocError>
    ensures { OnOk result (string_bytes out.new ≡ string_bytes out.old ++ sights.oldest_about) }
{
    push_about(
        out,
        "zolmutarn_oldest_seconds",
        "gauge",
        "EnqueuedTime of the oldest message that may be received, in seconds since 1970: time() - it is its age.",
    )
}

#[tactic(auto, unfolding(crate::specs::Sights::sessions_about))]
fn push_sessions_about(out: &mut String) -> Result<(), AllocError>
    ensures { OnOk result (string_bytes out.new ≡ string_bytes out.old ++ sights.sessions_about) }
{
    push_about(
        out,
        "zolmutarn_sessions",
        "gauge",
        "Sessions of an entity that are held, and all that are known.",
    )
}

// A metric of an entity.
#[tactic(auto, unfolding(crate::specs::Sights::of_entity))]
fn push_entity(out: &mut String, name: &str, path: &Path) -> Result<(), AllocError>
    ensures { OnOk result (string_bytes out.new ≡ string_bytes out.old ++ sights.of_entity name.now path.now) }
{
    out.push_str(name)?;
    out.push_str("{entity=\"")?;
    push_address(out, path)?;
    out.push_str("\"")
}

// ---- messages

// How many messages of a part stand so.
#[tactic(auto, unfolding(crate::specs::Sights::messages_line))]
fn push_count(
    alloc: Global,
    out: &mut String,
    path: &Path,
    part: &str,
    state: &str,
    n: u64,
) -> Result<(), AllocError>
    ensures { OnOk result (string_bytes out.new ≡ string_bytes out.old ++ sights.messages_line path.now part.now state.now n) }
{
    let digits = n.to_string(alloc)?;
    push_entity(out, "zolmutarn_messages", path)?;
    push_label(out, "part", part)?;
    push_label(out, "state", state)?;
    push_value(out, digits.as_str())
}

// How many messages of a part stand how.
#[tactic(auto, unfolding(crate::specs::Sights::part_lines))]
fn push_part(
    alloc: Global,
    out: &mut String,
    path: &Path,
    part: &str,
    shown: PartShown,
) -> Result<(), AllocError>
    ensures { OnOk result (string_bytes out.new ≡ string_bytes out.old ++ sights.part_lines path.now part.now shown) }
{
    push_count(alloc, out, path, part, "ready", shown.ready)?;
    push_count(alloc, out, path, part, "held", shown.held)?;
    push_count(alloc, out, path, part, "deferred", shown.deferred)?;
    push_count(alloc, out, path, part, "scheduled", shown.scheduled)
}

// The same of an entity.
#[tactic(auto, unfolding(crate::specs::Sights::messages_lines))]
fn push_parts(alloc: Global, out: &mut String, row: &EntityShown) -> Result<(), AllocError>
    ensures { OnOk result (string_bytes out.new ≡ string_bytes out.old ++ sights.messages_lines row.now) }
{
    push_part(alloc, out, &row.path, "main", row.main)?;
    push_part(alloc, out, &row.path, "dead", row.dead)?;
    push_part(alloc, out, &row.path, "transfer", row.transfer)
}

// The same of each entity.
fn push_messages(alloc: Global, out: &mut String, rows: &[EntityShown]) -> Result<(), AllocError>
    ensures { OnOk result (string_bytes out.new ≡ string_bytes out.old ++ flat_map sights.messages_lines rows.now) }
{
    for row in rows {
        push_parts(alloc, out, row)?;
    }
    Ok(())
}

// ---- the oldest message

// A moment in ms since 1970, in seconds with three decimals.
#[tactic(auto, unfolding(crate::specs::Sights::seconds_text))]
fn seconds_text(alloc: Global, ms: u64) -> Result<String, AllocError>
    ensures { IfOk result (λ s. string_bytes s ≡ sights.seconds_text ms) }
{
    let mut out = String::new(alloc);
    push_number(alloc, &mut out, ms / 1000)?;
    out.push_str(".")?;
    push_number(alloc, &mut out, ms / 100 % 10)?;
    push_number(alloc, &mut out, ms / 10 % 10)?;
    push_number(alloc, &mut out, ms % 10)?;
    Ok(out)
}

// When the oldest message of a part that may be received was enqueued.
#[tactic(auto, unfolding(crate::specs::Sights::oldest_line))]
fn push_oldest_of(
    alloc: Global,
    out: &mut String,
    path: &Path,
    part: &str,
    oldest: Option<u64>,
) -> Result<(), AllocError>
    ensures { OnOk result (string_bytes out.new ≡ string_bytes out.old ++ sights.oldest_line path.now part.now oldest) }
{
    let Some(ms) = oldest else {
        return Ok(());
    };
    let text = seconds_text(alloc, ms)?;
    push_entity(out, "zolmutarn_oldest_seconds", path)?;
    push_label(out, "part", part)?;
    push_value(out, text.as_str())
}

// The same of an entity.
#[tactic(auto, unfolding(crate::specs::Sights::oldest_lines))]
fn push_oldest_in(alloc: Global, out: &mut String, row: &EntityShown) -> Result<(), AllocError>
    ensures { OnOk result (string_bytes out.new ≡ string_bytes out.old ++ sights.oldest_lines row.now) }
{
    push_oldest_of(alloc, out, &row.path, "main", row.main.oldest)?;
    push_oldest_of(alloc, out, &row.path, "dead", row.dead.oldest)?;
    push_oldest_of(alloc, out, &row.path, "transfer", row.transfer.oldest)
}

// The same of each entity.
fn push_oldest(alloc: Global, out: &mut String, rows: &[EntityShown]) -> Result<(), AllocError>
    ensures { OnOk result (string_bytes out.new ≡ string_bytes out.old ++ flat_map sights.oldest_lines rows.now) }
{
    for row in rows {
        push_oldest_in(alloc, out, row)?;
    }
    Ok(())
}

// ---- sessions

// How many sessions.
#[tactic(auto, unfolding(crate::specs::Sights::sessions_line))]
fn push_session_count(
    alloc: Global,
    out: &mut String,
    path: &Path,
    state: &str,
    n: u64,
) -> Result<(), AllocError>
    ensures { OnOk result (string_bytes out.new ≡ string_bytes out.old ++ sights.sessions_line path.now state.now n) }
{
    let digits = n.to_string(alloc)?;
    push_entity(out, "zolmutarn_sessions", path)?;
    push_label(out, "state", state)?;
    push_value(out, digits.as_str())?;
    Ok(())
}

// The sessions of an entity that are held, and all that are known, if there is one.
#[tactic(auto, unfolding(crate::specs::Sights::sessions_lines))]
fn push_sessions_of(alloc: Global, out: &mut String, row: &EntityShown) -> Result<(), AllocError>
    ensures { OnOk result (string_bytes out.new ≡ string_bytes out.old ++ sights.sessions_lines row.now) }
{
    if 0 < row.sessions {
        push_session_count(alloc, out, &row.path, "held", row.held_sessions)?;
        push_session_count(alloc, out, &row.path, "known", row.sessions)?;
    }
    Ok(())
}

// The same of each entity.
fn push_sessions(alloc: Global, out: &mut String, rows: &[EntityShown]) -> Result<(), AllocError>
    ensures { OnOk result (string_bytes out.new ≡ string_bytes out.old ++ flat_map sights.sessions_lines rows.now) }
{
    for row in rows {
        push_sessions_of(alloc, out, row)?;
    }
    Ok(())
}
