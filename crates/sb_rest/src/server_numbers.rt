// The numbers of a running server, as an object of the status and as metrics.
ghost use Rattle.std.specs.Prelude.{◌≡◌, ◌++◌, IfOk, OnOk, string_bytes};
ghost use Rattle.std.specs.List.{flat_map};
ghost use Rattle.sb_rest.specs.ServerNumbers as server_numbers;

use crate::exposition::{
    push_about, push_bare_line, push_first_label, push_label, push_labelled_line, push_lone,
    push_number, push_value,
};
use sb_numbers::{Bucket, Counted, JournalSizes, Numbers, VERSION};
use std::alloc::{AllocError, Global};

/// The object of the status.
#[tactic(auto, unfolding(crate::specs::ServerNumbers::server_text))]
pub(crate) fn server_text(alloc: Global, numbers: &Numbers) -> Result<String, AllocError>
    ensures { IfOk result (λ s. string_bytes s ≡ server_numbers.server_text numbers.now) }
{
    let mut out = String::new(alloc);
    out.push_str("{\"connections\":")?;
    push_number(alloc, &mut out, numbers.connections)?;
    push_journal_keys(alloc, &mut out, numbers.journal)?;
    push_and_number(alloc, &mut out, "threads", numbers.threads)?;
    push_and_number(alloc, &mut out, "uptime_seconds", numbers.uptime_ms / 1000)?;
    push_version(&mut out)?;
    push_and_number(alloc, &mut out, "waiting", numbers.waiting)?;
    push_and_number(alloc, &mut out, "workers", numbers.workers)?;
    out.push_str("}")?;
    Ok(out)
}

/// The metrics.
#[tactic(auto, unfolding(crate::specs::ServerNumbers::numbers_text))]
pub(crate) fn push_numbers_text(
    alloc: Global,
    out: &mut String,
    numbers: &Numbers,
) -> Result<(), AllocError>
    ensures { OnOk result (string_bytes out.new ≡ string_bytes out.old ++ server_numbers.numbers_text numbers.now) }
{
    push_calls_text(alloc, out, numbers.calls.as_slice())?;
    push_spent_text(alloc, out, numbers)?;
    push_journal_text(alloc, out, numbers.journal)?;
    push_connections_text(alloc, out, numbers.connections)?;
    push_waiting_text(alloc, out, numbers.waiting)?;
    push_uptime_text(alloc, out, numbers.uptime_ms / 1000)?;
    Ok(())
}

// ---- the keys of the object

// A number at a key, behind others.
#[tactic(auto, unfolding(crate::specs::ServerNumbers::and_number))]
fn push_and_number(alloc: Global, out: &mut String, key: &str, n: u64) -> Result<(), AllocError>
    ensures { OnOk result (string_bytes out.new ≡ string_bytes out.old ++ server_numbers.and_number key.now n) }
{
    out.push_str(",\"")?;
    out.push_str(key)?;
    out.push_str("\":")?;
    push_number(alloc, out, n)?;
    Ok(())
}

// A text that needs no escapes, likewise.
#[tactic(auto, unfolding(crate::specs::ServerNumbers::and_text))]
fn push_and_text(out: &mut String, key: &str, text: &str) -> Result<(), AllocError>
    ensures { OnOk result (string_bytes out.new ≡ string_bytes out.old ++ server_numbers.and_text key.now text.now) }
{
    out.push_str(",\"")?;
    out.push_str(key)?;
    out.push_str("\":\"")?;
    out.push_str(text)?;
    out.push_str("\"")
}

#[tactic(auto, unfolding(crate::specs::ServerNumbers::bytes_key))]
fn push_bytes_key(alloc: Global, out: &mut String, n: u64) -> Result<(), AllocError>
    ensures { OnOk result (string_bytes out.new ≡ string_bytes out.old ++ server_numbers.bytes_key n) }
{
    push_and_number(alloc, out, "journal_bytes", n)
}

#[tactic(auto, unfolding(crate::specs::ServerNumbers::records_key))]
fn push_records_key(alloc: Global, out: &mut String, n: u64) -> Result<(), AllocError>
    ensures { OnOk result (string_bytes out.new ≡ string_bytes out.old ++ server_numbers.records_key n) }
{
    push_and_number(alloc, out, "journal_records", n)
}

#[tactic(auto, unfolding(crate::specs::ServerNumbers::syncs_key))]
fn push_syncs_key(alloc: Global, out: &mut String, n: u64) -> Result<(), AllocError>
    ensures { OnOk result (string_bytes out.new ≡ string_bytes out.old ++ server_numbers.syncs_key n) }
{
    push_and_number(alloc, out, "syncs", n)
}

#[tactic(auto, unfolding(crate::specs::ServerNumbers::journal_keys))]
fn push_journal_keys(
    alloc: Global,
    out: &mut String,
    journal: JournalSizes,
) -> Result<(), AllocError>
    ensures { OnOk result (string_bytes out.new ≡ string_bytes out.old ++ server_numbers.journal_keys journal) }
{
    push_bytes_key(alloc, out, journal.bytes)?;
    push_records_key(alloc, out, journal.records)?;
    push_syncs_key(alloc, out, journal.syncs)?;
    Ok(())
}

#[tactic(auto, unfolding(crate::specs::ServerNumbers::version_key))]
fn push_version(out: &mut String) -> Result<(), AllocError>
    ensures { OnOk result (string_bytes out.new ≡ string_bytes out.old ++ server_numbers.version_key) }
{
    push_and_text(out, "version", VERSION)
}

// ---- calls

#[tactic(auto, unfolding(crate::specs::ServerNumbers::calls_about))]
fn push_calls_about(out: &mut String) -> Result<(), AllocError>
    ensures { OnOk result (string_bytes out.new ≡ string_bytes out.old ++ server_numbers.calls_about) }
{
    push_about(
        out,
        "zolmutarn_calls_total",
        "counter",
        "Calls since the server began, by what they ask for and how they were answered.",
    )
}

// Of a kind.
#[tactic(auto, unfolding(crate::specs::ServerNumbers::act_label))]
fn push_act_label(out: &mut String, word: &str) -> Result<(), AllocError>
    ensures { OnOk result (string_bytes out.new ≡ string_bytes out.old ++ server_numbers.act_label word.now) }
{
    push_first_label(out, "zolmutarn_calls_total", "act", word)
}

// So many of a kind were answered so.
#[tactic(auto, unfolding(crate::specs::ServerNumbers::calls_line))]
fn push_calls_line(alloc: Global, out: &mut String, row: &Counted) -> Result<(), AllocError>
    ensures { OnOk result (string_bytes out.new ≡ string_bytes out.old ++ server_numbers.calls_line row.now) }
{
    let digits = row.count.to_string(alloc)?;
    push_act_label(out, row.kind.word())?;
    push_label(out, "answer", row.outcome.word())?;
    push_value(out, digits.as_str())?;
    Ok(())
}

fn push_calls(alloc: Global, out: &mut String, rows: &[Counted]) -> Result<(), AllocError>
    ensures { OnOk result (string_bytes out.new ≡ string_bytes out.old ++ flat_map server_numbers.calls_line rows.now) }
{
    for row in rows {
        push_calls_line(alloc, out, row)?;
    }
    Ok(())
}

#[tactic(auto, unfolding(crate::specs::ServerNumbers::calls_text))]
fn push_calls_text(alloc: Global, out: &mut String, rows: &[Counted]) -> Result<(), AllocError>
    ensures { OnOk result (string_bytes out.new ≡ string_bytes out.old ++ server_numbers.calls_text rows.now) }
{
    push_calls_about(out)?;
    push_calls(alloc, out, rows)?;
    Ok(())
}

// ---- how long they took

// So many calls took at most so long.
#[tactic(auto, unfolding(crate::specs::ServerNumbers::bucket_line))]
fn push_bucket_line(alloc: Global, out: &mut String, most: &str, n: u64) -> Result<(), AllocError>
    ensures { OnOk result (string_bytes out.new ≡ string_bytes out.old ++ server_numbers.bucket_line most.now n) }
{
    push_labelled_line(
        alloc,
        out,
        "zolmutarn_call_microseconds_bucket",
        "le",
        most,
        n,
    )
}

#[tactic(auto, unfolding(crate::specs::ServerNumbers::bucket_of))]
fn push_bucket(alloc: Global, out: &mut String, row: &Bucket) -> Result<(), AllocError>
    ensures { OnOk result (string_bytes out.new ≡ string_bytes out.old ++ server_numbers.bucket_of row.now) }
{
    let most = row.most.to_string(alloc)?;
    push_bucket_line(alloc, out, most.as_str(), row.count)
}

fn push_buckets(alloc: Global, out: &mut String, rows: &[Bucket]) -> Result<(), AllocError>
    ensures { OnOk result (string_bytes out.new ≡ string_bytes out.old ++ flat_map server_numbers.bucket_of rows.now) }
{
    for row in rows {
        push_bucket(alloc, out, row)?;
    }
    Ok(())
}

// All took less than for ever.
#[tactic(auto, unfolding(crate::specs::ServerNumbers::last_bucket))]
fn push_last_bucket(alloc: Global, out: &mut String, n: u64) -> Result<(), AllocError>
    ensures { OnOk result (string_bytes out.new ≡ string_bytes out.old ++ server_numbers.last_bucket n) }
{
    push_bucket_line(alloc, out, "+Inf", n)
}

// How long all took together.
#[tactic(auto, unfolding(crate::specs::ServerNumbers::sum_line))]
fn push_sum_line(alloc: Global, out: &mut String, n: u64) -> Result<(), AllocError>
    ensures { OnOk result (string_bytes out.new ≡ string_bytes out.old ++ server_numbers.sum_line n) }
{
    push_bare_line(alloc, out, "zolmutarn_call_microseconds_sum", n)
}

#[tactic(auto, unfolding(crate::specs::ServerNumbers::count_line))]
fn push_count_line(alloc: Global, out: &mut String, n: u64) -> Result<(), AllocError>
    ensures { OnOk result (string_bytes out.new ≡ string_bytes out.old ++ server_numbers.count_line n) }
{
    push_bare_line(alloc, out, "zolmutarn_call_microseconds_count", n)
}

#[tactic(auto, unfolding(crate::specs::ServerNumbers::spent_about))]
fn push_spent_about(out: &mut String) -> Result<(), AllocError>
    ensures { OnOk result (string_bytes out.new ≡ string_bytes out.old ++ server_numbers.spent_about) }
{
    push_about(
        out,
        "zolmutarn_call_microseconds",
        "histogram",
        "How long a call took, with the wait for its turn and for the disk.",
    )
}

#[tactic(auto, unfolding(crate::specs::ServerNumbers::spent_text))]
fn push_spent_text(alloc: Global, out: &mut String, numbers: &Numbers) -> Result<(), AllocError>
    ensures { OnOk result (string_bytes out.new ≡ string_bytes out.old ++ server_numbers.spent_text numbers.now) }
{
    push_spent_about(out)?;
    push_buckets(alloc, out, numbers.spent.as_slice())?;
    push_last_bucket(alloc, out, numbers.called)?;
    push_sum_line(alloc, out, numbers.spent_micros)?;
    push_count_line(alloc, out, numbers.called)?;
    Ok(())
}

// ---- the journal

#[tactic(auto, unfolding(crate::specs::ServerNumbers::syncs_text))]
fn push_syncs_text(alloc: Global, out: &mut String, n: u64) -> Result<(), AllocError>
    ensures { OnOk result (string_bytes out.new ≡ string_bytes out.old ++ server_numbers.syncs_text n) }
{
    push_lone(
        alloc,
        out,
        "zolmutarn_syncs_total",
        "counter",
        "Syncs of the journal's records since the server began, two for every group.",
        n,
    )
}

#[tactic(auto, unfolding(crate::specs::ServerNumbers::records_text))]
fn push_records_text(alloc: Global, out: &mut String, n: u64) -> Result<(), AllocError>
    ensures { OnOk result (string_bytes out.new ≡ string_bytes out.old ++ server_numbers.records_text n) }
{
    push_lone(
        alloc,
        out,
        "zolmutarn_journal_records_total",
        "counter",
        "Records of the journal since the namespace began.",
        n,
    )
}

#[tactic(auto, unfolding(crate::specs::ServerNumbers::bytes_text))]
fn push_bytes_text(alloc: Global, out: &mut String, n: u64) -> Result<(), AllocError>
    ensures { OnOk result (string_bytes out.new ≡ string_bytes out.old ++ server_numbers.bytes_text n) }
{
    push_lone(
        alloc,
        out,
        "zolmutarn_journal_bytes",
        "gauge",
        "Bytes of the journal, up to its end.",
        n,
    )
}

#[tactic(auto, unfolding(crate::specs::ServerNumbers::journal_text))]
fn push_journal_text(
    alloc: Global,
    out: &mut String,
    journal: JournalSizes,
) -> Result<(), AllocError>
    ensures { OnOk result (string_bytes out.new ≡ string_bytes out.old ++ server_numbers.journal_text journal) }
{
    push_syncs_text(alloc, out, journal.syncs)?;
    push_records_text(alloc, out, journal.records)?;
    push_bytes_text(alloc, out, journal.bytes)?;
    Ok(())
}

// ---- what there is now

#[tactic(auto, unfolding(crate::specs::ServerNumbers::connections_text))]
fn push_connections_text(alloc: Global, out: &mut String, n: u64) -> Result<(), AllocError>
    ensures { OnOk result (string_bytes out.new ≡ string_bytes out.old ++ server_numbers.connections_text n) }
{
    push_lone(
        alloc,
        out,
        "zolmutarn_connections",
        "gauge",
        "Connections that are open.",
        n,
    )
}

#[tactic(auto, unfolding(crate::specs::ServerNumbers::waiting_text))]
fn push_waiting_text(alloc: Global, out: &mut String, n: u64) -> Result<(), AllocError>
    ensures { OnOk result (string_bytes out.new ≡ string_bytes out.old ++ server_numbers.waiting_text n) }
{
    push_lone(
        alloc,
        out,
        "zolmutarn_waiting_receives",
        "gauge",
        "Calls that wait for a message or for a session.",
        n,
    )
}

#[tactic(auto, unfolding(crate::specs::ServerNumbers::uptime_text))]
fn push_uptime_text(alloc: Global, out: &mut String, n: u64) -> Result<(), AllocError>
    ensures { OnOk result (string_bytes out.new ≡ string_bytes out.old ++ server_numbers.uptime_text n) }
{
    push_lone(
        alloc,
        out,
        "zolmutarn_uptime_seconds",
        "gauge",
        "For how long the server has run.",
        n,
    )
}
