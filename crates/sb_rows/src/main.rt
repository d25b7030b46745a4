//! Tables of cases, tried: files of text under `data/`, so that a case is added without a proof.
//!
//! Each folder of `data/` has tables of one kind (`kind`), and each file `NAME.rows` in it is a table:
//! cases of lines (`table`). For each case a line is printed, with the number of its rows where they
//! all hold, else with the first line that doesn't, what is wanted and what came. The status is 1 where
//! a case doesn't hold, and where a table can't be read. docs/ROWS.md has the tables' form. What no
//! contract says is that memory is there, and that the definitions mean what the public reference says.
//!
//! ```text
//! filters/examples: conditions ok (11)
//! ```
#![tactic(auto)]

mod actions;
mod bytes;
mod conversations;
mod filters;
mod http;
mod journals;
mod kind;
mod messages;
mod operators;
mod outcome;
mod refusals;
mod requests;
mod scripts;
mod server;
mod table;
mod texts;

use anyhow::{Context, Result, bail};
use journals::Journals;
use kind::Kind;
use outcome::Outcome;
use std::fs;
use std::rt::Files;
use table::{Case, cases_of};

fn main(rt: HostRuntime) -> Result<()> {
    let mut differing: u64 = 0;
    for kind in Kind::ALL {
        for table in tables_of(&rt, kind.folder())? {
            differing = differing.saturating_add(try_table(&rt, kind, table.as_str())?);
        }
    }
    if differing > 0 {
        bail!("{differing} cases don't hold");
    }
    Ok(())
}

// The names of the tables in a folder, without their ending, in order.
fn tables_of<R: Files + AllocGlobal + Clone + Drop>(rt: &R, folder: &str) -> Result<Vec<String>> {
    let mut names = Vec::new(rt.alloc());
    for entry in fs::read_dir(rt, folder).context(folder)? {
        let entry = entry?;
        if let Some(name) = entry.file_name().strip_suffix(".rows") {
            names.push(String::from_str(rt.alloc(), name)?)?;
        }
    }
    names.sort()?;
    Ok(names)
}

// Tries the cases of a table, and tells each; the number of those that don't hold.
fn try_table<R: Files + Print + AllocGlobal>(rt: &R, kind: Kind, name: &str) -> Result<u64> {
    let path = format!(in rt.alloc(); "{}/{name}.rows", kind.folder())?;
    let text = text_of(rt, path.as_str())?;
    let differing = try_text(rt, kind, path.as_str(), text.as_str());
    drop(text);
    drop(path);
    differing
}

fn text_of<R: Files + AllocGlobal>(rt: &R, path: &str) -> Result<String> {
    fs::read_to_string(rt, path).context(path)
}

fn try_text<R: Print + AllocGlobal>(rt: &R, kind: Kind, path: &str, text: &str) -> Result<u64> {
    let cases = cases_of(rt.alloc(), text).context(path)?;
    let differing = try_cases(rt, kind, table_at(path), &cases);
    drop(cases);
    differing
}

// What names a table, by the path of its file.
fn table_at(path: &str) -> &str {
    path.strip_suffix(".rows").unwrap_or(path)
}

fn try_cases<R: Print + AllocGlobal>(
    rt: &R,
    kind: Kind,
    table: &str,
    cases: &[Case<'_>],
) -> Result<u64> {
    let mut journals = Journals::new(rt.alloc());
    let differing = try_each(rt, kind, table, cases, &mut journals);
    drop(journals);
    differing
}

fn try_each<R: Print + AllocGlobal>(
    rt: &R,
    kind: Kind,
    table: &str,
    cases: &[Case<'_>],
    journals: &mut Journals,
) -> Result<u64> {
    let mut differing: u64 = 0;
    for case in cases {
        let outcome = try_one(rt, kind, table, case, journals)?;
        if !told(rt, table, case.name, outcome)? {
            differing = differing.saturating_add(1);
        }
    }
    Ok(differing)
}

fn try_one<R: AllocGlobal>(
    rt: &R,
    kind: Kind,
    table: &str,
    case: &Case<'_>,
    journals: &mut Journals,
) -> Result<Outcome> {
    kind.try_case(rt.alloc(), case, journals)
        .context(format_args!("{table}: {}", case.name))
}

// Tells what trying a case shows; whether it holds.
fn told<R: Print>(rt: &R, table: &str, case: &str, outcome: Outcome) -> Result<bool> {
    match outcome {
        Outcome::Holds(rows) => {
            println!(rt; "{table}: {case} ok ({rows})")?;
            Ok(true)
        }
        Outcome::Differs(told) => {
            let printed = println!(rt; "{table}: {case} differs: {told}");
            drop(told);
            printed?;
            Ok(false)
        }
    }
}
