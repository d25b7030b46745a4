// Whole runs of the program over disks and streams in memory.
use crate::bytes::bytes_of;
use crate::journals::Journals;
use crate::outcome::{Outcome, differing, no_such_key};
use crate::table::{Case, Line};
use anyhow::{Context, Result, bail};
use sb_app::top_alone;
use sb_outside::{MemDisk, MemSink, MemSource, NoLink, StepClock};
use std::alloc::{AllocError, Global};

// That of a new journal; docs/FORMATS.md has one with it.
const SALT: u64 = 0xa1b2_c3d4_e5f6_0718;

// How many bytes a read of the input gives at most, where a case names no number.
const PIECE: usize = 7;

// What a run is made over, and what it has to write and end with.
#[derive(Drop)]
struct Run<'a> {
    words: Vec<&'a str>,
    disk_a: Vec<u8>,
    disk_b: Vec<u8>,
    input: Vec<u8>,
    piece: usize,
    // The reads of the input that fail.
    failing: Vec<u64>,
    output: Vec<u8>,
    status: u8,
}

impl<'a> Run<'a> {
    fn new(alloc: Global) -> Result<Run<'a>, AllocError> {
        Ok(Run {
            words: vec![in alloc; "run", "--data", "."]?,
            disk_a: Vec::new(alloc),
            disk_b: Vec::new(alloc),
            input: Vec::new(alloc),
            piece: PIECE,
            failing: Vec::new(alloc),
            output: Vec::new(alloc),
            status: 0,
        })
    }

    // Takes what stands of a line before the run; what it leaves is looked at behind it.
    fn take(&mut self, alloc: Global, line: Line<'a>, journals: &Journals) -> Result<()> {
        match line.key {
            ">" => put_line(&mut self.input, &bytes_of(alloc, line.value)?),
            "<" => put_line(&mut self.output, line.value.as_bytes()),
            "words" => put_words(alloc, &mut self.words, line.value),
            "status" => put_status(&mut self.status, line.value),
            "leaves" | "leaves_b" => Ok(()),
            "over" | "change" | "cut" => self.take_disks(alloc, line, journals),
            _ => self.take_reading(line),
        }
    }

    // Makes the disks those which a case left, changes a byte of disk a, or cuts it.
    fn take_disks(&mut self, alloc: Global, line: Line<'a>, journals: &Journals) -> Result<()> {
        match line.key {
            "over" => {
                self.disk_a = journals.left_by(line.value)?.to_vec(alloc)?;
                self.disk_b = journals.left_on_b(line.value)?.to_vec(alloc)?;
            }
            "cut" => self.disk_a.truncate(line.value.parse::<usize>()?),
            _ => change(&mut self.disk_a, line.value)?,
        }
        Ok(())
    }

    // Takes how the input is read.
    fn take_reading(&mut self, line: Line<'a>) -> Result<()> {
        match line.key {
            "unended" => {
                let _ = self.input.pop();
                Ok(())
            }
            "unread" => Ok(self.failing.push(0)?),
            "pieces" => {
                self.piece = line.value.parse::<usize>()?;
                Ok(())
            }
            _ => Err(no_such_key(line)),
        }
    }

    fn take_all(&mut self, alloc: Global, lines: &[Line<'a>], journals: &Journals) -> Result<()> {
        for line in lines {
            self.take(alloc, *line, journals)?;
        }
        Ok(())
    }
}

fn put_line(lines: &mut Vec<u8>, line: &[u8]) -> Result<()> {
    lines.extend_from_slice(line)?;
    lines.push(b'\n')?;
    Ok(())
}

fn put_words<'a>(alloc: Global, words: &mut Vec<&'a str>, said: &'a str) -> Result<()> {
    *words = said.split(' ').collect(alloc)?;
    Ok(())
}

fn put_status(status: &mut u8, said: &str) -> Result<()> {
    *status = said.parse::<u8>()?;
    Ok(())
}

// Puts another byte at a place, both in decimal.
fn change(bytes: &mut [u8], words: &str) -> Result<()> {
    let (place, byte) = words.split_once(' ').context("a place and a byte")?;
    let place = place.parse::<usize>()?;
    let there = bytes.get_mut(place).context("the place is past the end")?;
    *there = byte.parse::<u8>()?;
    Ok(())
}

// What a run writes, its status, and what it leaves on its disks.
#[derive(Drop)]
struct Ending {
    output: Vec<u8>,
    status: u8,
    disk_a: Vec<u8>,
    disk_b: Vec<u8>,
}

fn disk_of(alloc: Global, bytes: &[u8]) -> Result<MemDisk, AllocError> {
    let bytes = bytes.to_vec(alloc)?;
    MemDisk::new(alloc, bytes, Vec::new(alloc))
}

fn disks_of(alloc: Global, run: &Run<'_>) -> Result<(MemDisk, MemDisk), AllocError> {
    let disk_a = disk_of(alloc, &run.disk_a)?;
    match disk_of(alloc, &run.disk_b) {
        Ok(disk_b) => Ok((disk_a, disk_b)),
        Err(error) => {
            drop(disk_a);
            Err(error)
        }
    }
}

fn source_of(alloc: Global, run: &Run<'_>) -> Result<MemSource, AllocError> {
    let bytes = run.input.as_slice().to_vec(alloc)?;
    let failing = run.failing.as_slice().to_vec(alloc)?;
    Ok(MemSource::new(bytes, run.piece.max(1), failing))
}

// Makes the run over these; its status, and the disks as it leaves them.
fn called(
    alloc: Global,
    words: &[&str],
    disk_a: MemDisk,
    disk_b: MemDisk,
    input: &mut MemSource,
    output: &mut MemSink,
) -> (u8, MemDisk, MemDisk) {
    let clock = StepClock::new(0, 1);
    let mut link = NoLink::new();
    top_alone(
        alloc, words, disk_a, disk_b, SALT, &clock, input, output, &mut link,
    )
}

// The bytes of a disk, which is let go.
fn bytes_left(alloc: Global, disk: MemDisk) -> Result<Vec<u8>> {
    let bytes = disk.bytes().to_vec(alloc);
    drop(disk);
    Ok(bytes?)
}

// The status of the run, and what it leaves on disk a and on disk b.
fn ran(
    alloc: Global,
    run: &Run<'_>,
    input: &mut MemSource,
    output: &mut MemSink,
) -> Result<(u8, Vec<u8>, Vec<u8>)> {
    let (disk_a, disk_b) = disks_of(alloc, run)?;
    let (status, disk_a, disk_b) = called(alloc, &run.words, disk_a, disk_b, input, output);
    let left_a = bytes_left(alloc, disk_a);
    let left_b = bytes_left(alloc, disk_b);
    Ok((status, left_a?, left_b?))
}

fn ending_over(alloc: Global, run: &Run<'_>, input: &mut MemSource) -> Result<Ending> {
    let mut output = MemSink::new(alloc, 4096, Vec::new(alloc))?;
    let ran = ran(alloc, run, input, &mut output);
    let bytes = output.bytes().to_vec(alloc);
    drop(output);
    let (status, disk_a, disk_b) = ran?;
    Ok(Ending {
        output: bytes?,
        status,
        disk_a,
        disk_b,
    })
}

fn ending_of(alloc: Global, run: &Run<'_>) -> Result<Ending> {
    let mut input = source_of(alloc, run)?;
    let ending = ending_over(alloc, run, &mut input);
    drop(input);
    ending
}

// The first line of the output that is another one than the case has, or the line behind them.
fn other_line(alloc: Global, case: &Case<'_>, output: &[u8]) -> Result<Outcome> {
    let told: Vec<&str> = std::str::from_utf8(output)?.lines().collect(alloc)?;
    let mut place: usize = 0;
    for line in &case.lines {
        let line = *line;
        if line.key == "<" {
            let came = told.get(place).copied().unwrap_or("no line");
            if came != line.value {
                return Ok(differing(alloc, line, came)?);
            }
            place = place.saturating_add(1);
        }
    }
    let more = told.get(place).copied().unwrap_or("");
    let told = format!(in alloc; "more is written: {more}")?;
    Ok(Outcome::Differs(told))
}

// Whether a disk is as it has to be, by the words of a `leaves` or a `leaves_b`.
fn is_left(
    alloc: Global,
    words: &str,
    began: &[u8],
    left: &[u8],
    journals: &Journals,
) -> Result<bool> {
    let (key, value) = words.split_once(' ').unwrap_or((words, ""));
    Ok(match key {
        "unchanged" => left == began,
        "length" => left.len() == value.parse::<usize>()?,
        "bytes" => left == hex::decode(alloc, value)?.as_slice(),
        "begins" => left.starts_with(&hex::decode(alloc, value)?),
        "as" => left == journals.left_by(value)?,
        "added" => {
            let added = hex::decode(alloc, value)?;
            let front = began.get(..began.len().saturating_sub(1)).unwrap_or(&[]);
            left == [front, &added].concat(alloc)?.as_slice()
        }
        _ => bail!("no such journal: {words}"),
    })
}

// How many lines a case has for its input.
fn rows_of(case: &Case<'_>) -> u64 {
    let mut rows: u64 = 0;
    for line in &case.lines {
        if line.key == ">" {
            rows = rows.saturating_add(1);
        }
    }
    rows
}

// What is other than the case has it in what a run wrote, its status or what it left.
fn other(
    alloc: Global,
    case: &Case<'_>,
    run: &Run<'_>,
    ending: &Ending,
    journals: &Journals,
) -> Result<Option<Outcome>> {
    if ending.output.as_slice() != run.output.as_slice() {
        return Ok(Some(other_line(alloc, case, &ending.output)?));
    }
    if ending.status != run.status {
        return Ok(Some(other_status(alloc, ending.status, run.status)?));
    }
    other_disk(alloc, case, run, ending, journals)
}

// The first line for which a disk is other than it has to be. Where no line is of disk b it has to be as it was.
fn other_disk(
    alloc: Global,
    case: &Case<'_>,
    run: &Run<'_>,
    ending: &Ending,
    journals: &Journals,
) -> Result<Option<Outcome>> {
    let mut is_told_of_b = false;
    for line in &case.lines {
        let line = *line;
        let is_so = match line.key {
            "leaves" => is_left(alloc, line.value, &run.disk_a, &ending.disk_a, journals)?,
            "leaves_b" => {
                is_told_of_b = true;
                is_left(alloc, line.value, &run.disk_b, &ending.disk_b, journals)?
            }
            _ => true,
        };
        if !is_so {
            return Ok(Some(differing(alloc, line, "another journal")?));
        }
    }
    if is_told_of_b || ending.disk_b == run.disk_b {
        return Ok(None);
    }
    let told = String::from_str(alloc, "disk b is written")?;
    Ok(Some(Outcome::Differs(told)))
}

fn other_status(alloc: Global, came: u8, wanted: u8) -> Result<Outcome, AllocError> {
    let told = format!(in alloc; "status {came}, and not {wanted}")?;
    Ok(Outcome::Differs(told))
}

// What its ending shows, kept for the cases behind it where it holds.
fn ended(
    alloc: Global,
    case: &Case<'_>,
    run: &Run<'_>,
    ending: Ending,
    journals: &mut Journals,
) -> Result<Outcome> {
    let differs = other(alloc, case, run, &ending, journals);
    let Ending {
        disk_a,
        disk_b,
        output,
        ..
    } = ending;
    drop(output);
    if let Some(differs) = differs? {
        return Ok(differs);
    }
    journals.keep(alloc, case.name, disk_a, disk_b)?;
    Ok(Outcome::Holds(rows_of(case)))
}

fn try_run<'a>(
    alloc: Global,
    case: &Case<'a>,
    run: &mut Run<'a>,
    journals: &mut Journals,
) -> Result<Outcome> {
    run.take_all(alloc, &case.lines, journals)?;
    let ending = ending_of(alloc, run)?;
    ended(alloc, case, run, ending, journals)
}

/// Tries a case: a run over input lines, which has to write its output lines. Before or behind them stand
/// `words`, `over`, `change`, `cut`, `pieces`, `unended`, `unread` for what the run is made over, `status`,
/// `leaves` and `leaves_b` for what it ends with; docs/ROWS.md says what each means.
pub fn try_script(alloc: Global, case: &Case<'_>, journals: &mut Journals) -> Result<Outcome> {
    let mut run = Run::new(alloc)?;
    let outcome = try_run(alloc, case, &mut run, journals);
    drop(run);
    outcome
}
