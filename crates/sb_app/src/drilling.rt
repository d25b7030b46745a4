// A drill: calls that a seed draws on the namespace of two disks, and the counts of what came of them.
ghost use Rattle.std.specs.Prelude.{◌≡◌, ◌<◌, ◌+◌, ◌-◌, ◌^◌, ◌++◌, ℕ, List, [], None, Some, Err, IfOk, IfErr, IfSome, string_bytes};
ghost use Rattle.sb_journal.specs.Disks.{disks_of, AreHonest, KeepsAside, OneFault};
ghost use Rattle.sb_machine.specs.Answers.{moment_of};
ghost use Rattle.sb_machine.specs.Consistent.{IsConsistent};
ghost use Rattle.sb_machine.specs.Ordered.{IsActInOrder};
ghost use Rattle.sb_machine.specs.declared.history.Entry.{Entry};
ghost use Rattle.sb_machine.specs.declared.reply.Refusal.TheVariants.{DiskFault, Stopped};
ghost use Rattle.sb_machine.specs.declared.state.State.{State};
ghost use Rattle.sb_node.specs.Nodes.{node_aside, node_disks, node_log, node_state, node_stopped, node_ticked};
ghost use Rattle.sb_node.specs.Serving.{node_goes_on, opened_disks, StandsFor};
ghost use Rattle.sb_node.specs.Steps.{entries_with, IsStep};
ghost use Rattle.sb_app.specs.Checks.{IsLineTold};
ghost use Rattle.sb_app.specs.Drills.{DrillIsCut, DrillsSoFar, IsDrillOver};
ghost use Rattle.sb_app.specs.Drills as drills;
ghost use Rattle.sb_app.specs.Outside.{outside_of, output_of};
ghost use Rattle.sb_app.specs.Tops.{IsCarriedOut};
ghost use Rattle.sb_app.specs.declared.task.Task.TheVariants.{Drill};

use crate::dispatch::{AnswerKind, kind_of_answer};
use crate::ending::{RunEnd, status_of};
use crate::opening::open_node;
use sb_drill::{Memory, call_at, calls_for, heard};
use sb_machine::{Answer, TimedCall};
use sb_node::{Node, Summary};
use sb_outside::{Clock, Disk, Sink, Source, write_all};
use std::alloc::{AllocError, Global};

/// The counts of a drill.
#[derive(Clone, Copy, PartialEq, Eq)]
pub struct Counts {
    /// How many calls were accepted, those of the setup among them.
    pub accepted: u64,
    /// How many were refused.
    pub refused: u64,
    /// How many copies live.
    pub copies: u64,
    /// The copy numbers of which no copy lives any more.
    pub ended: u64,
    /// All copy numbers that were ever given.
    pub made: u64,
}

/// Where a drill stands between two calls.
#[derive(Clone, Copy)]
pub struct Drilled {
    /// What is remembered of the answers.
    pub memory: Memory,
    /// How many calls were accepted.
    pub accepted: u64,
    /// How many were refused.
    pub refused: u64,
}

/// A drill of so many drawn calls over the namespace of these disks; nothing is read of the input, nor of
/// the clock. The status is 0 once the counts are told, 4 for a fault of the output, 5 for a disk that
/// failed, 6 for a journal that can't be trusted and 7 for want of memory.
pub fn drill_over<D: Disk, C: Clock, S: Source, K: Sink>(
    alloc: Global,
    disk_a: D,
    disk_b: D,
    salt: u64,
    clock: &C,
    max_jump: u32,
    count: u32,
    seed: u64,
    input: &S,
    output: &mut K,
) -> (u8, D, D)
    ensures done { IsCarriedOut (C.reads clock.now) max_jump (Some (Drill count seed)) salt (outside_of D.Disk S.Source K.Sink disk_a disk_b input.now output.old) (outside_of D.Disk S.Source K.Sink result.1 result.2 input.now output.new) result.0 }
    ensures aside { AreHonest (disks_of D.Disk disk_a disk_b) → KeepsAside salt (disks_of D.Disk disk_a disk_b) (disks_of D.Disk result.1 result.2) }
{
    let mut node = match open_node(alloc, disk_a, disk_b, salt, output) {
        Ok(node) => node,
        Err(failed) => return failed,
    };
    let status = drill_status(alloc, &mut node, count, seed, output);
    let (disk_a, disk_b) = node.close();
    (status, disk_a, disk_b)
}

// Makes the calls, and tells their counts.
fn drill_status<D: Disk, K: Sink>(
    alloc: Global,
    node: &mut Node<D>,
    count: u32,
    seed: u64,
    output: &mut K,
) -> u8
    requires stands { StandsFor node.old (node_state node.old) [] }
    requires running { node_stopped node.old ≡ None }
    requires consistent { IsConsistent (node_state node.old) }
    ensures done { IsDrillOver count seed (node_state node.old) (output_of K.Sink output.old) (output_of K.Sink output.new) node.new result }
    ensures origin { opened_disks node.new ≡ opened_disks node.old }
    ensures goes_on { node_goes_on node.new ≡ node_goes_on node.old }
    ensures aside { node_aside node.new ≡ node_aside node.old }
{
    match make_calls(alloc, node, seed, calls_for(count)) {
        Ok(so_far) => {
            let counts = counts_of(so_far, node.summary());
            tell_counts(alloc, counts, output)
        }
        Err(end) => status_of(end),
    }
}

// Makes so many calls, one behind the other.
fn make_calls<D: Disk>(
    alloc: Global,
    node: &mut Node<D>,
    seed: u64,
    calls: u64,
) -> Result<Drilled, RunEnd>
    requires few { calls < 2 ^ 33 }
    requires stands { StandsFor node.old (node_state node.old) [] }
    requires running { node_stopped node.old ≡ None }
    requires consistent { IsConsistent (node_state node.old) }
    ensures ok { IfOk result (DrillsSoFar seed (node_state node.old) calls node.new) }
    ensures err { IfErr result (λ e. (n : ℕ) × (n < calls) × DrillIsCut seed (node_state node.old) n node.new e) }
    ensures origin { opened_disks node.new ≡ opened_disks node.old }
    ensures goes_on { node_goes_on node.new ≡ node_goes_on node.old }
    ensures aside { node_aside node.new ≡ node_aside node.old }
{
    let mut so_far = Drilled {
        memory: Memory::nothing(),
        accepted: 0,
        refused: 0,
    };
    for n in 0..calls {
        so_far = match make_call(alloc, node, seed, n, so_far) {
            Ok(next) => next,
            Err(end) => return Err(end),
        };
    }
    Ok(so_far)
}

// Makes the call of this number.
fn make_call<D: Disk>(
    alloc: Global,
    node: &mut Node<D>,
    seed: u64,
    n: u64,
    so_far: Drilled,
) -> Result<Drilled, RunEnd>
    requires few { n < 2 ^ 33 }
    ensures ok { (start : State) → DrillsSoFar seed start n node.old so_far → IfOk result (DrillsSoFar seed start (n + 1) node.new) }
    ensures err { (start : State) → DrillsSoFar seed start n node.old so_far → IfErr result (DrillIsCut seed start n node.new) }
    ensures origin { opened_disks node.new ≡ opened_disks node.old }
    ensures goes_on { node_goes_on node.new ≡ node_goes_on node.old }
    ensures aside { node_aside node.new ≡ node_aside node.old }
{
    let Ok(asked) = call_at(alloc, seed, n, so_far.memory) else {
        return Err(RunEnd::OutOfMemory);
    };
    let answer = answer_to(node, &asked);
    let memory = heard(seed, n, so_far.memory, &answer);
    match kind_of_answer(&answer) {
        AnswerKind::Accepted => Ok(Drilled {
            memory,
            accepted: one_more(so_far.accepted),
            refused: so_far.refused,
        }),
        AnswerKind::Refused => Ok(Drilled {
            memory,
            accepted: so_far.accepted,
            refused: one_more(so_far.refused),
        }),
        AnswerKind::Failed => Err(RunEnd::DiskFault),
        AnswerKind::Wanting => Err(RunEnd::OutOfMemory),
    }
}

// What the namespace answers to a call.
fn answer_to<D: Disk>(node: &mut Node<D>, asked: &TimedCall) -> Answer
    requires order { IsActInOrder asked.now.call.act }
    ensures stands { (start : State) (h : List Entry) → StandsFor node.old start h → StandsFor node.new start (h ++ entries_with (node_ticked node.new) 0 asked.now.reading asked.now.call result) }
    ensures step { IsStep (node_log node.old) (entries_with (node_ticked node.new) 0 asked.now.reading asked.now.call result) (node_log node.new) }
    ensures ticked { IfSome (node_ticked node.new) (λ t. t ≡ moment_of (node_state node.old) asked.now.reading) }
    ensures consistent { IsConsistent (node_state node.old) → IsConsistent (node_state node.new) }
    ensures disk_fault { result ≡ Err DiskFault → (n : ℕ) × (node_stopped node.new ≡ Some n) × OneFault (node_disks node.old) (node_disks node.new) n }
    ensures stopped { (n : ℕ) → result ≡ Err (Stopped n) → node_stopped node.old ≡ Some n }
    ensures origin { opened_disks node.new ≡ opened_disks node.old }
    ensures goes_on { node_goes_on node.new ≡ node_goes_on node.old }
    ensures aside { node_aside node.new ≡ node_aside node.old }
{
    node.step(asked.reading, &asked.call)
}

// A count, which stands still at 2^64 - 1.
fn one_more(count: u64) -> u64
    ensures { count < 2 ^ 64 - 1 → result ≡ count + 1 }
{
    count.saturating_add(1)
}

// The counts of these calls, and of the namespace behind them.
fn counts_of(so_far: Drilled, numbers: Summary) -> Counts
    ensures { result ≡ record { accepted = so_far.accepted; refused = so_far.refused; copies = numbers.copies; ended = numbers.made - numbers.copies; made = numbers.made } }
{
    Counts {
        accepted: so_far.accepted,
        refused: so_far.refused,
        copies: numbers.copies,
        ended: numbers.made.saturating_sub(numbers.copies),
        made: numbers.made,
    }
}

fn counts_line(alloc: Global, counts: Counts) -> Result<String, AllocError>
    ensures { IfOk result (λ s. string_bytes s ≡ drills.drill_line counts) }
{
    let Counts {
        accepted,
        refused,
        copies,
        ended,
        made,
    } = counts;
    format!(in alloc;
        "{{\"accepted\":{accepted},\"copies\":{copies},\"ended\":{ended},\"made\":{made},\"ok\":\"drill\",\"refused\":{refused}}}\n"
    )
}

// Writes the line of the counts. The status is 0, 4 where the output failed, or 7 for want of memory.
fn tell_counts<K: Sink>(alloc: Global, counts: Counts, output: &mut K) -> u8
    ensures { IsLineTold (drills.drill_line counts) (output_of K.Sink output.old) (output_of K.Sink output.new) result }
{
    let Ok(line) = counts_line(alloc, counts) else {
        return 7;
    };
    match write_all(output, line.as_bytes()) {
        Ok(()) => 0,
        Err(_) => 4,
    }
}
