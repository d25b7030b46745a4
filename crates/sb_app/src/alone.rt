// What is done without waiting for anybody.
ghost use Rattle.std.specs.Prelude.{◌≡◌, ◌≢◌, ◌⊎◌, ℕ, Bool, None, Some, Option, Err, IfErr};
ghost use Rattle.sb_outside.specs.Causes.{RoseByOne};
ghost use Rattle.sb_machine.specs.Consistent.{IsConsistent};
ghost use Rattle.sb_journal.specs.Disks.{disks_of, AreHonest, KeepsAside, HaveFailed, AreQuiet, SameHonesty};
ghost use Rattle.sb_node.specs.Nodes.{node_state, node_stopped, node_aside, node_disks, IsKept};
ghost use Rattle.sb_words.specs.declared.command.WordsFault.TheVariants.{BadWords};
ghost use Rattle.sb_app.specs.Outside.{outside_of};
ghost use Rattle.sb_app.specs.Nodes.{outside_with};
ghost use Rattle.sb_app.specs.Runs.{IsScriptRun, status_by};
ghost use Rattle.sb_app.specs.Endings.{IsCutRun, status_of_end};
ghost use Rattle.sb_app.specs.Tops.{IsCarriedOut, IsRunStatus};
ghost use Rattle.sb_app.specs.Clients.{exchanges_of};
ghost use Rattle.sb_app.specs.Calls.{IsCall, IsNamed};
ghost use Rattle.sb_app.specs.declared.ending.RunEnd.{RunEnd};
ghost use Rattle.sb_app.specs.declared.task.Task.{Task};
ghost use Rattle.sb_app.specs.declared.task.Task.TheVariants.{Run, RunThenCheckpoint, Check, Client};

use crate::checking::check_status;
use crate::checkpointing::run_then_checkpoint;
use crate::client::client_status;
use crate::drilling::drill_over;
use crate::ending::status_of;
use crate::final_line::write_final_line;
use crate::looking::look_over;
use crate::opening::open_node;
use crate::running::run_script;
use crate::task::{Named, Task};
use sb_node::Node;
use sb_outside::{Clock, Disk, Link, Sink, Source};
use sb_words::WordsFault;
use std::alloc::Global;

const USAGE: &str = "usage: bus COMMAND (run, serve, client, check, drill)\n";

/// Does the task that was named, or writes the usage line where none was. A client shows the key, if it
/// isn't empty. The statuses are those of `top`; the disks come back.
pub fn carry_out<D: Disk, C: Clock, S: Source, K: Sink, N: Link>(
    alloc: Global,
    named: Result<Named, WordsFault>,
    disk_a: D,
    disk_b: D,
    salt: u64,
    clock: &C,
    input: &mut S,
    output: &mut K,
    key: &[u8],
    link: &mut N,
) -> (u8, D, D)
    ensures done { (task : Option Task) (days : ℕ) → IsNamed task days named → IsCall (C.reads clock.now) days task salt (outside_of D.Disk S.Source K.Sink disk_a disk_b input.old output.old) (outside_of D.Disk S.Source K.Sink result.1 result.2 input.new output.new) (exchanges_of key.now N.Link link.old) (exchanges_of key.now N.Link link.new) result.0 }
    ensures usage { result.0 ≡ 2 → named ≡ Err BadWords }
    ensures usage_alone { result.0 ≡ 2 → (result.1 ≡ disk_a) × (result.2 ≡ disk_b) × (input.new ≡ input.old) }
    ensures unread { IfErr named (λ _. input.new ≡ input.old) }
    ensures client_alone { (task : Option Task) (days : ℕ) → IsNamed task days named → task ≡ Some Client → (result.1 ≡ disk_a) × (result.2 ≡ disk_b) }
    ensures aside { (task : Option Task) (days : ℕ) → IsNamed task days named → task ≢ Some RunThenCheckpoint → AreHonest (disks_of D.Disk disk_a disk_b) → KeepsAside salt (disks_of D.Disk disk_a disk_b) (disks_of D.Disk result.1 result.2) }
    ensures link { (task : Option Task) (days : ℕ) → IsNamed task days named → task ≢ Some Client → link.new ≡ link.old }
{
    let Named { task, max_jump } = match named {
        Ok(named) => named,
        Err(WordsFault::BadWords) => {
            write_final_line(output, USAGE);
            return (2, disk_a, disk_b);
        }
        Err(WordsFault::OutOfMemory) => return (7, disk_a, disk_b),
    };
    match task {
        Task::Run => run_over(alloc, disk_a, disk_b, salt, clock, max_jump, input, output),
        Task::RunThenCheckpoint => {
            run_then_checkpoint(alloc, disk_a, disk_b, salt, clock, max_jump, input, output)
        }
        Task::Check => check_over(alloc, disk_a, disk_b, salt, clock, max_jump, input, output),
        Task::Look => look_over(alloc, disk_a, disk_b, salt, input, output),
        Task::Client => {
            let status = client_status(alloc, key, link, input, output);
            (status, disk_a, disk_b)
        }
        Task::Drill { count, seed } => drill_over(
            alloc, disk_a, disk_b, salt, clock, max_jump, count, seed, input, output,
        ),
    }
}

// A run over the namespace of these disks.
fn run_over<D: Disk, C: Clock, S: Source, K: Sink>(
    alloc: Global,
    disk_a: D,
    disk_b: D,
    salt: u64,
    clock: &C,
    max_jump: u32,
    input: &mut S,
    output: &mut K,
) -> (u8, D, D)
    ensures done { IsCarriedOut (C.reads clock.now) max_jump (Some Run) salt (outside_of D.Disk S.Source K.Sink disk_a disk_b input.old output.old) (outside_of D.Disk S.Source K.Sink result.1 result.2 input.new output.new) result.0 }
    ensures aside { AreHonest (disks_of D.Disk disk_a disk_b) → KeepsAside salt (disks_of D.Disk disk_a disk_b) (disks_of D.Disk result.1 result.2) }
{
    let mut node = match open_node(alloc, disk_a, disk_b, salt, output) {
        Ok(node) => node,
        Err(failed) => return failed,
    };
    let status = run_status(alloc, &mut node, clock, max_jump, input, output);
    let (disk_a, disk_b) = node.close();
    (status, disk_a, disk_b)
}

// A check of the namespace of these disks; nothing is read of the input, nor of the clock.
fn check_over<D: Disk, C: Clock, S: Source, K: Sink>(
    alloc: Global,
    disk_a: D,
    disk_b: D,
    salt: u64,
    clock: &C,
    max_jump: u32,
    input: &S,
    output: &mut K,
) -> (u8, D, D)
    ensures done { IsCarriedOut (C.reads clock.now) max_jump (Some Check) salt (outside_of D.Disk S.Source K.Sink disk_a disk_b input.now output.old) (outside_of D.Disk S.Source K.Sink result.1 result.2 input.now output.new) result.0 }
    ensures aside { AreHonest (disks_of D.Disk disk_a disk_b) → KeepsAside salt (disks_of D.Disk disk_a disk_b) (disks_of D.Disk result.1 result.2) }
{
    let node = match open_node(alloc, disk_a, disk_b, salt, output) {
        Ok(node) => node,
        Err(failed) => return failed,
    };
    let status = check_status(alloc, &node, output);
    let (disk_a, disk_b) = node.close();
    (status, disk_a, disk_b)
}

/// Answers the lines of the input over this namespace, and gives the status of the run.
pub(crate) fn run_status<D: Disk, C: Clock, S: Source, K: Sink>(
    alloc: Global,
    node: &mut Node<D>,
    clock: &C,
    max_jump: u32,
    input: &mut S,
    output: &mut K,
) -> u8
    requires running { node_stopped node.old ≡ None }
    requires consistent { IsConsistent (node_state node.old) }
    ensures done { (refused : Bool) → result ≡ status_by refused
        → IsScriptRun (C.reads clock.now) max_jump (IsKept node.old) (node_state node.old) (outside_with S.Source K.Sink node.old input.old output.old) (outside_with S.Source K.Sink node.new input.new output.new) (node_state node.new) refused }
    ensures cut { (end : RunEnd) → result ≡ status_of_end end
        → IsCutRun (C.reads clock.now) max_jump (IsKept node.old) (node_state node.old) (outside_with S.Source K.Sink node.old input.old output.old) (outside_with S.Source K.Sink node.new input.new output.new) (node_state node.new) end }
    ensures kept { IsKept node.old → result ≢ 5 → IsKept node.new }
    ensures passed { (refused : Bool) → result ≡ status_by refused
        → (S.count input.new ≡ S.count input.old) × (K.count output.new ≡ K.count output.old) × AreQuiet (node_disks node.old) (node_disks node.new) }
    ensures read_fault { result ≡ 3 → RoseByOne (S.count input.old) (S.count input.new) }
    ensures read_quiet { result ≢ 3 → S.count input.new ≡ S.count input.old }
    ensures disk_fault { result ≡ 5 → HaveFailed (node_disks node.old) (node_disks node.new) }
    ensures disk_quiet { result ≢ 5 → AreQuiet (node_disks node.old) (node_disks node.new) }
    ensures running { (refused : Bool) → result ≡ status_by refused → node_stopped node.new ≡ None }
    ensures known { IsRunStatus result }
    ensures honesty { SameHonesty (node_disks node.old) (node_disks node.new) }
    ensures aside { node_aside node.new ≡ node_aside node.old }
{
    match run_script(alloc, node, clock, max_jump, input, output) {
        Ok(false) => 0,
        Ok(true) => 1,
        Err(end) => status_of(end),
    }
}
