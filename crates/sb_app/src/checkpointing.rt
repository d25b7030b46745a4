// A checkpoint at the end of a run, or of a server.
ghost use Rattle.std.specs.Prelude.{◌≡◌, ◌≢◌, ◌≤◌, ℕ, Bool, false, true, None};
ghost use Rattle.sb_journal.specs.Disks.{SameHonesty};
ghost use Rattle.sb_node.specs.Nodes.{node_stopped, node_disks, IsKept};
ghost use Rattle.sb_app.specs.Outside.{outside_of};
ghost use Rattle.sb_app.specs.Runs.{status_by};
ghost use Rattle.sb_app.specs.Checkpoints.{EndsCheckpoint, HasCheckpoint, IsCheckpointRun};
ghost use Rattle.sb_app.specs.Checkpoints as checkpoints;

use crate::alone::run_status;
use crate::opening::open_node;
use sb_machine::Refusal;
use sb_node::Node;
use sb_outside::{Clock, Disk, Sink, Source};
use std::alloc::Global;

/// A run over the namespace of these disks. Where it answered all its lines, the journal then goes on with
/// a new file on the other disk, whose base is the state; where that may not be, it stays as it is. The
/// status is the run's, or of the checkpoint 5 for a disk that failed and 7 for want of memory. The disks
/// come back.
pub fn run_then_checkpoint<D: Disk, C: Clock, S: Source, K: Sink>(
    alloc: Global,
    disk_a: D,
    disk_b: D,
    salt: u64,
    clock: &C,
    max_jump: u32,
    input: &mut S,
    output: &mut K,
) -> (u8, D, D)
    ensures done { IsCheckpointRun (C.reads clock.now) max_jump salt (outside_of D.Disk S.Source K.Sink disk_a disk_b input.old output.old) (outside_of D.Disk S.Source K.Sink result.1 result.2 input.new output.new) result.0 }
    ensures usage { result.0 ≢ 2 }
{
    let mut node = match open_node(alloc, disk_a, disk_b, salt, output) {
        Ok(node) => node,
        Err(failed) => return failed,
    };
    let ran = run_status(alloc, &mut node, clock, max_jump, input, output);
    let status = end_run(&mut node, ran);
    let (disk_a, disk_b) = node.close();
    (status, disk_a, disk_b)
}

// Makes a checkpoint behind a run with this status, where it answered all its lines.
fn end_run<D: Disk>(node: &mut Node<D>, ran: u8) -> u8
    requires running { (refused : Bool) → ran ≡ status_by refused → node_stopped node.old ≡ None }
    ensures early { ((refused : Bool) → ran ≢ status_by refused) → (result ≡ ran) × (node_disks node.new ≡ node_disks node.old) }
    ensures ends { (refused : Bool) → ran ≡ status_by refused → EndsCheckpoint (node_disks node.old) (node_disks node.new) ran result }
    ensures has { (refused : Bool) → ran ≡ status_by refused → IsKept node.old → (salt : ℕ) → HasCheckpoint salt (node_disks node.old) (node_disks node.new) ran result }
    ensures honesty { SameHonesty (node_disks node.old) (node_disks node.new) }
{
    if ran > 1 {
        return ran;
    }
    checkpoint_status(node, ran)
}

/// Makes a checkpoint behind a server with this status, where one is asked for and it served to a good end,
/// at 0. The status is the server's, or of the checkpoint 5 for a disk that failed and 7 for want of memory.
pub fn end_server<D: Disk>(node: &mut Node<D>, served: u8, checkpoint: bool) -> u8
    requires running { served ≡ 0 → node_stopped node.old ≡ None }
    ensures unasked { checkpoint ≡ false → (result ≡ served) × (node_disks node.new ≡ node_disks node.old) }
    ensures early { served ≢ 0 → (result ≡ served) × (node_disks node.new ≡ node_disks node.old) }
    ensures ends { checkpoint ≡ true → served ≡ 0 → EndsCheckpoint (node_disks node.old) (node_disks node.new) served result }
    ensures has { checkpoint ≡ true → served ≡ 0 → IsKept node.old → (salt : ℕ) → HasCheckpoint salt (node_disks node.old) (node_disks node.new) served result }
    ensures honesty { SameHonesty (node_disks node.old) (node_disks node.new) }
{
    if checkpoint && served == 0 {
        return checkpoint_status(node, served);
    }
    served
}

// Makes a checkpoint behind a run or a server with the status 0 or 1, and gives the status that tells of both.
fn checkpoint_status<D: Disk>(node: &mut Node<D>, ran: u8) -> u8
    requires whole { ran ≤ 1 }
    requires running { node_stopped node.old ≡ None }
    ensures ends { EndsCheckpoint (node_disks node.old) (node_disks node.new) ran result }
    ensures has { IsKept node.old → (salt : ℕ) → HasCheckpoint salt (node_disks node.old) (node_disks node.new) ran result }
    ensures honesty { SameHonesty (node_disks node.old) (node_disks node.new) }
{
    match node.checkpoint() {
        Ok(_turned) => ran,
        Err(refusal) => status_of_refusal(&refusal),
    }
}

// The status where a checkpoint was refused for this.
fn status_of_refusal(refusal: &Refusal) -> u8
    ensures { result ≡ checkpoints.status_of_refusal refusal.now }
{
    match refusal {
        Refusal::OutOfMemory => 7,
        _ => 5,
    }
}
