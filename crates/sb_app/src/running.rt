// A run over script lines.
ghost use Rattle.std.specs.Prelude.{◌≡◌, ◌≢◌, ◌||◌, None, Err, IfOk, IfErr, OnOk};
ghost use Rattle.sb_outside.specs.Causes.{RoseByOne};
ghost use Rattle.sb_machine.specs.Consistent.{IsConsistent};
ghost use Rattle.sb_journal.specs.Disks.{HaveFailed, AreQuiet, SameHonesty};
ghost use Rattle.sb_node.specs.Nodes.{node_state, node_stopped, node_aside, node_disks, IsKept};
ghost use Rattle.sb_app.specs.Nodes.{outside_with};
ghost use Rattle.sb_app.specs.Runs.{IsScriptRun};
ghost use Rattle.sb_app.specs.Endings.{IsCutRun};
ghost use Rattle.sb_app.specs.declared.ending.RunEnd.TheVariants.{ReadFault, DiskFault};

use crate::dispatch::dispatch_line;
use crate::ending::{RunEnd, end_of};
use crate::jump::{hold_line, tell_jump};
use crate::script_line::parse_line;
use sb_input::Reader;
use sb_node::Node;
use sb_outside::{Clock, Disk, Sink, Source};
use std::alloc::Global;

fn either(a: bool, b: bool) -> bool
    ensures { result ≡ (a || b) }
{
    a || b
}

/// Answers each line of the input; at its end it says whether a line was refused. `Err` says why it
/// ended before: with `TimeJump` before a line whose moment is more than `max_jump` days ahead of the
/// clock, by 0 days before none.
pub fn run_script<D: Disk, C: Clock, S: Source, K: Sink>(
    alloc: Global,
    node: &mut Node<D>,
    clock: &C,
    max_jump: u32,
    input: &mut S,
    output: &mut K,
) -> Result<bool, RunEnd>
    requires running { node_stopped node.old ≡ None }
    requires consistent { IsConsistent (node_state node.old) }
    ensures done { IfOk result (IsScriptRun (C.reads clock.now) max_jump (IsKept node.old) (node_state node.old) (outside_with S.Source K.Sink node.old input.old output.old) (outside_with S.Source K.Sink node.new input.new output.new) (node_state node.new)) }
    ensures cut { IfErr result (IsCutRun (C.reads clock.now) max_jump (IsKept node.old) (node_state node.old) (outside_with S.Source K.Sink node.old input.old output.old) (outside_with S.Source K.Sink node.new input.new output.new) (node_state node.new)) }
    ensures kept { IsKept node.old → result ≢ Err DiskFault → IsKept node.new }
    ensures running { OnOk result (node_stopped node.new ≡ None) }

    // One fault more was counted of what ended the run, and none of the others.
    ensures passed { OnOk result ((S.count input.new ≡ S.count input.old) × (K.count output.new ≡ K.count output.old) × AreQuiet (node_disks node.old) (node_disks node.new)) }
    ensures read_fault { IfErr result (λ e. e ≡ ReadFault → RoseByOne (S.count input.old) (S.count input.new)) }
    ensures read_quiet { IfErr result (λ e. e ≢ ReadFault → S.count input.new ≡ S.count input.old) }
    ensures disk_fault { IfErr result (λ e. e ≡ DiskFault → HaveFailed (node_disks node.old) (node_disks node.new)) }
    ensures disk_quiet { IfErr result (λ e. e ≢ DiskFault → AreQuiet (node_disks node.old) (node_disks node.new)) }
    ensures honesty { SameHonesty (node_disks node.old) (node_disks node.new) }
    ensures aside { node_aside node.new ≡ node_aside node.old }
{
    let Ok(mut reader) = Reader::new(alloc) else {
        return Err(RunEnd::OutOfMemory);
    };
    let mut refused = false;
    'lines: loop {
        let partial = match reader.next_line(alloc, input) {
            Ok(Some(partial)) => partial,
            Ok(None) => return Ok(refused),
            Err(end) => return Err(end_of(end)),
        };
        let Ok(line) = parse_line(alloc, partial) else {
            return Err(RunEnd::OutOfMemory);
        };
        match hold_line(clock, max_jump, &line) {
            Ok(()) => {}
            Err(jump) => {
                drop(line);
                let Ok(()) = tell_jump(alloc, jump, output) else {
                    return Err(RunEnd::OutOfMemory);
                };
                return Err(RunEnd::TimeJump);
            }
        }
        let was_refused = dispatch_line(alloc, node, line, output)?;
        refused = either(refused, was_refused);
        if reader.is_done() {
            return Ok(refused);
        }
    }
}
