// Answering a line of the script.
ghost use Rattle.std.specs.Prelude.{◌≡◌, ◌≢◌, None, Ok, Err, OnOk, IfOk, IfErr};
ghost use Rattle.sb_outside.specs.Streams.{Gains};
ghost use Rattle.sb_machine.specs.Consistent.{IsConsistent};
ghost use Rattle.sb_machine.specs.Ordered.{IsActInOrder};
ghost use Rattle.sb_lines.specs.Replies.{answer_line};
ghost use Rattle.sb_journal.specs.Disks.{HaveFailed, AreQuiet, SameHonesty};
ghost use Rattle.sb_node.specs.Nodes.{node_state, node_stopped, node_aside, node_disks, IsKept, IsOneOf, StayOneOf};
ghost use Rattle.sb_app.specs.Outside.{output_of};
ghost use Rattle.sb_app.specs.Lines.{IsLineInOrder};
ghost use Rattle.sb_app.specs.Runs.{kind_of, states_left, states_of, IsAnswered};
ghost use Rattle.sb_app.specs.Endings.{IsReplyCut, IsCutAt};
ghost use Rattle.sb_app.specs.declared.ending.RunEnd.TheVariants.{DiskFault};
ghost use Rattle.sb_app.specs.declared.script_line.ScriptLine.TheVariants.{Request};

use crate::ending::RunEnd;
use crate::final_line::write_final_line;
use crate::script_line::ScriptLine;
use sb_lines::{Form, disk_fault_line, out_of_memory_line, reply_line};
use sb_machine::{Answer, Refusal, TimedCall, at_part_or_whole};
use sb_model::Text;
use sb_node::Node;
use sb_outside::{Disk, Sink, write_all};
use std::alloc::Global;

/// What kind of answer a call got.
#[derive(Clone, Copy, PartialEq, Eq)]
pub enum AnswerKind {
    Accepted,
    Refused,
    Failed,
    Wanting,
}

/// What kind this answer is of.
pub(crate) fn kind_of_answer(answer: &Answer) -> AnswerKind
    ensures { result ≡ kind_of answer.now }
{
    match answer {
        Ok(_) => AnswerKind::Accepted,
        Err(Refusal::DiskFault) | Err(Refusal::Stopped { .. }) => AnswerKind::Failed,
        Err(Refusal::OutOfMemory) => AnswerKind::Wanting,
        Err(_) => AnswerKind::Refused,
    }
}

// Writes the line of an answer in this form.
fn write_answer<K: Sink>(
    alloc: Global,
    form: Form,
    answer: Answer,
    output: &mut K,
) -> Result<(), RunEnd>
    ensures ok { OnOk result (Gains (K.given output.old) (K.given output.new) (answer_line form answer)) }
    ensures err { IfErr result (λ e. IsReplyCut (answer_line form answer) (output_of K.Sink output.old) (output_of K.Sink output.new) e) }
    ensures passed { OnOk result (K.count output.new ≡ K.count output.old) }
{
    let spelled = reply_line(alloc, form, &answer);
    drop(answer);
    let Ok(line) = spelled else {
        return Err(RunEnd::OutOfMemory);
    };
    match write_all(output, line.as_bytes()) {
        Ok(()) => Ok(()),
        Err(_) => Err(RunEnd::WriteFault),
    }
}

// Makes a call and writes the line of its answer; says whether it was refused.
fn dispatch_call<D: Disk, K: Sink>(
    alloc: Global,
    node: &mut Node<D>,
    asked: &TimedCall,
    form: Form,
    output: &mut K,
) -> Result<bool, RunEnd>
    requires running { node_stopped node.old ≡ None }
    requires consistent { IsConsistent (node_state node.old) }
    requires order { IsActInOrder asked.now.call.act }
    ensures done { IfOk result (IsAnswered (node_state node.old) (Request asked.now form) (output_of K.Sink output.old) (output_of K.Sink output.new) (node_state node.new)) }
    ensures cut { IfErr result (IsCutAt (node_state node.old) (Request asked.now form) (output_of K.Sink output.old) (output_of K.Sink output.new) (node_state node.new)) }
    ensures running { OnOk result (node_stopped node.new ≡ None) }
    ensures consistent { IsConsistent (node_state node.new) }
    ensures kept { IsKept node.old → result ≢ Err DiskFault → IsKept node.new }
    ensures undecided { IsKept node.old → result ≡ Err DiskFault → IsOneOf (node_disks node.new) (states_left (node_state node.old) (Request asked.now form)) }

    // At each moment a crash leads to the state before the line or to the one after it; where the run ends at it also to that with its tick.
    ensures any_moment { IsKept node.old → OnOk result (StayOneOf (node_disks node.old) (node_disks node.new) (states_of (node_state node.old) (Request asked.now form))) }
    ensures last_moments { IsKept node.old → StayOneOf (node_disks node.old) (node_disks node.new) (states_left (node_state node.old) (Request asked.now form)) }
    ensures passed { OnOk result (AreQuiet (node_disks node.old) (node_disks node.new) × (K.count output.new ≡ K.count output.old)) }
    ensures disk_fault { result ≡ Err DiskFault → HaveFailed (node_disks node.old) (node_disks node.new) }
    ensures disk_quiet { IfErr result (λ e. e ≢ DiskFault → AreQuiet (node_disks node.old) (node_disks node.new)) }
    ensures honesty { SameHonesty (node_disks node.old) (node_disks node.new) }
    ensures aside { node_aside node.new ≡ node_aside node.old }
{
    let answer = node.step(asked.reading, &asked.call);
    match kind_of_answer(&answer) {
        AnswerKind::Failed => {
            drop(answer);
            write_final_line(output, disk_fault_line());
            Err(RunEnd::DiskFault)
        }
        AnswerKind::Wanting => {
            drop(answer);
            write_final_line(output, out_of_memory_line());
            Err(RunEnd::OutOfMemory)
        }
        AnswerKind::Accepted => {
            write_answer(alloc, form, answer, output)?;
            Ok(false)
        }
        AnswerKind::Refused => {
            write_answer(alloc, form, answer, output)?;
            Ok(true)
        }
    }
}

/// Answers a line; says whether the answer is a refusal.
pub fn dispatch_line<D: Disk, K: Sink>(
    alloc: Global,
    node: &mut Node<D>,
    line: ScriptLine,
    output: &mut K,
) -> Result<bool, RunEnd>
    requires running { node_stopped node.old ≡ None }
    requires consistent { IsConsistent (node_state node.old) }
    requires order { IsLineInOrder line }
    ensures done { IfOk result (IsAnswered (node_state node.old) line (output_of K.Sink output.old) (output_of K.Sink output.new) (node_state node.new)) }
    ensures cut { IfErr result (IsCutAt (node_state node.old) line (output_of K.Sink output.old) (output_of K.Sink output.new) (node_state node.new)) }
    ensures running { OnOk result (node_stopped node.new ≡ None) }
    ensures consistent { IsConsistent (node_state node.new) }
    ensures kept { IsKept node.old → result ≢ Err DiskFault → IsKept node.new }
    ensures undecided { IsKept node.old → result ≡ Err DiskFault → IsOneOf (node_disks node.new) (states_left (node_state node.old) line) }

    // At each moment a crash leads to the state before the line or to the one after it; where the run ends at it also to that with its tick.
    ensures any_moment { IsKept node.old → OnOk result (StayOneOf (node_disks node.old) (node_disks node.new) (states_of (node_state node.old) line)) }
    ensures last_moments { IsKept node.old → StayOneOf (node_disks node.old) (node_disks node.new) (states_left (node_state node.old) line) }
    ensures passed { OnOk result (AreQuiet (node_disks node.old) (node_disks node.new) × (K.count output.new ≡ K.count output.old)) }
    ensures disk_fault { result ≡ Err DiskFault → HaveFailed (node_disks node.old) (node_disks node.new) }
    ensures disk_quiet { IfErr result (λ e. e ≢ DiskFault → AreQuiet (node_disks node.old) (node_disks node.new)) }
    ensures honesty { SameHonesty (node_disks node.old) (node_disks node.new) }
    ensures aside { node_aside node.new ≡ node_aside node.old }
{
    match line {
        ScriptLine::Blank => Ok(false),
        ScriptLine::Malformed { part, key } => {
            let answer = Err(at_part_or_whole(part, Refusal::BadCall { key }));
            write_answer(alloc, Form::Plain, answer, output)?;
            Ok(true)
        }
        ScriptLine::Request(asked, form) => {
            let answered = dispatch_call(alloc, node, &asked, form, output);
            drop(asked);
            answered
        }
    }
}
