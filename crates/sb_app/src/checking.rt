// Telling the numbers of a namespace.
ghost use Rattle.std.specs.Prelude.{◌≡◌, None, IfOk, string_bytes};
ghost use Rattle.sb_engine.specs.Engines.{summary_of};
ghost use Rattle.sb_node.specs.Nodes.{node_state, node_last, node_stopped};
ghost use Rattle.sb_app.specs.Outside.{output_of};
ghost use Rattle.sb_app.specs.Checks.{IsLineTold};
ghost use Rattle.sb_app.specs.Checks as checks;

use sb_node::{Node, Summary};
use sb_outside::{Disk, Sink, write_all};
use std::alloc::{AllocError, Global};

/// Writes the line of the numbers of a namespace that runs. The status is 0, 4 where the output failed, or 7 for want
/// of memory.
pub fn check_status<D: Disk, K: Sink>(alloc: Global, node: &Node<D>, output: &mut K) -> u8
    ensures { node_stopped node.now ≡ None → IsLineTold (checks.check_line (summary_of (node_state node.now) (node_last node.now))) (output_of K.Sink output.old) (output_of K.Sink output.new) result }
{
    tell_numbers(alloc, node.summary(), output)
}

/// Writes the line of these numbers. The status is 0, 4 where the output failed, or 7 for want of
/// memory.
pub fn tell_numbers<K: Sink>(alloc: Global, numbers: Summary, output: &mut K) -> u8
    ensures { IsLineTold (checks.check_line numbers) (output_of K.Sink output.old) (output_of K.Sink output.new) result }
{
    let Ok(line) = check_line(alloc, numbers) else {
        return 7;
    };
    match write_all(output, line.as_bytes()) {
        Ok(()) => 0,
        Err(_) => 4,
    }
}

fn check_line(alloc: Global, summary: Summary) -> Result<String, AllocError>
    ensures { IfOk result (λ s. string_bytes s ≡ checks.check_line summary) }
{
    let Summary {
        copies,
        entities,
        events,
        made,
        now,
    } = summary;
    format!(in alloc;
        "{{\"copies\":{copies},\"entities\":{entities},\"events\":{events},\"made\":{made},\"now\":{now},\"ok\":\"check\"}}\n"
    )
}
