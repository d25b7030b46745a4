// Serving the connections of doors over the namespace of two disks.
ghost use Rattle.std.specs.Prelude.{◌≡◌, [], ℕ, nat_lt, IfErr, IfOk, string_bytes};
ghost use Rattle.sb_journal.specs.Disks.{disks_of, Disks};
ghost use Rattle.sb_node.specs.Nodes.{node_state};
ghost use Rattle.sb_node.specs.Serving.{StandsFor};
ghost use Rattle.sb_desk.specs.Desks.{value_of};
ghost use Rattle.sb_server.specs.Serves.{WorkerDid};
ghost use Rattle.sb_server.specs.Works.{ConnectionServed};
ghost use Rattle.sb_app.specs.Checks.{IsLineTold};
ghost use Rattle.sb_app.specs.Outside.{Input, output_of};
ghost use Rattle.sb_app.specs.Servings.{IsServer, serve_status};
ghost use Rattle.sb_app.specs.Servings as servings;
ghost use Rattle.sb_app.specs.Stages.{DeskServed, MayNotServe, MayServe, ServerEnded};

use crate::checkpointing::end_server;
use crate::jump::{hold_server, jump_status};
use crate::notices::Watcher;
use crate::opening::open_node;
use sb_desk::{Desk, NewFault, Report};
use sb_node::Node;
use sb_outside::{Clock, Disk, Door, Lobby, Sink, write_all};
use sb_rest::Access;
use sb_routes::Routes;
use sb_server::{Limits, ServeEnding, serve};
use std::alloc::{AllocError, Global};
use std::sync::Wait;
use std::thread::Threads;

/// Serves the connections of these doors, at most so many each, in the calling thread, which waits in
/// the lobby, over the namespace of these disks, to whom `access` lets in and within these limits of
/// time, and tells the numbers of its history once all workers have ended. The status is 0; 5 for a disk
/// that failed, 6 for a journal that can't be trusted, 8 for a door that failed, 7 for want of memory and
/// 4 for a fault of the output: the first of 5, 8, 7 and 4 where several came. It is 14, and no door is
/// used, where behind the opening the clock reads more than `max_jump` days past the moment of the
/// namespace, by 0 never. The salt is that of a new journal.
/// Once the records behind the base of its journal's file take more than `checkpoint_after` bytes, and at
/// least twice the bytes of the base, the next call is preceded by a checkpoint: the state is written as the
/// base of a new file on the other disk, with which the journal goes on. All callers wait meanwhile. By 0
/// there is none. With `checkpoint` one more is made behind a status 0, once all workers have ended and the
/// numbers are told: then its fault, 5 or 7, is the status.
#[tactic(auto, using(crate::proofs::Ends::unserved_server))]
pub fn serve_over<
    T: Threads + Wait + Sync,
    D: Disk + Send,
    C: Clock + Sync,
    K: Sink,
    R: Door + Send,
    L: Lobby + Sync,
    W: Watcher,
>(
    rt: &T,
    alloc: Global,
    access: &Access,
    limits: Limits,
    disk_a: D,
    disk_b: D,
    salt: u64,
    clock: &C,
    output: &mut K,
    doors: &mut Vec<R>,
    lobby: &L,
    most: u64,
    max_jump: u32,
    checkpoint_after: u64,
    checkpoint: bool,
    watcher: &W,
) -> (u8, D, D)
where
    R::Conn: Send,
    ensures { (input : Input) → IsServer checkpoint (C.reads clock.now) max_jump (nat_lt 0 checkpoint_after) (λ desk. WorkerDid R.Door (ConnectionServed R.Conn.Conn (C.reads clock.now) access.now limits) desk most) R.count salt
        (record { input = input; output = output_of K.Sink output.old; disks = disks_of D.Disk disk_a disk_b }) (record { input = input; output = output_of K.Sink output.new; disks = disks_of D.Disk result.1 result.2 })
        doors.old.items doors.new.items result.0 }
{
    let Ok(routes) = Routes::new(alloc) else {
        return (7, disk_a, disk_b);
    };
    let node = match open_held(
        alloc, disk_a, disk_b, salt, clock, max_jump, output, watcher,
    ) {
        Ok(node) => node,
        Err(failed) => {
            drop(routes);
            return failed;
        }
    };
    let served = serve_node(
        rt,
        alloc,
        &routes,
        access,
        limits,
        node,
        clock,
        output,
        doors,
        lobby,
        most,
        checkpoint_after,
        checkpoint,
    );
    drop(routes);
    served
}

// Opens the namespace of two disks, and holds it back where the clock reads too far ahead of it: then the status
// comes with the disks.
fn open_held<D: Disk, C: Clock, K: Sink, W: Watcher>(
    alloc: Global,
    disk_a: D,
    disk_b: D,
    salt: u64,
    clock: &C,
    max_jump: u32,
    output: &mut K,
    watcher: &W,
) -> Result<Node<D>, (u8, D, D)>
    ensures ok { IfOk result (λ n. MayServe (C.reads clock.now) max_jump salt (disks_of D.Disk disk_a disk_b) n × (output.new ≡ output.old)) }
    ensures err { IfErr result (λ e. MayNotServe (C.reads clock.now) max_jump salt (disks_of D.Disk disk_a disk_b) (disks_of D.Disk e.1 e.2) (output_of K.Sink output.old) (output_of K.Sink output.new) e.0) }
{
    let node = match open_node(alloc, disk_a, disk_b, salt, output) {
        Ok(node) => node,
        Err(failed) => return Err(failed),
    };
    match hold_server(clock, max_jump, node.summary(), watcher) {
        Ok(()) => Ok(node),
        Err(jump) => {
            let status = jump_status(alloc, jump, output);
            let (disk_a, disk_b) = node.close();
            Err((status, disk_a, disk_b))
        }
    }
}

// Serves the doors over a node that may serve, until all workers have ended, and ends it.
fn serve_node<
    T: Threads + Wait + Sync,
    D: Disk + Send,
    C: Clock + Sync,
    K: Sink,
    R: Door + Send,
    L: Lobby + Sync,
>(
    rt: &T,
    alloc: Global,
    routes: &Routes,
    access: &Access,
    limits: Limits,
    node: Node<D>,
    clock: &C,
    output: &mut K,
    doors: &mut Vec<R>,
    lobby: &L,
    most: u64,
    checkpoint_after: u64,
    checkpoint: bool,
) -> (u8, D, D)
where
    R::Conn: Send,
    requires stands { StandsFor node (node_state node) [] }
    ensures { (input : Input) (days salt : ℕ) (was : Disks) → MayServe (C.reads clock.now) days salt was node → IsServer checkpoint (C.reads clock.now) days (nat_lt 0 checkpoint_after) (λ desk. WorkerDid R.Door (ConnectionServed R.Conn.Conn (C.reads clock.now) access.now limits) desk most) R.count salt
        (record { input = input; output = output_of K.Sink output.old; disks = was }) (record { input = input; output = output_of K.Sink output.new; disks = disks_of D.Disk result.1 result.2 })
        doors.old.items doors.new.items result.0 }
{
    let mut node = node;
    node.go_on_after(checkpoint_after);
    match serve_desk(
        rt, alloc, routes, access, limits, node, clock, doors, lobby, most,
    ) {
        Ok((node, report, ending)) => end_serving(alloc, node, report, ending, output, checkpoint),
        Err(node) => {
            let (disk_a, disk_b) = node.close();
            (7, disk_a, disk_b)
        }
    }
}

// Serves the doors over a desk of this node, with a worker each, until all workers have ended. Without memory for the
// desk the node comes back as it was.
fn serve_desk<
    T: Threads + Wait + Sync,
    D: Disk + Send,
    C: Clock + Sync,
    R: Door + Send,
    L: Lobby + Sync,
>(
    rt: &T,
    alloc: Global,
    routes: &Routes,
    access: &Access,
    limits: Limits,
    node: Node<D>,
    clock: &C,
    doors: &mut Vec<R>,
    lobby: &L,
    most: u64,
) -> Result<(Node<D>, Report, ServeEnding), Node<D>>
where
    R::Conn: Send,
    requires stands { StandsFor node (node_state node) [] }
    ensures ok { IfOk result (λ r. DeskServed (λ desk. WorkerDid R.Door (ConnectionServed R.Conn.Conn (C.reads clock.now) access.now limits) desk most) node r.0 doors.old.items doors.new.items r.1 r.2) }
    ensures err { IfErr result (λ n. (n ≡ node) × (doors.new.items ≡ doors.old.items)) }
{
    let (desk, mut passes) = match Desk::new(alloc, node, at_least_one(doors.len())) {
        Ok(opened) => opened,
        Err(fault) => return Err(node_back(fault)),
    };
    let ending = serve(
        rt,
        alloc,
        routes,
        access,
        limits,
        &desk,
        &mut passes,
        doors,
        clock,
        lobby,
        most,
    );
    match desk.close(passes) {
        Ok((node, report)) => Ok((node, report, ending)),
        Err(_fault) => unreachable!(),
    }
}

// Tells the numbers of what was served, makes the checkpoint that is asked for, and gives the disks back.
fn end_serving<D: Disk, K: Sink>(
    alloc: Global,
    node: Node<D>,
    report: Report,
    ending: ServeEnding,
    output: &mut K,
    checkpoint: bool,
) -> (u8, D, D)
    ensures { ServerEnded checkpoint ending report node (disks_of D.Disk result.1 result.2) (output_of K.Sink output.old) (output_of K.Sink output.new) result.0 }
{
    let mut node = node;
    let told = tell_report(alloc, output, report);
    let served = status_of(node.stopped(), ending, told);
    let status = end_server(&mut node, served, checkpoint);
    let (disk_a, disk_b) = node.close();
    (status, disk_a, disk_b)
}

// A desk has at least one pass.
fn at_least_one(doors: usize) -> usize
    ensures { result ≡ servings.passes_for doors }
{
    doors.max(1)
}

// The node of which there was no desk.
fn node_back<D: Disk>(fault: NewFault<Node<D>>) -> Node<D>
    ensures { result ≡ value_of fault }
{
    let NewFault::OutOfMemory { value } = fault;
    value
}

// The first that came of a stopped namespace, of the workers, and of telling.
fn status_of(stopped: bool, ending: ServeEnding, told: u8) -> u8
    ensures { result ≡ serve_status stopped ending told }
{
    if stopped {
        return 5;
    }
    match ending {
        ServeEnding::DoorFault => 8,
        ServeEnding::OutOfMemory => 7,
        ServeEnding::Done => told,
    }
}

fn report_line(alloc: Global, report: Report) -> Result<String, AllocError>
    ensures { IfOk result (λ s. string_bytes s ≡ servings.report_line report) }
{
    let Report {
        entries,
        changing,
        refused,
    } = report;
    format!(in alloc;
        "{{\"changing\":{changing},\"entries\":{entries},\"ok\":\"report\",\"refused\":{refused}}}\n"
    )
}

// Writes the line of a report. The status is 0, 4 where the output failed, or 7 for want of memory.
fn tell_report<K: Sink>(alloc: Global, output: &mut K, report: Report) -> u8
    ensures { IsLineTold (servings.report_line report) (output_of K.Sink output.old) (output_of K.Sink output.new) result }
{
    let Ok(line) = report_line(alloc, report) else {
        return 7;
    };
    match write_all(output, line.as_bytes()) {
        Ok(()) => 0,
        Err(_) => 4,
    }
}
