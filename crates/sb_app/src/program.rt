// The program over whatever disks, streams, clock, doors and link it is handed.
ghost use Rattle.std.specs.Prelude.{◌≡◌, ◌≢◌, [], map, false, None, Some, IfSome, IsSome};
ghost use Rattle.sb_journal.specs.Disks.{disks_of, AreHonest, KeepsAside};
ghost use Rattle.sb_words.specs.Words.{checkpoint_in, command_in, max_jump_in};
ghost use Rattle.sb_words.specs.declared.command.Command.TheVariants.{Client, Serve};
ghost use Rattle.sb_app.specs.Outside.{outside_of};
ghost use Rattle.sb_app.specs.Clients.{exchanges_of};
ghost use Rattle.sb_app.specs.Calls.{IsCall, IsNamed, task_in};
ghost use Rattle.sb_app.specs.Calls as calls;
ghost use Rattle.sb_app.specs.Servings.{limits_for, IsNamedServer};

use crate::alone::carry_out;
use crate::notices::{Notice, Watcher};
use crate::serving::serve_over;
use crate::task::{Named, Task};
use sb_outside::{Clock, Disk, Door, Link, Lobby, Sink, Source};
use sb_rest::Access;
use sb_server::Limits;
use sb_words::{Command, Form, WordsFault, read_form};
use std::alloc::Global;
use std::sync::Wait;
use std::thread::Threads;

/// Does what the words name over these disks, streams and link, without waiting for anybody, and
/// gives the disks back; to it the words of a server are none. The status of a run is 0 where all
/// input was answered, 1 where one of the replies is a refusal too, that of a check, a look or a drill 0; 2 for words
/// that name nothing, 3 to 5 for a fault of the input, the output or a disk, 6 for a journal that
/// can't be trusted, 7 for want of memory, 10 once 2^40 bytes were read and 14 before a line that is
/// more days ahead of the clock than the words allow; a client has also 8 for a fault of its link and
/// 9 for a response without a reply line. Behind a run at 0 or 1 a checkpoint is made where the words
/// ask for one, and a fault of it at 5 or 7 is the status. The salt is that of a new journal.
pub fn top_alone<D: Disk, C: Clock, S: Source, K: Sink, N: Link>(
    alloc: Global,
    words: &[&str],
    disk_a: D,
    disk_b: D,
    salt: u64,
    clock: &C,
    input: &mut S,
    output: &mut K,
    link: &mut N,
) -> (u8, D, D)
    ensures done { IsCall (C.reads clock.now) (max_jump_in (map (λ w. w.now) words.now)) (task_in (map (λ w. w.now) words.now)) salt (outside_of D.Disk S.Source K.Sink disk_a disk_b input.old output.old) (outside_of D.Disk S.Source K.Sink result.1 result.2 input.new output.new) (exchanges_of [] N.Link link.old) (exchanges_of [] N.Link link.new) result.0 }
    ensures usage_alone { result.0 ≡ 2 → (result.1 ≡ disk_a) × (result.2 ≡ disk_b) × (input.new ≡ input.old) }
    ensures client_alone { command_in (map (λ w. w.now) words.now) ≡ Some Client → (result.1 ≡ disk_a) × (result.2 ≡ disk_b) }
    ensures aside { checkpoint_in (map (λ w. w.now) words.now) ≡ false → AreHonest (disks_of D.Disk disk_a disk_b) → KeepsAside salt (disks_of D.Disk disk_a disk_b) (disks_of D.Disk result.1 result.2) }
    ensures link { command_in (map (λ w. w.now) words.now) ≢ Some Client → link.new ≡ link.old }
{
    let named = named_task(alloc, words);
    carry_out(
        alloc,
        named,
        disk_a,
        disk_b,
        salt,
        clock,
        input,
        output,
        &[],
        link,
    )
}

/// Does what the words name over what it is handed. A server (`serve`) serves the connections of these
/// doors to whom `access` lets in, each door by a worker, all in the calling thread,
/// which waits in the lobby, and ends once all workers have; its status is 0, 4 to 8 or 14 as
/// `serve_over` says, and the watcher is told of it; where the words let it make checkpoints by itself, all
/// callers wait while one is written. Where they ask for one at the end it is made behind a status 0, and its
/// fault, 5 or 7, is the status. All else is `top_alone`, and the doors, the lobby
/// and the watcher aren't used.
#[tactic(auto, using(crate::proofs::Calls::unnamed))]
pub fn top<
    T: Threads + Wait + Sync,
    D: Disk + Send,
    C: Clock + Sync,
    S: Source,
    K: Sink,
    R: Door + Send,
    L: Lobby + Sync,
    N: Link,
    W: Watcher,
>(
    rt: &T,
    alloc: Global,
    words: &[&str],
    access: &Access,
    disk_a: D,
    disk_b: D,
    salt: u64,
    clock: &C,
    input: &mut S,
    output: &mut K,
    doors: &mut Vec<R>,
    lobby: &L,
    key: &[u8],
    link: &mut N,
    watcher: &W,
) -> (u8, Option<(D, D)>)
where
    R::Conn: Send,
    ensures done { command_in (map (λ w. w.now) words.now) ≢ Some Serve
        → IfSome result.1 (λ disks. IsCall (C.reads clock.now) (max_jump_in (map (λ w. w.now) words.now)) (task_in (map (λ w. w.now) words.now)) salt (outside_of D.Disk S.Source K.Sink disk_a disk_b input.old output.old) (outside_of D.Disk S.Source K.Sink disks.0 disks.1 input.new output.new) (exchanges_of key.now N.Link link.old) (exchanges_of key.now N.Link link.new) result.0) }
    ensures serves { command_in (map (λ w. w.now) words.now) ≡ Some Serve → IfSome result.1 (λ disks. IsNamedServer R.Door R.Conn.Conn (C.reads clock.now) access.now (map (λ w. w.now) words.now) salt
        (outside_of D.Disk S.Source K.Sink disk_a disk_b input.old output.old) (outside_of D.Disk S.Source K.Sink disks.0 disks.1 input.new output.new) doors.old.items doors.new.items result.0) }
    ensures usage { result.0 ≡ 2 → command_in (map (λ w. w.now) words.now) ≡ None }
    ensures usage_alone { result.0 ≡ 2 → (result.1 ≡ Some (disk_a, disk_b)) × (input.new ≡ input.old) }
    ensures client_alone { command_in (map (λ w. w.now) words.now) ≡ Some Client → result.1 ≡ Some (disk_a, disk_b) }
    ensures back { IsSome result.1 }
    ensures aside { checkpoint_in (map (λ w. w.now) words.now) ≡ false → AreHonest (disks_of D.Disk disk_a disk_b) → command_in (map (λ w. w.now) words.now) ≢ Some Serve → IfSome result.1 (λ disks. KeepsAside salt (disks_of D.Disk disk_a disk_b) (disks_of D.Disk disks.0 disks.1)) }
    ensures link { command_in (map (λ w. w.now) words.now) ≢ Some Client → link.new ≡ link.old }
    ensures input { command_in (map (λ w. w.now) words.now) ≡ Some Serve → input.new ≡ input.old }
    ensures doors { command_in (map (λ w. w.now) words.now) ≢ Some Serve → doors.new ≡ doors.old }
{
    let form = match read_form(alloc, words) {
        Ok(form) => form,
        Err(fault) => {
            let (status, disk_a, disk_b) = carry_out(
                alloc,
                Err(fault),
                disk_a,
                disk_b,
                salt,
                clock,
                input,
                output,
                key,
                link,
            );
            return (status, Some((disk_a, disk_b)));
        }
    };
    let Some(task) = task_of(&form) else {
        let (status, disk_a, disk_b) = serve_over(
            rt,
            alloc,
            access,
            limits_of(form.request_time, form.idle_time),
            disk_a,
            disk_b,
            salt,
            clock,
            output,
            doors,
            lobby,
            form.connections,
            form.max_jump,
            form.checkpoint_after,
            form.checkpoint,
            watcher,
        );
        watcher.tell(Notice::Ended { status });
        return (status, Some((disk_a, disk_b)));
    };
    let (status, disk_a, disk_b) = carry_out(
        alloc,
        Ok(Named {
            task,
            max_jump: form.max_jump,
        }),
        disk_a,
        disk_b,
        salt,
        clock,
        input,
        output,
        key,
        link,
    );
    (status, Some((disk_a, disk_b)))
}

// The limits of time of so many seconds for a request and for a connection without one.
fn limits_of(request_time: u32, idle_time: u32) -> Limits
    ensures { result ≡ limits_for request_time idle_time }
{
    Limits {
        request_ms: u64::from(request_time) * 1000,
        idle_ms: u64::from(idle_time) * 1000,
    }
}

// The task of a form, which waits for nobody; a server's has none.
fn task_of(form: &Form<'_>) -> Option<Task>
    ensures { result ≡ calls.task_of form.now.checkpoint form.now.look form.now.count form.now.seed form.now.command }
{
    match form.command {
        Command::Run => Some(run_task(form.checkpoint)),
        Command::Check => Some(check_task(form.look)),
        Command::Client => Some(Task::Client),
        Command::Serve => None,
        Command::Drill => Some(Task::Drill {
            count: form.count,
            seed: form.seed,
        }),
    }
}

fn run_task(checkpoint: bool) -> Task
    ensures { result ≡ calls.run_task checkpoint }
{
    if checkpoint {
        Task::RunThenCheckpoint
    } else {
        Task::Run
    }
}

fn check_task(look: bool) -> Task
    ensures { result ≡ calls.check_task look }
{
    if look { Task::Look } else { Task::Check }
}

// The task that these words name, without waiting for anybody.
fn named_task(alloc: Global, words: &[&str]) -> Result<Named, WordsFault>
    ensures { IsNamed (task_in (map (λ w. w.now) words.now)) (max_jump_in (map (λ w. w.now) words.now)) result }
{
    let form = match read_form(alloc, words) {
        Ok(form) => form,
        Err(fault) => return Err(fault),
    };
    match task_of(&form) {
        Some(task) => Ok(Named {
            task,
            max_jump: form.max_jump,
        }),
        None => Err(WordsFault::BadWords),
    }
}
