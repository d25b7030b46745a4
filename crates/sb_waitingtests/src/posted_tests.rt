// Calls that are left with a desk over a node and then answered: one group, whose changes are safe by two syncs, and
// of which a disk that fails leaves all or nothing. The lines were worked out by hand.
ghost use Rattle.std.specs.Prelude.{[]};
ghost use Rattle.sb_node.specs.Nodes.{node_state};
ghost use Rattle.sb_node.specs.Serving.{StandsFor};

use crate::desks::{call_of, put_reply};
use crate::posting::{one_more, three_answers};
use sb_calls::{CallFault, ONE_EVENT, bytes_of, closed, found_behind, node_over, ran, sink_of};
use sb_desk::{Desk, NewFault, Report, Served};
use sb_machine::Answer;
use sb_node::Node;
use sb_outside::MemDisk;
use std::alloc::Global;
use std::process::Abort;
use std::sync::Wait;

static RUN: [&str; 3] = ["run", "--data", "."];

// Three calls and a look behind them, over the queue of the one event, and what comes of them.
#[derive(Clone, Copy)]
struct Row {
    // the lines of a run before
    before: &'static str,
    // the calls
    lines: [&'static str; 3],
    // their reply lines, and that of the look
    told: &'static str,
    // the entries, those that changed something and those that were refused, that of the look among them
    numbers: (u64, u64, u64),
    // the events and the live copies before the calls, and behind them
    first: (u64, u64),
    last: (u64, u64),
}

const LOOK: &str = "{\"do\":\"counts\",\"entity\":\"q\"}";

// The third finds what the other two sent.
static TWO_SENDS: Row = Row {
    before: "",
    lines: [
        "{\"at\":0,\"do\":\"send\",\"to\":\"q\",\"messages\":[{\"body\":\"hi\"}]}",
        "{\"at\":0,\"do\":\"send\",\"to\":\"q\",\"messages\":[{\"body\":\"ho\"}]}",
        LOOK,
    ],
    told: r#"{"numbers":[1],"ok":"sent"}
{"numbers":[2],"ok":"sent"}
{"counts":{"dead":0,"main":2,"transfer":0},"ok":"counts"}
{"counts":{"dead":0,"main":2,"transfer":0},"ok":"counts"}
"#,
    numbers: (4, 2, 0),
    first: (1, 0),
    last: (3, 2),
};

// What is sent is received, and something is asked that isn't there.
static ONE_REFUSED: Row = Row {
    before: "",
    lines: [
        "{\"at\":0,\"do\":\"send\",\"to\":\"q\",\"messages\":[{\"body\":\"hi\"}]}",
        "{\"at\":0,\"do\":\"receive\",\"from\":\"q\",\"mode\":\"delete\"}",
        "{\"do\":\"counts\",\"entity\":\"none\"}",
    ],
    told: r#"{"numbers":[1],"ok":"sent"}
{"message":{"body":"hi","delivery":1,"enqueued":0,"enqueued_seq":1,"props":{},"seq":1,"sys":{}},"ok":"message"}
{"refused":"EntityNotFound"}
{"counts":{"dead":0,"main":0,"transfer":0},"ok":"counts"}
"#,
    numbers: (4, 2, 1),
    first: (1, 0),
    last: (3, 0),
};

// By the reading of the first a message has expired.
static ONE_EXPIRED: Row = Row {
    before: "{\"at\":0,\"do\":\"send\",\"to\":\"q\",\"messages\":[{\"body\":\"hi\",\"ttl\":1}]}\n",
    lines: [
        "{\"at\":2000,\"do\":\"send\",\"to\":\"q\",\"messages\":[{\"body\":\"ho\"}]}",
        "{\"at\":2000,\"do\":\"receive\",\"from\":\"q\",\"mode\":\"delete\"}",
        LOOK,
    ],
    told: r#"{"numbers":[2],"ok":"sent"}
{"message":{"body":"ho","delivery":1,"enqueued":2000,"enqueued_seq":2,"props":{},"seq":2,"sys":{}},"ok":"message"}
{"counts":{"dead":0,"main":0,"transfer":0},"ok":"counts"}
{"counts":{"dead":0,"main":0,"transfer":0},"ok":"counts"}
"#,
    numbers: (5, 3, 0),
    first: (2, 1),
    last: (5, 0),
};

// What three calls are answered whose disk fails, and a look behind them.
const FAILED: &str = r#"{"refused":"DiskFault"}
{"refused":"DiskFault"}
{"refused":"DiskFault"}
{"faults":1,"refused":"Stopped"}
"#;

const FAILED_NUMBERS: (u64, u64, u64) = (4, 0, 4);

// The reply lines of these answers.
fn replies(
    rt: &impl Abort,
    alloc: Global,
    answers: (Answer, Answer, Answer),
    last: Answer,
) -> String {
    let (first, second, third) = answers;
    let mut told = String::new(alloc);
    put_reply(rt, alloc, &mut told, first);
    put_reply(rt, alloc, &mut told, second);
    put_reply(rt, alloc, &mut told, third);
    put_reply(rt, alloc, &mut told, last);
    told
}

// What a value came to, as its desk gave it back: the reply lines, and the numbers of its history. The value alone
// where there is no memory for a desk.
fn told_by<V: Served, R: Wait + Abort>(
    rt: &R,
    alloc: Global,
    value: V,
    row: &Row,
    is_at_once: bool,
) -> Result<(V, String, Report), V>
    requires stands { V.stands value (V.state value) [] }
{
    let (desk, mut passes) = match Desk::new(alloc, value, 3) {
        Ok(opened) => opened,
        Err(NewFault::OutOfMemory { value }) => return Err(value),
    };
    let first = call_of(rt, alloc, row.lines[0]);
    let second = call_of(rt, alloc, row.lines[1]);
    let third = call_of(rt, alloc, row.lines[2]);
    let answers = three_answers(rt, &desk, &mut passes, first, second, third, is_at_once);
    let asked = call_of(rt, alloc, LOOK);
    let last = one_more(rt, &desk, &mut passes, asked);
    let told = replies(rt, alloc, answers, last);
    match desk.close(passes) {
        Ok((value, report)) => Ok((value, told, report)),
        Err(_fault) => unreachable!(),
    }
}

// What came of a row over a node: the reply lines, the numbers, and disk a.
#[derive(Drop)]
struct Outcome {
    told: String,
    numbers: (u64, u64, u64),
    disk: MemDisk,
}

impl Outcome {
    // Whether this was told, with these numbers.
    fn is(&self, told: &str, numbers: (u64, u64, u64)) -> bool {
        self.told.as_str() == told && self.numbers == numbers
    }
}

fn outcome_over<R: Wait + Abort>(
    rt: &R,
    alloc: Global,
    node: Node<MemDisk>,
    row: &Row,
    is_at_once: bool,
) -> Outcome
    requires { StandsFor node (node_state node) [] }
{
    match told_by(rt, alloc, node, row, is_at_once) {
        Ok((node, told, report)) => Outcome {
            told,
            numbers: (report.entries, report.changing, report.refused),
            disk: closed(node),
        },
        Err(node) => {
            drop(closed(node));
            panic!(rt; "no memory for a desk")
        }
    }
}

// None where the disk fails as it is opened.
fn outcome_of<R: Wait + Abort>(
    rt: &R,
    alloc: Global,
    disk: (&[u8], &[u64]),
    row: &Row,
    is_at_once: bool,
) -> Option<Outcome> {
    match node_over(alloc, disk) {
        Ok(node) => Some(outcome_over(rt, alloc, node, row, is_at_once)),
        Err(CallFault::Unopened) => None,
        Err(_) => panic!(rt; "no memory for a node"),
    }
}

// The bytes of a disk that had the queue of the one event, behind a run of these lines.
fn bytes_behind(rt: &impl Abort, alloc: Global, lines: &str) -> Vec<u8> {
    let mut output = sink_of(alloc, 256, &[]).expect(rt, "memory for a sink");
    let ended = ran(alloc, &RUN, (&ONE_EVENT, &[]), lines, &mut output);
    drop(output);
    let (status, disk) = ended.expect(rt, "the run ends");
    assert_eq!(rt; status, 0);
    bytes_of(alloc, disk).expect(rt, "memory for the bytes")
}

// The syncs of a node that is opened and closed.
fn quiet_syncs(rt: &impl Abort, alloc: Global, bytes: &[u8]) -> usize {
    let node = node_over(alloc, (bytes, &[])).expect(rt, "the node opens");
    let disk = closed(node);
    let syncs = disk.syncs();
    drop(disk);
    syncs
}

// The events and the live copies that an opening finds where a crash leaves this byte wherever it may leave any.
fn found(rt: &impl Abort, alloc: Global, disk: &MemDisk, fill: u8) -> (u64, u64) {
    found_behind(alloc, disk, fill).expect(rt, "the image opens")
}

// The disk was synced so often, and has these events and live copies whatever a crash leaves.
fn assert_disk(rt: &impl Abort, alloc: Global, disk: &MemDisk, syncs: usize, wanted: (u64, u64)) {
    assert_eq!(rt; disk.syncs(), syncs);
    for fill in [0xff, 0x01] {
        assert_eq!(rt; found(rt, alloc, disk, fill), wanted);
    }
}

fn assert_told(rt: &impl Abort, outcome: &Outcome, told: &str, numbers: (u64, u64, u64)) {
    assert!(rt; outcome.is(told, numbers), "{}", outcome.told.as_str());
}

// The row comes to what it has to, whatever a crash behind it leaves, by so many syncs.
fn has_syncs<R: Wait + Abort>(
    rt: &R,
    alloc: Global,
    bytes: &[u8],
    row: &Row,
    is_at_once: bool,
    syncs: usize,
) {
    let outcome = outcome_of(rt, alloc, (bytes, &[]), row, is_at_once).expect(rt, "the node opens");
    assert_told(rt, &outcome, row.told, row.numbers);
    assert_disk(rt, alloc, &outcome.disk, syncs, row.last);
    drop(outcome);
}

// At once it takes two syncs, and four where each of its two calls that change something is answered before the
// next one is made.
fn tries_syncs<R: Wait + Abort>(rt: &R, alloc: Global, row: &Row) {
    let bytes = bytes_behind(rt, alloc, row.before);
    let quiet = quiet_syncs(rt, alloc, &bytes);
    has_syncs(rt, alloc, &bytes, row, true, quiet.saturating_add(2));
    has_syncs(rt, alloc, &bytes, row, false, quiet.saturating_add(4));
    drop(bytes);
}

// More than the calls of the disk in one run.
const MANY_CALLS: u64 = 24;

// At how many calls of the disk the three failed, and behind how many of these a crash left all that they changed,
// with the byte 0xff wherever it may leave any, and with 0x01.
#[derive(Clone, Copy)]
struct Stops {
    failed: u64,
    left_by_ff: u64,
    left_by_01: u64,
}

// 1 where a crash leaves all that the calls changed, 0 where it leaves nothing of it.
fn left_by(rt: &impl Abort, alloc: Global, disk: &MemDisk, fill: u8, row: &Row) -> u64 {
    let found = found(rt, alloc, disk, fill);
    if found == row.last {
        return 1;
    }
    assert_eq!(rt; found, row.first);
    0
}

// Counts three calls that failed.
fn count_stop(rt: &impl Abort, alloc: Global, disk: &MemDisk, row: &Row, stops: &mut Stops) {
    let by_ff = left_by(rt, alloc, disk, 0xff, row);
    let by_01 = left_by(rt, alloc, disk, 0x01, row);
    stops.failed = stops.failed.saturating_add(1);
    stops.left_by_ff = stops.left_by_ff.saturating_add(by_ff);
    stops.left_by_01 = stops.left_by_01.saturating_add(by_01);
}

// Counts the three calls whose disk failed at this call of it: each has failed, and so has the look behind them.
fn stop_at<R: Wait + Abort>(
    rt: &R,
    alloc: Global,
    bytes: &[u8],
    row: &Row,
    call: u64,
    stops: &mut Stops,
) {
    let Some(outcome) = outcome_of(rt, alloc, (bytes, &[call]), row, true) else {
        return;
    };
    if outcome.told.as_str() != row.told {
        assert_told(rt, &outcome, FAILED, FAILED_NUMBERS);
        count_stop(rt, alloc, &outcome.disk, row, stops);
    }
    drop(outcome);
}

fn count_stops<R: Wait + Abort>(rt: &R, alloc: Global, bytes: &[u8], row: &Row) -> Stops {
    let mut stops = Stops {
        failed: 0,
        left_by_ff: 0,
        left_by_01: 0,
    };
    for call in 0..MANY_CALLS {
        stop_at(rt, alloc, bytes, row, call, &mut stops);
    }
    stops
}

// A group makes four calls of the disk, as one call does: a write behind the gate, a sync, the gate's write, a sync.
// Only where the gate may have been opened a crash leaves all of it.
fn tries_stops<R: Wait + Abort>(rt: &R, alloc: Global, row: &Row) {
    let bytes = bytes_behind(rt, alloc, row.before);
    let stops = count_stops(rt, alloc, &bytes, row);
    drop(bytes);
    assert_eq!(rt;
        (stops.failed, stops.left_by_ff, stops.left_by_01),
        (4, 0, 2)
    );
}

// Two sends that were left with a desk are answered by their numbers in the order in which they were left, and a
// look that was left behind them finds both. They are made safe by two syncs, and by four where one waits for the
// other.
#[test]
fn two_sends_share_their_syncs(rt: HostRuntime) {
    tries_syncs(&rt, rt.alloc(), &TWO_SENDS);
}

// Where the disk fails at any of its calls both sends fail, and so does the look behind them, which changes nothing;
// a call behind them finds that the node has stopped. A crash leaves both or none.
#[test]
fn two_sends_fail_together(rt: HostRuntime) {
    tries_stops(&rt, rt.alloc(), &TWO_SENDS);
}

// A receive finds what was sent in the same group, and a call that is refused has its own answer, where the disk
// doesn't fail. A crash leaves what both changed, or nothing of it.
#[test]
fn a_group_has_a_refused_call(rt: HostRuntime) {
    tries_syncs(&rt, rt.alloc(), &ONE_REFUSED);
    tries_stops(&rt, rt.alloc(), &ONE_REFUSED);
}

// Where a message has expired by the reading of the first call, the tick stands in the group, and in the numbers. It
// takes no sync of its own, also where the calls are made one by one, and a crash leaves it with the calls or not at
// all.
#[test]
fn a_group_begins_with_a_tick(rt: HostRuntime) {
    tries_syncs(&rt, rt.alloc(), &ONE_EXPIRED);
    tries_stops(&rt, rt.alloc(), &ONE_EXPIRED);
}
