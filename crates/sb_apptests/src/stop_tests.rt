// Scripts over a disk that fails, or stops with the machine, at each of its calls: what the next run finds.
use sb_calls::ran;
use sb_outside::MemSink;
use std::alloc::Global;
use std::test::Fail;

static RUN: [&str; 3] = ["run", "--data", "."];

static CHECK: [&str; 2] = ["check", "--data=."];

// More than the calls of the disk in each of these runs.
const MANY_CALLS: u64 = 40;

const SETUP: &str = r#"{"at":0,"do":"create-queue","name":"q"}
{"at":0,"do":"send","to":"q","messages":[{"body":"hi"}]}
{"at":0,"do":"receive","from":"q"}
"#;

// What the lines of the setup are answered, one behind the other.
static REPLIES: [&str; 3] = [
    "{\"ok\":\"done\"}\n",
    "{\"numbers\":[1],\"ok\":\"sent\"}\n",
    "{\"message\":{\"body\":\"hi\",\"delivery\":1,\"enqueued\":0,\"enqueued_seq\":1,\"props\":{},\"seq\":1,\"sys\":{},\"token\":\"a1b2c3d4-e5f6-0718-0000-000000000001\",\"until\":60000},\"ok\":\"message\"}\n",
];

// What a check tells behind none of them, the first, the first two and all.
static CHECKS: [&str; 4] = [
    "{\"copies\":0,\"entities\":0,\"events\":0,\"made\":0,\"now\":0,\"ok\":\"check\"}\n",
    "{\"copies\":0,\"entities\":1,\"events\":1,\"made\":0,\"now\":0,\"ok\":\"check\"}\n",
    "{\"copies\":1,\"entities\":1,\"events\":2,\"made\":1,\"now\":0,\"ok\":\"check\"}\n",
    "{\"copies\":1,\"entities\":1,\"events\":3,\"made\":1,\"now\":0,\"ok\":\"check\"}\n",
];

// What a crash behind it leaves, with this byte where it may leave any; its status and its output go into these.
fn image_behind(
    alloc: Global,
    call: u64,
    fill: u8,
    status: &mut u8,
    output: &mut MemSink,
) -> Result<Vec<u8>, Fail> {
    let (ended, disk) = ran(alloc, &RUN, (&[], &[call]), SETUP, output)?;
    *status = ended;
    let image = disk.image(alloc, fill);
    drop(disk);
    Ok(image?)
}

// How many of the replies stand at the front of these bytes, and whether no more stands behind them than
// the line of a disk that failed.
fn answered(told: &[u8]) -> (usize, bool) {
    let mut left = told;
    let mut count = 0usize;
    for reply in &REPLIES {
        let Some(rest) = left.strip_prefix(reply.as_bytes()) else {
            return (
                count,
                left.is_empty() || left == b"{\"refused\":\"DiskFault\"}\n".as_slice(),
            );
        };
        left = rest;
        count = count.saturating_add(1);
    }
    (count, left.is_empty())
}

// How many events a check finds there.
fn found(alloc: Global, image: &[u8]) -> Result<usize, Fail> {
    let mut output = MemSink::new(alloc, 4096, Vec::new(alloc))?;
    let ended = ran(alloc, &CHECK, (image, &[]), "", &mut output);
    let place = CHECKS
        .iter()
        .position(|line| line.as_bytes() == output.bytes());
    drop(output);
    let (status, disk) = ended?;
    drop(disk);
    match place {
        Some(events) if status == 0 => Ok(events),
        _ => Err(Fail::from("another check")),
    }
}

// The machine stops at this call: whether the run was not stopped.
fn stop_at(alloc: Global, call: u64, fill: u8) -> Result<bool, Fail> {
    let mut output = MemSink::new(alloc, 4096, Vec::new(alloc))?;
    let mut status = 0u8;
    let image = image_behind(alloc, call, fill, &mut status, &mut output);
    let (count, is_so) = answered(output.bytes());
    drop(output);
    let events = found(alloc, image?.as_slice())?;
    let is_whole = count == 3;
    if !is_so || events < count || events > count.saturating_add(1) {
        return Err(Fail::from("another front of the script"));
    }
    if status != 5 && !(status == 0 && is_whole) {
        return Err(Fail::from("another status"));
    }
    Ok(status == 0)
}

// Each call of the disk in a run of three lines, the opening's among them, stops the machine. Whatever stands
// where a crash may leave any byte, the next opening finds the events of a front of the lines, with each that was
// answered and at most the one behind them.
#[test]
fn a_script_stops(rt: HostRuntime) -> Result<(), Fail> {
    let alloc = rt.alloc();
    let mut stops = 0u64;
    for call in 0..MANY_CALLS {
        let is_over = stop_at(alloc, call, 0xff)?;
        assert_eq!(rt; stop_at(alloc, call, 0x01)?, is_over);
        if !is_over {
            stops = stops.saturating_add(1);
        }
    }
    // four for each record, and those of the opening before
    assert!(rt; stops > 12 && stops < MANY_CALLS);
    Ok(())
}

const NUMBERED: &str = r#"{"at":0,"do":"create-queue","name":"q"}
{"at":0,"client":"c","do":"send","messages":[{"body":"hi"}],"number":1,"to":"q"}
"#;

const AGAIN: &str =
    r#"{"at":0,"client":"c","do":"send","messages":[{"body":"hi"}],"number":1,"to":"q"}
{"do":"counts","entity":"q"}
"#;

const FAILS: &str = "{\"ok\":\"done\"}\n{\"refused\":\"DiskFault\"}\n";

const SENT_NOW: &str =
    "{\"numbers\":[1],\"ok\":\"sent\"}\n{\"counts\":{\"dead\":0,\"main\":1,\"transfer\":0},\"ok\":\"counts\"}\n";

const SENT_BEFORE: &str =
    "{\"kept\":{\"numbers\":[1],\"ok\":\"sent\"},\"ok\":\"kept\"}\n{\"counts\":{\"dead\":0,\"main\":1,\"transfer\":0},\"ok\":\"counts\"}\n";

// What stands on the disk where this call of it fails; none where it isn't one of the numbered send's.
fn left_by(alloc: Global, call: u64) -> Result<Option<Vec<u8>>, Fail> {
    let mut output = MemSink::new(alloc, 4096, Vec::new(alloc))?;
    let ended = ran(alloc, &RUN, (&[], &[call]), NUMBERED, &mut output);
    let fails = output.bytes() == FAILS.as_bytes();
    drop(output);
    let (status, disk) = ended?;
    let bytes = disk.bytes().to_vec(alloc);
    drop(disk);
    let bytes = bytes?;
    if fails && status == 5 {
        return Ok(Some(bytes));
    }
    drop(bytes);
    Ok(None)
}

// Whether the send is carried out at once as it is sent again, or was before.
fn sent_again(alloc: Global, disk: &[u8]) -> Result<bool, Fail> {
    let mut output = MemSink::new(alloc, 4096, Vec::new(alloc))?;
    let ended = ran(alloc, &RUN, (disk, &[]), AGAIN, &mut output);
    let is_sent = output.bytes() == SENT_NOW.as_bytes();
    let is_kept = output.bytes() == SENT_BEFORE.as_bytes();
    drop(output);
    let (status, disk) = ended?;
    drop(disk);
    if status == 0 && (is_sent || is_kept) {
        return Ok(is_sent);
    }
    Err(Fail::from("another answer"))
}

// Each of the four calls of the disk that append a numbered send fails: sent again it acts once, now or before.
#[test]
fn a_failed_send_is_repeated(rt: HostRuntime) -> Result<(), Fail> {
    let alloc = rt.alloc();
    let mut sent = 0u64;
    let mut kept = 0u64;
    for call in 0..MANY_CALLS {
        if let Some(disk) = left_by(alloc, call)? {
            if sent_again(alloc, disk.as_slice())? {
                sent = sent.saturating_add(1);
            } else {
                kept = kept.saturating_add(1);
            }
        }
    }
    // only a gate that was written counts
    assert_eq!(rt; (sent, kept), (3, 1));
    Ok(())
}
