// Runs with a checkpoint at their end over disks that fail, or stop with the machine, at each of their calls:
// what the next run finds.
use sb_calls::{ONE_EVENT, ran_on_both};
use sb_outside::{MemDisk, MemSink};
use std::alloc::{AllocError, Global};
use std::test::Fail;

static RUN: [&str; 3] = ["run", "--data=.", "--checkpoint"];

static CHECK: [&str; 2] = ["check", "--data=."];

// Of the queue of the one event.
const ONE: &str =
    "{\"copies\":0,\"entities\":1,\"events\":1,\"made\":0,\"now\":0,\"ok\":\"check\"}\n";

// More than the calls of either disk in such a run, and a call that none has.
const MANY_CALLS: u64 = 40;

const NO_CALL: u64 = u64::MAX;

fn image_of(alloc: Global, disk: MemDisk, fill: u8) -> Result<Vec<u8>, AllocError> {
    let image = disk.image(alloc, fill);
    drop(disk);
    image
}

// What a crash behind such a run leaves of both disks, with this byte where it may leave any; its status goes
// into this one. It writes no reply.
fn images_behind(
    alloc: Global,
    calls: (u64, u64),
    fill: u8,
    status: &mut u8,
) -> Result<(Vec<u8>, Vec<u8>), Fail> {
    let mut output = MemSink::new(alloc, 4096, Vec::new(alloc))?;
    let ended = ran_on_both(
        alloc,
        &RUN,
        (&ONE_EVENT, &[calls.0]),
        (&[], &[calls.1]),
        "",
        &mut output,
    );
    let is_silent = output.bytes().is_empty();
    drop(output);
    let (ended, disk_a, disk_b) = ended?;
    *status = ended;
    let image_a = image_of(alloc, disk_a, fill);
    let image_b = image_of(alloc, disk_b, fill);
    if is_silent {
        return Ok((image_a?, image_b?));
    }
    Err(Fail::from("a reply was written"))
}

// Whether a check of these bytes finds the event.
fn is_found(alloc: Global, image_a: &[u8], image_b: &[u8]) -> Result<bool, Fail> {
    let mut output = MemSink::new(alloc, 4096, Vec::new(alloc))?;
    let ended = ran_on_both(
        alloc,
        &CHECK,
        (image_a, &[]),
        (image_b, &[]),
        "",
        &mut output,
    );
    let is_told = output.bytes() == ONE.as_bytes();
    drop(output);
    let (status, disk_a, disk_b) = ended?;
    drop(disk_a);
    drop(disk_b);
    Ok(is_told && status == 0)
}

// The machine stops at these calls: whether the run was not stopped. Then disk b's file counts.
fn stop_at(alloc: Global, calls: (u64, u64), fill: u8) -> Result<bool, Fail> {
    let mut status = 0u8;
    let (image_a, image_b) = images_behind(alloc, calls, fill, &mut status)?;
    if !is_found(alloc, &image_a, &image_b)? {
        return Err(Fail::from("the event isn't found"));
    }
    let has_turned = image_a.starts_with(&[0]) && image_b.starts_with(&[1]);
    match status {
        0 if has_turned => Ok(true),
        5 => Ok(false),
        _ => Err(Fail::from("another status")),
    }
}

// At how many of its calls a disk stops the run, whichever bytes a crash leaves where it may leave any.
fn stops_of(alloc: Global, is_first: bool) -> Result<u64, Fail> {
    let mut stops = 0u64;
    for call in 0..MANY_CALLS {
        let calls = if is_first {
            (call, NO_CALL)
        } else {
            (NO_CALL, call)
        };
        let is_over = stop_at(alloc, calls, 0xff)?;
        if stop_at(alloc, calls, 0x01)? != is_over {
            return Err(Fail::from("another end"));
        }
        if !is_over {
            stops = stops.saturating_add(1);
        }
    }
    Ok(stops)
}

// Each call of either disk stops the machine, those of the opening among them: the event is found there by the
// next run, in the old file or in the base of the new one.
#[test]
fn a_checkpoint_stops(rt: HostRuntime) -> Result<(), Fail> {
    let first = stops_of(rt.alloc(), true)?;
    let second = stops_of(rt.alloc(), false)?;
    // on disk a the last two close the file, on disk b the last two open its gate
    assert!(rt; first > 2 && first < MANY_CALLS);
    assert!(rt; second > 5 && second < MANY_CALLS);
    Ok(())
}
