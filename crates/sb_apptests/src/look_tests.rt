// Looks at the disks of a table of images: each tells what a check of such disks tells, and leaves them
// byte for byte. The lines were worked out by hand.
use sb_calls::{ONE_EVENT, bytes_of, ran, sink_of};
use std::alloc::Global;
use std::test::Fail;

static CHECK: [&str; 2] = ["check", "--data=."];

static LOOK: [&str; 3] = ["check", "--data=.", "--look"];

// Of an empty namespace.
const NONE: &str = r#"{"copies":0,"entities":0,"events":0,"made":0,"now":0,"ok":"check"}"#;

// Of the queue of the one event.
const ONE: &str = r#"{"copies":0,"entities":1,"events":1,"made":0,"now":0,"ok":"check"}"#;

// What stands on disk a, and what is told of it.
#[derive(Clone, Copy)]
struct Row {
    // The journal of one event up to this length, with this byte at this place.
    length: usize,
    place: usize,
    byte: u8,
    told: &'static str,
    status: u8,
    // What a check leaves there otherwise: its byte at the end gate, or a new file.
    changes: bool,
}

// What a check does with the bytes.
#[derive(Clone, Copy)]
enum Check {
    Leaves,
    Changes,
    Refuses,
}

fn row_of(image: (usize, usize, u8), told: &'static str, check: Check) -> Row {
    let (length, place, byte) = image;
    let (status, changes) = match check {
        Check::Leaves => (0, false),
        Check::Changes => (0, true),
        Check::Refuses => (6, false),
    };
    Row {
        length,
        place,
        byte,
        told,
        status,
        changes,
    }
}

// The lines of damage, by their places.
const AT_0: &str = r#"{"disk":"a","place":0,"refused":"Damaged"}"#;

const AT_1: &str = r#"{"disk":"a","place":1,"refused":"Damaged"}"#;

const AT_9: &str = r#"{"disk":"a","place":9,"refused":"Damaged"}"#;

const AT_18: &str = r#"{"disk":"a","place":18,"refused":"Damaged"}"#;

const AT_26: &str = r#"{"disk":"a","place":26,"refused":"Damaged"}"#;

const AT_42: &str = r#"{"disk":"a","place":42,"refused":"Damaged"}"#;

const AT_86: &str = r#"{"disk":"a","place":86,"refused":"Damaged"}"#;

fn image_of(alloc: Global, row: &Row) -> Result<Vec<u8>, Fail> {
    let mut bytes = ONE_EVENT.to_vec(alloc)?;
    if let Some(byte) = bytes.get_mut(row.place) {
        *byte = row.byte;
    }
    bytes.truncate(row.length);
    Ok(bytes)
}

// What a call tells of a disk that fails at these calls, and what it leaves there.
#[derive(Drop)]
struct Outcome {
    status: u8,
    told: Vec<u8>,
    left: Vec<u8>,
}

fn outcome_of(
    alloc: Global,
    words: &[&str],
    image: &[u8],
    failing: &[u64],
    failing_output: &[u64],
) -> Result<Outcome, Fail> {
    let mut output = sink_of(alloc, 4096, failing_output)?;
    let ended = ran(alloc, words, (image, failing), "[\n", &mut output);
    let told = output.bytes().to_vec(alloc);
    drop(output);
    let (status, disk) = ended?;
    let left = bytes_of(alloc, disk)?;
    Ok(Outcome {
        status,
        told: told?,
        left,
    })
}

// Whether this line alone was told.
fn is_told(told: &[u8], line: &str) -> bool {
    told.starts_with(line.as_bytes())
        && told.ends_with(b"\n")
        && told.len() == line.len().saturating_add(1)
}

// Makes a call over these bytes, which has to end and tell as the row has it: whether it changed them.
fn changes(alloc: Global, words: &[&str], image: &[u8], row: &Row) -> Result<bool, Fail> {
    let outcome = outcome_of(alloc, words, image, &[], &[])?;
    let is_so = outcome.status == row.status && is_told(&outcome.told, row.told);
    let changes = outcome.left.as_slice() != image;
    drop(outcome);
    if is_so {
        return Ok(changes);
    }
    Err(Fail::from("a call told something else"))
}

fn try_image(alloc: Global, image: &[u8], row: &Row) -> Result<(), Fail> {
    if changes(alloc, &LOOK, image, row)? {
        return Err(Fail::from("a look changed the disk"));
    }
    if changes(alloc, &CHECK, image, row)? != row.changes {
        return Err(Fail::from("a check left something else"));
    }
    Ok(())
}

// Tries a look, and a check of the same bytes.
fn try_row(alloc: Global, row: &Row) -> Result<(), Fail> {
    let image = image_of(alloc, row)?;
    let tried = try_image(alloc, &image, row);
    drop(image);
    tried
}

static ROWS: [((usize, usize, u8), &str, Check); 23] = [
    // Whole; with a torn end, or none; with its gate closed.
    ((87, 86, 0), ONE, Check::Leaves),
    ((87, 86, 7), ONE, Check::Changes),
    ((86, 86, 0), ONE, Check::Changes),
    ((87, 42, 0), NONE, Check::Leaves),
    // No journal yet.
    ((0, 0, 0), NONE, Check::Changes),
    ((1, 0, 0), NONE, Check::Changes),
    ((42, 0, 1), NONE, Check::Changes),
    ((43, 0, 0), NONE, Check::Changes),
    // Somebody else's bytes.
    ((87, 0, 0), AT_0, Check::Refuses),
    ((87, 0, 0x58), AT_0, Check::Refuses),
    ((44, 0, 0x58), AT_0, Check::Refuses),
    // Damage of the head, of a record and of its event.
    ((87, 8, 0), AT_1, Check::Refuses),
    ((87, 9, 2), AT_9, Check::Refuses),
    ((87, 25, 0), AT_18, Check::Refuses),
    ((87, 33, 0), AT_26, Check::Refuses),
    ((87, 41, 1), AT_42, Check::Refuses),
    ((85, 0, 1), AT_42, Check::Refuses),
    ((43, 0, 1), AT_42, Check::Refuses),
    ((87, 44, 0x11), AT_42, Check::Refuses),
    ((87, 54, 2), AT_42, Check::Refuses),
    ((87, 55, 2), AT_42, Check::Refuses),
    ((87, 70, 0x20), AT_42, Check::Refuses),
    ((87, 86, 1), AT_86, Check::Refuses),
];

#[test]
fn a_look_tells_what_a_check_does(rt: HostRuntime) -> Result<(), Fail> {
    for (image, told, check) in &ROWS {
        try_row(rt.alloc(), &row_of(*image, *told, *check))?;
    }
    Ok(())
}

// The same of a disk that has one event, where these calls of the disk and of the output fail.
fn try_failing(
    alloc: Global,
    failing: &[u64],
    failing_output: &[u64],
    status: u8,
) -> Result<(), Fail> {
    let looked = outcome_of(alloc, &LOOK, &ONE_EVENT, failing, failing_output)?;
    let is_left = looked.status == status && looked.left.as_slice() == ONE_EVENT.as_slice();
    let is_good = if status == 0 {
        is_told(&looked.told, ONE)
    } else {
        looked.told.is_empty()
    };
    drop(looked);
    if !is_left {
        return Err(Fail::from("another status, or other bytes"));
    }
    if !is_good {
        return Err(Fail::from("a look told something else"));
    }
    Ok(())
}

// A look asks the disk for its length and its first bytes, then for its length and all of them, and no
// more: it doesn't even sync.
#[test]
fn a_look_reads_alone(rt: HostRuntime) -> Result<(), Fail> {
    let alloc = rt.alloc();
    try_failing(alloc, &[0], &[], 5)?;
    try_failing(alloc, &[1], &[], 5)?;
    try_failing(alloc, &[2], &[], 5)?;
    try_failing(alloc, &[3], &[], 5)?;
    try_failing(alloc, &[4], &[], 0)?;
    try_failing(alloc, &[], &[0], 4)?;
    Ok(())
}
