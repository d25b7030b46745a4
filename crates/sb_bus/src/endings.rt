// What is said of a status as the program ends.

/// Says on standard error what a status means of which nothing was said as it came: what failed, on which
/// folder, and what to do. Gives the status.
pub fn say(rt: &HostRuntime, status: u8, folder: &str) -> u8 {
    let _ = match status {
        6 => eprintln!(rt;
            "bus: {folder}: the journal is damaged at the place that the last line of the output names, and nothing was written to it; keep a copy and put a backup in its place"
        ),
        7 => eprintln!(rt;
            "bus: too little memory; start again with more: what was acknowledged is there, and the last call may have acted"
        ),
        9 => eprintln!(rt;
            "bus: the last response has no reply line; see that it is this broker that listens at the port"
        ),
        10 => eprintln!(rt;
            "bus: 2^40 bytes of input were taken; send the lines without an answer to another run"
        ),
        14 => eprintln!(rt;
            "bus: time would jump by more days than --max-jump allows; set the clock right, or allow more days"
        ),
        _ => Ok(()),
    };
    status
}
