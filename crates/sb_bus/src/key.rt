// The key in a file.
use sb_outside::made;
use std::fs;

// The fewest and the most characters of a key.
const SHORTEST: usize = 16;

const LONGEST: usize = 256;

/// The key that is the first line of a file, or no key where none is named. Of a file that can't be read,
/// or whose first line isn't 16 to 256 visible characters of ASCII, a line on standard error tells, and
/// there is none.
pub fn key_in(rt: &HostRuntime, file: &str) -> Option<Vec<u8>> {
    if file.is_empty() {
        return Some(Vec::new(rt.alloc()));
    }
    let bytes = made(rt, file, "see that it may be read", fs::read(rt, file))?;
    let line = first_line(&bytes);
    if !is_key(line) {
        let _ = eprintln!(rt;
            "bus: {file}: the first line is no key; write one of 16 to 256 visible ASCII characters"
        );
        return None;
    }
    line.to_vec(rt.alloc()).ok()
}

fn first_line(bytes: &[u8]) -> &[u8] {
    match bytes.iter().position(|b| *b == b'\n') {
        Some(end) => &bytes[..end],
        None => bytes,
    }
}

fn is_key(line: &[u8]) -> bool {
    SHORTEST <= line.len() && line.len() <= LONGEST && line.iter().all(|b| b.is_ascii_graphic())
}
