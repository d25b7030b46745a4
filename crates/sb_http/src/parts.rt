// Parts of the buffer, and the end of a chunk.
ghost use Rattle.std.specs.Prelude.{◌≡◌, ◌≤◌, ◌+◌, ◌++◌, length, take, drop, slice_range, vec_len, vec_capacity};
ghost use Rattle.sb_http.specs.Found.{EndAnswers};

use crate::fault::HttpFault;

/// What stands from a place on.
pub(crate) fn rest_of(bytes: &Vec<u8>, at: usize) -> &[u8]
    requires { at ≤ length bytes.now.items }
    ensures { result.now ≡ drop at bytes.now.items }
{
    &bytes[at..]
}

/// What stands between two places.
pub(crate) fn part_of(bytes: &Vec<u8>, from: usize, to: usize) -> &[u8]
    requires ordered { from ≤ to }
    requires within { to ≤ length bytes.now.items }
    ensures { result.now ≡ slice_range bytes.now.items from to }
{
    &bytes[from..to]
}

/// Moves so many bytes down over what was read.
pub(crate) fn pull(bytes: &mut Vec<u8>, to: usize, from: usize, n: usize)
    requires down { to ≤ from }
    requires within { from + n ≤ length bytes.old.items }
    ensures front { take (to + n) bytes.new.items ≡ take to bytes.old.items ++ take n (drop from bytes.old.items) }
    ensures others { drop (to + n) bytes.new.items ≡ drop (to + n) bytes.old.items }
    ensures len { length bytes.new.items ≡ length bytes.old.items }
    ensures capacity { vec_capacity bytes.new ≡ vec_capacity bytes.old }
{
    bytes.as_mut_slice().copy_within(from..from + n, to);
}

/// Takes out what stands between two places; where nothing does, nothing is moved.
pub(crate) fn cut(bytes: &mut Vec<u8>, from: usize, to: usize)
    requires ordered { from ≤ to }
    requires within { to ≤ length bytes.old.items }
    ensures items { bytes.new.items ≡ take from bytes.old.items ++ drop to bytes.old.items }
    ensures capacity { vec_capacity bytes.new ≡ vec_capacity bytes.old }
{
    if from == to {
        return;
    }
    let len = bytes.len();
    bytes.as_mut_slice().copy_within(to..len, from);
    bytes.truncate(len - (to - from));
}

/// Puts bytes behind what is there, in room that was taken before.
pub(crate) fn append(bytes: &mut Vec<u8>, more: &[u8])
    requires { vec_len bytes.old + length more.now ≤ vec_capacity bytes.old }
    ensures items { bytes.new.items ≡ bytes.old.items ++ more.now }
    ensures capacity { vec_capacity bytes.old ≤ vec_capacity bytes.new }
{
    let Ok(()) = bytes.extend_from_slice(more) else {
        unreachable!()
    };
}

/// Whether the CR LF that ends a chunk stands here.
pub(crate) fn read_end(bytes: &[u8]) -> Result<bool, HttpFault>
    ensures { EndAnswers bytes.now result }
{
    match bytes {
        [] | [b'\r'] => Ok(false),
        [b'\r', b'\n', ..] => Ok(true),
        _ => Err(HttpFault::BadHead),
    }
}
