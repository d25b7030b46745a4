// The request of a script line.
ghost use Rattle.std.specs.Prelude.{◌≡◌, ◌++◌, IfOk, OnOk};
ghost use Rattle.sb_client.specs.Requests.{key_field, request_of};

use std::alloc::{AllocError, Global};

/// The bytes of the request that asks a server for what a script line asks for. The line is to have no line feed, and the
/// key visible ASCII characters alone; where it is empty no key is shown.
#[tactic(auto, unfolding(crate::specs::Requests::request_of))]
pub fn request_of(alloc: Global, key: &[u8], line: &[u8]) -> Result<Vec<u8>, AllocError>
    ensures { IfOk result (λ bytes. bytes.items ≡ request_of key.now line.now) }
{
    let digits = line.len().to_string(alloc)?;
    let mut out = Vec::new(alloc);
    out.extend_from_slice(b"POST /$script HTTP/1.1")?;
    out.extend_from_slice(b"\r\n")?;
    out.extend_from_slice(b"Host: localhost")?;
    out.extend_from_slice(b"\r\n")?;
    out.extend_from_slice(b"Content-Length: ")?;
    out.extend_from_slice(digits.as_bytes())?;
    out.extend_from_slice(b"\r\n")?;
    out.extend_from_slice(b"Connection: close")?;
    out.extend_from_slice(b"\r\n")?;
    push_key(&mut out, key)?;
    out.extend_from_slice(b"\r\n")?;
    out.extend_from_slice(line)?;
    Ok(out)
}

// Adds the field that shows a key, if there is one.
fn push_key(out: &mut Vec<u8>, key: &[u8]) -> Result<(), AllocError>
    ensures { OnOk result (out.new.items ≡ out.old.items ++ key_field key.now) }
{
    match key {
        [] => Ok(()),
        [_, ..] => {
            out.extend_from_slice(b"Authorization: Bearer ")?;
            out.extend_from_slice(key)?;
            out.extend_from_slice(b"\r\n")
        }
    }
}
