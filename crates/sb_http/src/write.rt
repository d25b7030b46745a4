// The bytes of responses.
ghost use Rattle.std.specs.Prelude.{◌≡◌, ◌++◌, map, codes, IfOk, OnOk};
ghost use Rattle.std.specs.List.{flat_map};
ghost use Rattle.std.specs.Fmt.{decimal};
ghost use Rattle.sb_http.specs.Responses.{field_in, said_in, field_line, status_line, has_no_length, length_fields, end_fields, response_bytes};

use crate::response::{Header, Response, Status};
use std::alloc::{AllocError, Global};

#[tactic(auto, unfolding(crate::specs::Responses::field_line))]
fn push_field(out: &mut Vec<u8>, name: &[u8], value: &[u8]) -> Result<(), AllocError>
    ensures { OnOk result (out.new.items ≡ out.old.items ++ field_line (name.now, value.now)) }
{
    out.extend_from_slice(name)?;
    out.extend_from_slice(b": ")?;
    out.extend_from_slice(value)?;
    out.extend_from_slice(b"\r\n")
}

#[tactic(auto, unfolding(crate::specs::Responses::status_line))]
fn push_status(alloc: Global, out: &mut Vec<u8>, status: Status) -> Result<(), AllocError>
    ensures { OnOk result (out.new.items ≡ out.old.items ++ status_line status) }
{
    let code = status.code().to_string(alloc)?;
    out.extend_from_slice(b"HTTP/1.1 ")?;
    out.extend_from_slice(code.as_bytes())?;
    out.extend_from_slice(b" ")?;
    out.extend_from_slice(status.phrase())?;
    out.extend_from_slice(b"\r\n")
}

fn push_headers(out: &mut Vec<u8>, headers: &[Header]) -> Result<(), AllocError>
    ensures { OnOk result (out.new.items ≡ out.old.items ++ flat_map field_line (map field_in headers.now)) }
{
    for header in headers {
        push_field(out, &header.name, &header.value)?;
    }
    Ok(())
}

// Whether it has no length.
fn has_no_length(status: Status) -> bool
    ensures { result ≡ has_no_length status }
{
    match status {
        Status::NoContent => true,
        _ => false,
    }
}

fn push_count(alloc: Global, out: &mut Vec<u8>, len: usize) -> Result<(), AllocError>
    ensures { OnOk result (out.new.items ≡ out.old.items ++ field_line (codes "Content-Length", decimal len)) }
{
    let digits = len.to_string(alloc)?;
    push_field(out, b"Content-Length", digits.as_bytes())
}

#[tactic(auto, using(crate::proofs::Written::length_written))]
fn push_length(
    alloc: Global,
    out: &mut Vec<u8>,
    status: Status,
    len: usize,
) -> Result<(), AllocError>
    ensures { OnOk result (out.new.items ≡ out.old.items ++ flat_map field_line (length_fields status len)) }
{
    if has_no_length(status) {
        return Ok(());
    }
    push_count(alloc, out, len)
}

fn push_end(out: &mut Vec<u8>, closes: bool) -> Result<(), AllocError>
    ensures { OnOk result (out.new.items ≡ out.old.items ++ flat_map field_line (end_fields closes)) }
{
    if closes {
        return push_field(out, b"Connection", b"close");
    }
    Ok(())
}

/// The bytes of a response: its status line, its headers in order, its length but at 204, the end of
/// the connection where there is one, and its body.
pub fn write_response(alloc: Global, response: &Response) -> Result<Vec<u8>, AllocError>
    ensures { IfOk result (λ bytes. bytes.items ≡ response_bytes (said_in response.now)) }
{
    let mut out = Vec::new(alloc);
    push_status(alloc, &mut out, response.status)?;
    push_headers(&mut out, &response.headers)?;
    push_length(alloc, &mut out, response.status, response.body.len())?;
    push_end(&mut out, response.closes)?;
    out.extend_from_slice(b"\r\n")?;
    out.extend_from_slice(&response.body)?;
    Ok(out)
}
