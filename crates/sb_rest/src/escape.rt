// JSON without a character beyond ASCII.
ghost use Rattle.std.specs.Prelude.{◌≡◌, ◌<◌, ◌++◌, IfOk, OnOk, flat_map};
ghost use Rattle.std.specs.Char.Escape.{hex_digit_at, encode_utf16};
ghost use Rattle.sb_rest.specs.Escapes as escapes;

use std::alloc::{AllocError, Global};

/// A text of JSON with each character above U+007E escaped: the same value, in bytes that every client
/// of HTTP takes for the same characters.
#[tactic(auto, unfolding(crate::specs::Escapes::ascii_json))]
pub(crate) fn ascii_json(alloc: Global, text: &str) -> Result<Vec<u8>, AllocError>
    ensures { IfOk result (λ v. v.items ≡ escapes.ascii_json text.now) }
{
    let mut out = Vec::new(alloc);
    for c in text.chars() {
        push_char(&mut out, c)?;
    }
    Ok(out)
}

#[tactic(auto, unfolding(crate::specs::Escapes::escaped))]
fn push_char(out: &mut Vec<u8>, c: char) -> Result<(), AllocError>
    ensures { OnOk result (out.new.items ≡ out.old.items ++ escapes.escaped c) }
{
    if c <= '~' {
        out.push(c as u8)?;
        return Ok(());
    }
    push_units(out, c)
}

fn push_units(out: &mut Vec<u8>, c: char) -> Result<(), AllocError>
    ensures { OnOk result (out.new.items ≡ out.old.items ++ flat_map escapes.unit_escape (encode_utf16 c)) }
{
    let mut room = [0; 2];
    let units: &[u16] = c.encode_utf16(&mut room);
    for unit in units {
        push_unit(out, *unit)?;
    }
    Ok(())
}

fn push_unit(out: &mut Vec<u8>, unit: u16) -> Result<(), AllocError>
    ensures { OnOk result (out.new.items ≡ out.old.items ++ escapes.unit_escape unit) }
{
    out.extend_from_slice(b"\\u")?;
    out.push(hex_digit(unit, 4_096))?;
    out.push(hex_digit(unit, 256))?;
    out.push(hex_digit(unit, 16))?;
    out.push(hex_digit(unit, 1))?;
    Ok(())
}

// The hexadecimal digit at the place that is worth so much.
fn hex_digit(unit: u16, place: u16) -> u8
    requires { 0 < place }
    ensures { result ≡ hex_digit_at place unit }
{
    let digit = (unit / place % 16) as u8;
    if digit < 10 {
        b'0' + digit
    } else {
        b'a' - 10 + digit
    }
}
