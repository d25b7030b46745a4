// Values in the forms in which they are written.
ghost use Rattle.std.specs.Prelude.{◌≡◌, ◌++◌, ◌∷◌, [], OnOk};
ghost use Rattle.std.specs.Int.{w32, to_be_bytes};
ghost use Rattle.sb_amqp.specs.Written as written;

use sb_model::PropertyValue;
use std::alloc::AllocError;

/// The lowest 32 bits of a number.
fn put_u32(number: u64, out: &mut Vec<u8>) -> Result<(), AllocError>
    ensures { OnOk result (out.new.items ≡ out.old.items ++ to_be_bytes w32 number) }
{
    let bytes = number.to_be_bytes();
    out.extend_from_slice(&[bytes[4], bytes[5], bytes[6], bytes[7]])
}

/// A constructor, a length and so many bytes.
fn put_sized(code: u8, bytes: &[u8], out: &mut Vec<u8>) -> Result<(), AllocError>
    ensures { OnOk result (out.new.items ≡ out.old.items ++ written.sized code bytes.now) }
{
    out.push(code)?;
    put_u32(bytes.len() as u64, out)?;
    out.extend_from_slice(bytes)
}

pub(crate) fn put_null(out: &mut Vec<u8>) -> Result<(), AllocError>
    ensures { OnOk result (out.new.items ≡ out.old.items ++ written.null) }
{
    out.push(0x40)?;
    Ok(())
}

fn put_truth(truth: bool, out: &mut Vec<u8>) -> Result<(), AllocError>
    ensures { OnOk result (out.new.items ≡ out.old.items ++ written.truth truth) }
{
    let code = if truth { 0x41 } else { 0x42 };
    out.push(code)?;
    Ok(())
}

pub(crate) fn put_uint(number: u64, out: &mut Vec<u8>) -> Result<(), AllocError>
    ensures { OnOk result (out.new.items ≡ out.old.items ++ written.uint number) }
{
    out.push(0x70)?;
    put_u32(number, out)
}

fn put_long(number: i64, out: &mut Vec<u8>) -> Result<(), AllocError>
    ensures { OnOk result (out.new.items ≡ out.old.items ++ written.long number) }
{
    out.push(0x81)?;
    out.extend_from_slice(&number.cast_unsigned().to_be_bytes())
}

pub(crate) fn put_timestamp(moment: u64, out: &mut Vec<u8>) -> Result<(), AllocError>
    ensures { OnOk result (out.new.items ≡ out.old.items ++ written.timestamp moment) }
{
    out.push(0x83)?;
    out.extend_from_slice(&moment.to_be_bytes())
}

pub(crate) fn put_binary(bytes: &[u8], out: &mut Vec<u8>) -> Result<(), AllocError>
    ensures { OnOk result (out.new.items ≡ out.old.items ++ written.binary bytes.now) }
{
    put_sized(0xb0, bytes, out)
}

pub(crate) fn put_string(text: &str, out: &mut Vec<u8>) -> Result<(), AllocError>
    ensures { OnOk result (out.new.items ≡ out.old.items ++ written.string text.now) }
{
    put_sized(0xb1, text.as_bytes(), out)
}

pub(crate) fn put_symbol(text: &str, out: &mut Vec<u8>) -> Result<(), AllocError>
    ensures { OnOk result (out.new.items ≡ out.old.items ++ written.symbol text.now) }
{
    put_sized(0xb3, text.as_bytes(), out)
}

fn put_compound(code: u8, count: usize, items: &[u8], out: &mut Vec<u8>) -> Result<(), AllocError>
    ensures { OnOk result (out.new.items ≡ out.old.items ++ written.compound code count items.now) }
{
    out.push(code)?;
    put_u32(items.len() as u64 + 4, out)?;
    put_u32(count as u64, out)?;
    out.extend_from_slice(items)
}

/// A list of so many items, whose bytes these are.
pub(crate) fn put_list(count: usize, items: &[u8], out: &mut Vec<u8>) -> Result<(), AllocError>
    ensures { OnOk result (out.new.items ≡ out.old.items ++ written.compound 208 count items.now) }
{
    put_compound(0xd0, count, items, out)
}

/// A map of so many keys and values together, whose bytes these are.
pub(crate) fn put_map(count: usize, items: &[u8], out: &mut Vec<u8>) -> Result<(), AllocError>
    ensures { OnOk result (out.new.items ≡ out.old.items ++ written.compound 209 count items.now) }
{
    put_compound(0xd1, count, items, out)
}

pub(crate) fn put_property_value(value: &PropertyValue, out: &mut Vec<u8>) -> Result<(), AllocError>
    ensures { OnOk result (out.new.items ≡ out.old.items ++ written.property_value value.now) }
{
    match value {
        PropertyValue::Int(number) => put_long(*number, out),
        PropertyValue::Text(text) => put_string(text.as_str(), out),
        PropertyValue::Bool(truth) => put_truth(*truth, out),
    }
}

/// What a section begins with: 00, and its descriptor as a small number.
pub(crate) fn put_descriptor(code: u8, out: &mut Vec<u8>) -> Result<(), AllocError>
    ensures { OnOk result (out.new.items ≡ out.old.items ++ 0 ∷ 83 ∷ code ∷ []) }
{
    out.extend_from_slice(&[0, 0x53, code])
}
