// From a message to its bytes.
ghost use Rattle.std.specs.Prelude.{◌≡◌, ◌++◌, ◌∷◌, ◌==◌, ◌*◌, ◌≤◌, [], find, length, OnOk, IfOk, option_map};
ghost use Rattle.std.specs.Int.{w32, to_be_bytes};
ghost use Rattle.std.specs.List.{flat_map};
ghost use Rattle.sb_model.specs.SystemNames.{system_code};
ghost use Rattle.sb_amqp.specs.Values.{joined};
ghost use Rattle.sb_amqp.specs.Fields as fields;
ghost use Rattle.sb_amqp.specs.Fields.{schedule_key};
ghost use Rattle.sb_amqp.specs.Written as written;

use crate::fields::{
    ANNOTATIONS, APPLICATION, DATA, HEADER, PROPERTIES, SCHEDULE_KEY, field_name, field_number,
    is_symbol,
};
use crate::put::{
    put_binary, put_descriptor, put_list, put_map, put_null, put_property_value, put_string,
    put_symbol, put_timestamp, put_uint,
};
use sb_model::{Message, Property, SystemName, SystemText};
use std::alloc::{AllocError, Global};

/// The longest time to live, in s, whose milliseconds a header can say.
const MAX_HEADER_TTL: u64 = 4_294_967;

/// A section whose value is a list of so many items.
fn put_list_section(
    code: u8,
    count: usize,
    items: &[u8],
    out: &mut Vec<u8>,
) -> Result<(), AllocError>
    ensures { OnOk result (out.new.items ≡ out.old.items ++ written.section code (written.list count items.now)) }
{
    put_descriptor(code, out)?;
    put_list(count, items, out)
}

/// A section whose value is a map of so many keys and values.
fn put_map_section(
    code: u8,
    count: usize,
    items: &[u8],
    out: &mut Vec<u8>,
) -> Result<(), AllocError>
    ensures { OnOk result (out.new.items ≡ out.old.items ++ written.section code (written.map_of count items.now)) }
{
    put_descriptor(code, out)?;
    put_map(count, items, out)
}

fn header_items(alloc: Global, ttl: u64) -> Result<Vec<u8>, AllocError>
    requires { ttl ≤ 4294967 }
    ensures { IfOk result (λ items. items.items ≡ written.null ++ written.null ++ written.uint (ttl * 1000)) }
{
    let mut items = Vec::new(alloc);
    put_null(&mut items)?;
    put_null(&mut items)?;
    put_uint(ttl * 1000, &mut items)?;
    Ok(items)
}

fn put_header(alloc: Global, ttl: Option<u64>, out: &mut Vec<u8>) -> Result<(), AllocError>
    ensures { OnOk result (out.new.items ≡ out.old.items ++ written.header ttl) }
{
    let Some(ttl) = ttl else {
        return Ok(());
    };
    if ttl > MAX_HEADER_TTL {
        return Ok(());
    }
    let items = header_items(alloc, ttl)?;
    put_list_section(HEADER, 3, items.as_slice(), out)
}

fn annotation_items(alloc: Global, moment: u64) -> Result<Vec<u8>, AllocError>
    ensures { IfOk result (λ items. items.items ≡ written.symbol schedule_key ++ written.timestamp moment) }
{
    let mut items = Vec::new(alloc);
    put_symbol(SCHEDULE_KEY, &mut items)?;
    put_timestamp(moment, &mut items)?;
    Ok(items)
}

fn put_annotations(
    alloc: Global,
    schedule: Option<u64>,
    out: &mut Vec<u8>,
) -> Result<(), AllocError>
    ensures { OnOk result (out.new.items ≡ out.old.items ++ written.annotations schedule) }
{
    let Some(moment) = schedule else {
        return Ok(());
    };
    let items = annotation_items(alloc, moment)?;
    put_map_section(ANNOTATIONS, 2, items.as_slice(), out)
}

fn text_named(sys: &[SystemText], name: SystemName) -> Option<&SystemText>
    ensures { option_map (λ s. s.now) result ≡ find (λ s. system_code s.name == system_code name) sys.now }
{
    sys.iter().find(|s| s.name.code() == name.code())
}

fn put_text_value(
    name: SystemName,
    text: Option<&SystemText>,
    out: &mut Vec<u8>,
) -> Result<(), AllocError>
    ensures { OnOk result (out.new.items ≡ out.old.items ++ written.text_value name (option_map (λ s. s.now) text.entry)) }
{
    let Some(text) = text else {
        return put_null(out);
    };
    if is_symbol(name) {
        put_symbol(text.text.as_str(), out)
    } else {
        put_string(text.text.as_str(), out)
    }
}

fn put_field(sys: &[SystemText], number: usize, out: &mut Vec<u8>) -> Result<(), AllocError>
    ensures { OnOk result (out.new.items ≡ out.old.items ++ written.field sys.now (fields.field_name number)) }
{
    let Some(name) = field_name(number) else {
        return put_null(out);
    };
    put_text_value(name, text_named(sys, name), out)
}

fn put_fields(sys: &[SystemText], count: usize, out: &mut Vec<u8>) -> Result<(), AllocError>
    ensures { OnOk result (out.new.items ≡ out.old.items ++ joined (written.fields sys.now 1 count)) }
{
    for before in 0..count {
        put_field(sys, before + 1, out)?;
    }
    Ok(())
}

/// The number of the last field that is set, or 0.
fn last_field(sys: &[SystemText]) -> usize
    ensures { result ≡ written.last_field sys.now }
{
    let mut last = 0;
    for text in sys {
        last = field_number(text.name).max(last);
    }
    last
}

fn field_items(alloc: Global, sys: &[SystemText], count: usize) -> Result<Vec<u8>, AllocError>
    ensures { IfOk result (λ items. items.items ≡ joined (written.fields sys.now 1 count)) }
{
    let mut items = Vec::new(alloc);
    put_fields(sys, count, &mut items)?;
    Ok(items)
}

fn put_properties(alloc: Global, sys: &[SystemText], out: &mut Vec<u8>) -> Result<(), AllocError>
    ensures { OnOk result (out.new.items ≡ out.old.items ++ written.properties sys.now) }
{
    let count = last_field(sys);
    if count == 0 {
        return Ok(());
    }
    let items = field_items(alloc, sys, count)?;
    put_list_section(PROPERTIES, count, items.as_slice(), out)
}

fn put_entries(props: &[Property], out: &mut Vec<u8>) -> Result<(), AllocError>
    ensures { OnOk result (out.new.items ≡ out.old.items ++ joined (flat_map written.entry props.now)) }
{
    for property in props {
        put_string(property.name.as_str(), out)?;
        put_property_value(&property.value, out)?;
    }
    Ok(())
}

fn entry_items(alloc: Global, props: &[Property]) -> Result<Vec<u8>, AllocError>
    ensures { IfOk result (λ items. items.items ≡ joined (flat_map written.entry props.now)) }
{
    let mut items = Vec::new(alloc);
    put_entries(props, &mut items)?;
    Ok(items)
}

fn put_application(alloc: Global, props: &[Property], out: &mut Vec<u8>) -> Result<(), AllocError>
    ensures { OnOk result (out.new.items ≡ out.old.items ++ written.application props.now) }
{
    if props.is_empty() {
        return Ok(());
    }
    let items = entry_items(alloc, props)?;
    put_map_section(
        APPLICATION,
        props.len() + props.len(),
        items.as_slice(),
        out,
    )
}

fn put_data(body: &[u8], out: &mut Vec<u8>) -> Result<(), AllocError>
    ensures { OnOk result (out.new.items ≡ out.old.items ++ written.data_section body.now) }
{
    put_descriptor(DATA, out)?;
    put_binary(body, out)
}

/// The one spelling in which a message is written. A time to live above 4,294,967 s is left out,
/// since a header says it in milliseconds of 32 bits.
pub fn write_message(alloc: Global, message: &Message) -> Result<Vec<u8>, AllocError>
    ensures { IfOk result (λ bytes. bytes.items ≡ written.written message.now) }
{
    write_scheduled(alloc, message, message.schedule)
}

/// The same of the message with this schedule in place of its own.
#[tactic(auto, unfolding(crate::specs::Written::written))]
pub fn write_scheduled(
    alloc: Global,
    message: &Message,
    schedule: Option<u64>,
) -> Result<Vec<u8>, AllocError>
    ensures { IfOk result (λ bytes. bytes.items ≡ written.written (record message.now { schedule = schedule })) }
{
    let mut out = Vec::new(alloc);
    put_header(alloc, message.ttl, &mut out)?;
    put_annotations(alloc, schedule, &mut out)?;
    put_properties(alloc, message.sys.as_slice(), &mut out)?;
    put_application(alloc, message.props.as_slice(), &mut out)?;
    put_data(message.body.as_slice(), &mut out)?;
    Ok(out)
}
