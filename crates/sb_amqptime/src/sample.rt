// A message with all kinds of fields.
use sb_model::{Body, Message, Property, PropertyValue, Rows, SystemName, SystemText, Text};
use std::alloc::{AllocError, Global};

static TEXTS: [(SystemName, &str); 5] = [
    (SystemName::MessageId, "order-4711-2"),
    (SystemName::Label, "order placed"),
    (SystemName::CorrelationId, "cart-4711"),
    (SystemName::To, "orders"),
    (SystemName::ContentType, "application/json"),
];

static PROPERTIES: [(&str, &str); 8] = [
    ("channel", "web"),
    ("city", "Zwolle"),
    ("color", "red"),
    ("country", "NL"),
    ("currency", "EUR"),
    ("customer", "c-10442"),
    ("kind", "lamp"),
    ("lang", "nl"),
];

/// A message with a body of so many bytes, ten user properties, five system texts and a time to live.
pub fn sample(alloc: Global, size: u32) -> Result<Message, AllocError> {
    let mut message = Message {
        body: Body::from_vec(vec![in alloc; 0x78; size as usize]?)?,
        sys: Rows::new(alloc),
        props: Rows::new(alloc),
        ttl: Some(3600),
        schedule: None,
    };
    match fill(alloc, &mut message) {
        Ok(()) => Ok(message),
        Err(error) => {
            drop(message);
            Err(error)
        }
    }
}

fn fill(alloc: Global, message: &mut Message) -> Result<(), AllocError> {
    put_texts(alloc, &mut message.sys)?;
    put_properties(alloc, &mut message.props)
}

fn put_texts(alloc: Global, sys: &mut Rows<SystemText>) -> Result<(), AllocError> {
    for (name, text) in &TEXTS {
        let text = Text::of(alloc, text)?;
        sys.push(SystemText { name: *name, text })?;
    }
    Ok(())
}

fn put_properties(alloc: Global, props: &mut Rows<Property>) -> Result<(), AllocError> {
    for (name, text) in &PROPERTIES {
        let value = PropertyValue::Text(Text::of(alloc, text)?);
        put(alloc, name, value, props)?;
    }
    put(alloc, "price", PropertyValue::Int(129), props)?;
    put(alloc, "rush", PropertyValue::Bool(true), props)
}

fn put(
    alloc: Global,
    name: &str,
    value: PropertyValue,
    props: &mut Rows<Property>,
) -> Result<(), AllocError> {
    let name = Text::of(alloc, name)?;
    props.push(Property { name, value })?;
    Ok(())
}
