// Values: where each ends, and what it is.
ghost use Rattle.std.specs.Prelude.{◌≡◌, ◌==◌, find, drop};
ghost use Rattle.sb_amqp.specs.Reading as reading;
ghost use Rattle.sb_amqp.specs.Sections as sections;
ghost use Rattle.sb_amqp.specs.Values as values;

/// What a constructor says of the bytes behind it.
#[derive(Clone, Copy)]
pub(crate) enum Extent {
    /// A descriptor and a value.
    Described,
    /// So many bytes.
    Fixed(usize),
    /// A length of one byte, and so many bytes.
    Short,
    /// A length of four bytes, and so many bytes.
    Long,
    /// It is no constructor.
    Unknown,
}

/// What a value is, as far as messages use it.
#[derive(Clone, Copy)]
pub(crate) enum Kind {
    Null,
    True,
    False,
    /// A truth value in a byte of its own.
    Boolean,
    Ubyte,
    Ushort,
    Uint,
    Ulong,
    Byte,
    Short,
    Int,
    Long,
    Timestamp,
    Uuid,
    Binary,
    String,
    Symbol,
    List,
    Map,
    /// Anything else.
    Other,
}

/// What a constructor says of the bytes behind it.
#[tactic(auto, unfolding(crate::specs::Values::extent_of))]
pub(crate) fn extent_of(code: u8) -> Extent
    ensures { result ≡ values.extent_of code }
{
    if code == 0 {
        return Extent::Described;
    }
    match code / 16 {
        4 => Extent::Fixed(0),
        5 => Extent::Fixed(1),
        6 => Extent::Fixed(2),
        7 => Extent::Fixed(4),
        8 => Extent::Fixed(8),
        9 => Extent::Fixed(16),
        10 | 12 | 14 => Extent::Short,
        11 | 13 | 15 => Extent::Long,
        _ => Extent::Unknown,
    }
}

#[tactic(auto, unfolding(crate::specs::Values::extent_at))]
pub(crate) fn extent_at(value: &[u8]) -> Extent
    ensures { result ≡ values.extent_at value.now }
{
    match value {
        [] => Extent::Unknown,
        [code, ..] => extent_of(*code),
    }
}

fn kind_named(code: u8) -> Kind
    ensures { result ≡ values.kind_or_other (find (λ row. row.0 == code) values.kinds) }
{
    match code {
        0x40 => Kind::Null,
        0x41 => Kind::True,
        0x42 => Kind::False,
        0x56 => Kind::Boolean,
        0x50 => Kind::Ubyte,
        0x60 => Kind::Ushort,
        0x70 | 0x52 | 0x43 => Kind::Uint,
        0x80 | 0x53 | 0x44 => Kind::Ulong,
        0x51 => Kind::Byte,
        0x61 => Kind::Short,
        0x71 | 0x54 => Kind::Int,
        0x81 | 0x55 => Kind::Long,
        0x83 => Kind::Timestamp,
        0x98 => Kind::Uuid,
        0xa0 | 0xb0 => Kind::Binary,
        0xa1 | 0xb1 => Kind::String,
        0xa3 | 0xb3 => Kind::Symbol,
        0x45 | 0xc0 | 0xd0 => Kind::List,
        0xc1 | 0xd1 => Kind::Map,
        _ => Kind::Other,
    }
}

/// What a value is.
#[tactic(auto, unfolding(crate::specs::Values::kind_of))]
pub(crate) fn kind_of(value: &[u8]) -> Kind
    ensures { result ≡ values.kind_of value.now }
{
    match value {
        [] => Kind::Other,
        [code, ..] => kind_named(*code),
    }
}

/// The bytes from this place on; none past the end.
fn rest_of(bytes: &[u8], from: usize) -> &[u8]
    ensures { result.now ≡ drop from bytes.now }
{
    if bytes.len() < from {
        return &[];
    }
    &bytes[from..]
}

/// What stands behind the constructor and the length.
#[tactic(auto, unfolding(crate::specs::Values::content_of))]
pub(crate) fn content_of(value: &[u8]) -> &[u8]
    ensures { result.now ≡ values.content_of value.now }
{
    let [code, rest @ ..] = value else {
        return &[];
    };
    match extent_of(*code) {
        Extent::Short => rest_of(rest, 1),
        Extent::Long => rest_of(rest, 4),
        Extent::Fixed(_) | Extent::Described | Extent::Unknown => rest,
    }
}

/// The bytes of the items of a list or a map, behind their count.
#[tactic(auto, unfolding(crate::specs::Reading::item_bytes))]
pub(crate) fn item_bytes(extent: Extent, content: &[u8]) -> &[u8]
    ensures { result.now ≡ reading.item_bytes extent content.now }
{
    match extent {
        Extent::Short => rest_of(content, 1),
        Extent::Long => rest_of(content, 4),
        Extent::Fixed(_) | Extent::Described | Extent::Unknown => content,
    }
}

pub(crate) fn is_list(kind: Kind) -> bool
    ensures { result ≡ sections.is_list kind }
{
    matches!(kind, Kind::List)
}

pub(crate) fn is_map(kind: Kind) -> bool
    ensures { result ≡ sections.is_map kind }
{
    matches!(kind, Kind::Map)
}
