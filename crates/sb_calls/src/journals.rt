// The journal that most of the calls begin with.

/// That of the journal whose bytes docs/FORMATS.md has.
pub const SALT: u64 = 0xa1b2_c3d4_e5f6_0718;

/// The journal of the queue q that was made at moment 0.
pub static ONE_EVENT: [u8; 87] = [
    0x01, 0x53, 0x42, 0x4e, 0x53, 0x4a, 0x52, 0x4e, 0x4c, 0x01, 0xa1, 0xb2, 0xc3, 0xd4, 0xe5, 0xf6,
    0x07, 0x18, 0, 0, 0, 0, 0, 0, 0, 1, 0, 0, 0, 0, 0, 0, 0, 1, 0, 0, 0, 0, 0, 0, 0, 0, 0x01, 0, 0,
    0, 0x1f, 0, 0, 0, 0, 0, 0, 0, 1, 0x01, 0, 0, 0, 0, 0, 0, 0, 0, 0, 0x01, 0, 0, 0, 1, 0x71, 0, 0,
    0, 0x3c, 0, 0, 0, 0, 0x0a, 0, 0, 0, 1, 0, 0, 0,
];
