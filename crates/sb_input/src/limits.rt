// The limits of the program, in bytes.

/// The most bytes of a line, without its line feed: a send of 262,144 bytes of bodies and 65,536 of
/// properties, each of which JSON may spell in six bytes (`\u001f`), is 1,966,080 bytes; 131,072 are
/// left for its keys, names and numbers.
pub const MAX_LINE: usize = 2_097_152;

/// The bytes of input that end a run: with fewer, the numbers of bytes and lines fit 64 bits many times
/// over. An input of this length takes hours.
pub const MAX_INPUT: u64 = 1 << 40;

/// How much of an input is read at once: as much as a pipe holds.
pub const MAX_PIECE: usize = 65_536;
