// The limits of requests. All memory is taken before the first byte, so each part of a request has one.

/// The most bytes of a head, with the empty lines before it and the one that ends it.
pub const MAX_HEAD: usize = 16_384;

/// The most field lines of a head, and the most lines of trailers.
pub const MAX_FIELDS: usize = 64;

/// The most bytes of a body; of a chunked one, those that the chunks hold.
pub const MAX_BODY: usize = 1_048_576;

/// The most bytes of the line of a chunk, with its CR LF.
pub const MAX_LINE: usize = 1_024;

/// The most bytes of trailers, with the empty line that ends them.
pub const MAX_TRAILERS: usize = 16_384;

/// The bytes of the buffer: the greatest request that is under way, with all that may stand behind its
/// body.
pub const MAX_BUFFER: usize = 1_082_368;

const _: () = prove!(MAX_BUFFER == MAX_HEAD + MAX_BODY + MAX_LINE + MAX_TRAILERS);
