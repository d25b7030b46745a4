// Texts as numbers, for keys.
ghost use Rattle.std.specs.Prelude.{◌≡◌};
ghost use Rattle.sb_index.specs.Hashes.{hash};

use std::hash::{DefaultHasher, Hasher};

/// A number of 64 bits that bytes come to, SipHash-1-3's under keys of zeros.
///
/// Two texts may come to one number, so it finds where a text may stand, and the text itself tells.
pub fn hash_of(bytes: &[u8]) -> u64
    ensures { result ≡ hash bytes.now }
{
    let mut state = DefaultHasher::new();
    state.write(bytes);
    state.finish()
}
