// What stands in a query.
ghost use Rattle.std.specs.Prelude.{◌≡◌, IfOk, option_map, bytes_eq};
ghost use Rattle.sb_rest.specs.Queries as queries;

use form_urlencoded::{decode, raw_pairs};
use std::alloc::{AllocError, Global};

fn is_named(alloc: Global, encoded: &[u8], name: &str) -> Result<bool, AllocError>
    ensures { IfOk result (λ b. b ≡ bytes_eq (queries.decoded encoded.now) name.now) }
{
    let text = decode(alloc, encoded)?;
    Ok(&*text == name)
}

/// The value of the first pair of this name, as it is encoded.
pub(crate) fn value_of<'a>(
    alloc: Global,
    query: &'a [u8],
    name: &str,
) -> Result<Option<&'a [u8]>, AllocError>
    ensures { IfOk result (λ o. option_map (λ v. v.now) o ≡ queries.value_of name.now query.now) }
{
    for (encoded, value) in raw_pairs(query) {
        if is_named(alloc, encoded, name)? {
            return Ok(Some(value));
        }
    }
    Ok(None)
}
