// Which messages are looked at, by a query.
ghost use Rattle.std.specs.Prelude.{◌≡◌, option_map};
ghost use Rattle.sb_lines.specs.Faults.{Answers};
ghost use Rattle.sb_rest.specs.Peeks as peeks;

use crate::query::value_of;
use crate::repeat::decimal_in;
use form_urlencoded::decode;
use sb_lines::{LineFault, bad};
use sb_machine::Path;
use sb_names::read_address;
use std::alloc::Global;

/// Messages that are shown where a query doesn't say how many.
const USUAL_COUNT: u64 = 20;

/// Whose messages a query says (`from`), from which number on (`start`), and how many at most
/// (`count`). Whether the numbers are in their ranges is judged with the call.
pub(crate) fn peek_in(alloc: Global, query: &[u8]) -> Result<(Path, u64, u64), LineFault>
    ensures { Answers result (peeks.peek_in query.now) }
{
    let from = from_in(alloc, query)?;
    let start = number_or(alloc, "start", 1, query)?;
    let count = number_or(alloc, "count", USUAL_COUNT, query)?;
    Ok((from, start, count))
}

fn from_from(alloc: Global, given: Option<&[u8]>) -> Result<Path, LineFault>
    ensures { Answers result (peeks.from_from (option_map (λ v. v.now) given.entry)) }
{
    let Some(value) = given else {
        return bad(alloc, "from");
    };
    let text = decode(alloc, value)?;
    Ok(read_address(alloc, &*text)?)
}

fn from_in(alloc: Global, query: &[u8]) -> Result<Path, LineFault>
    ensures { Answers result (peeks.from_in query.now) }
{
    let given = value_of(alloc, query, "from")?;
    from_from(alloc, given)
}

fn number_from(
    alloc: Global,
    key: &'static str,
    default: u64,
    given: Option<&[u8]>,
) -> Result<u64, LineFault>
    ensures { Answers result (peeks.number_from key.now default (option_map (λ v. v.now) given.entry)) }
{
    let Some(value) = given else {
        return Ok(default);
    };
    let text = decode(alloc, value)?;
    match decimal_in((&*text).as_bytes()) {
        Some(number) => Ok(number),
        None => bad(alloc, key),
    }
}

fn number_or(alloc: Global, key: &'static str, default: u64, query: &[u8]) -> Result<u64, LineFault>
    ensures { Answers result (peeks.number_or key.now default query.now) }
{
    let given = value_of(alloc, query, key)?;
    number_from(alloc, key, default, given)
}
