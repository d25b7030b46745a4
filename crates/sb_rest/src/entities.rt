// Which entities are shown, by a query.
ghost use Rattle.std.specs.Prelude.{◌≡◌, option_map, IfOk};
ghost use Rattle.sb_lines.specs.Faults.{Answers};
ghost use Rattle.sb_rest.specs.Entities as entities;

use crate::query::value_of;
use form_urlencoded::decode;
use sb_http::number;
use sb_lines::{LineFault, bad};
use sb_machine::{Look, Path};
use sb_model::{Name, Text};
use sb_names::limits::MAX_LISTED;
use sb_names::{is_main, read_address};
use std::alloc::{AllocError, Global};

/// The look at the entities that a query says: those whose names begin with `prefix`, behind the
/// address `after`, `count` at the most.
pub(crate) fn entities_in(alloc: Global, query: &[u8]) -> Result<Look, LineFault>
    ensures { Answers result (entities.entities_in query.now) }
{
    let after = after_in(alloc, query)?;
    let count = count_in(alloc, query)?;
    let prefix = prefix_in(alloc, query)?;
    Ok(Look::Entities {
        prefix,
        after,
        count,
    })
}

fn name_of(alloc: Global, value: &[u8]) -> Result<Name, AllocError>
    ensures { IfOk result (λ name. name ≡ entities.name_of value.now) }
{
    let text = decode(alloc, value)?;
    let mut name = Text::of(alloc, &*text)?;
    name.fold();
    Ok(name)
}

fn prefix_in(alloc: Global, query: &[u8]) -> Result<Option<Name>, AllocError>
    ensures { IfOk result (λ prefix. prefix ≡ entities.prefix_in query.now) }
{
    match value_of(alloc, query, "prefix")? {
        Some(value) => Ok(Some(name_of(alloc, value)?)),
        None => Ok(None),
    }
}

fn after_from(alloc: Global, given: Option<&[u8]>) -> Result<Option<Path>, LineFault>
    ensures { Answers result (entities.after_from (option_map (λ v. v.now) given.entry)) }
{
    let Some(value) = given else {
        return Ok(None);
    };
    let text = decode(alloc, value)?;
    let path = read_address(alloc, &*text)?;
    if !is_main(path.part) {
        return bad(alloc, "after");
    }
    Ok(Some(path))
}

fn after_in(alloc: Global, query: &[u8]) -> Result<Option<Path>, LineFault>
    ensures { Answers result (entities.after_in query.now) }
{
    let given = value_of(alloc, query, "after")?;
    after_from(alloc, given)
}

fn count_of(text: &[u8]) -> Option<u64>
    ensures { result ≡ entities.count_of text.now }
{
    match number(text) {
        Some(n) if 1 <= n && n <= MAX_LISTED => Some(n),
        _ => None,
    }
}

fn count_from(alloc: Global, given: Option<&[u8]>) -> Result<u64, LineFault>
    ensures { Answers result (entities.count_from (option_map (λ v. v.now) given.entry)) }
{
    let Some(value) = given else {
        return Ok(MAX_LISTED);
    };
    let text = decode(alloc, value)?;
    match count_of((&*text).as_bytes()) {
        Some(count) => Ok(count),
        None => bad(alloc, "count"),
    }
}

fn count_in(alloc: Global, query: &[u8]) -> Result<u64, LineFault>
    ensures { Answers result (entities.count_in query.now) }
{
    let given = value_of(alloc, query, "count")?;
    count_from(alloc, given)
}
