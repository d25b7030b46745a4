// System texts, each in its place.
ghost use Rattle.std.specs.Prelude.{◌≡◌, ◌≤◌, IfOk, length, nat_lt};
ghost use Rattle.std.specs.List.{prefix_len};
ghost use Rattle.sb_model.specs.Effects as effects;
ghost use Rattle.sb_model.specs.SystemNames.{system_code};
ghost use Rattle.sb_amqp.specs.Meaning as meaning;

use sb_model::{Rows, SystemName, SystemText, Text};
use std::alloc::AllocError;

/// How many system texts stand before this name.
fn system_place(sys: &[SystemText], name: SystemName) -> usize
    ensures value { result ≡ prefix_len (λ q. nat_lt (system_code q.name) (system_code name)) sys.now }
    ensures within { result ≤ length sys.now }
{
    sys.iter()
        .take_while(|q| q.name.code() < name.code())
        .count()
}

fn with_text_more(
    text: SystemText,
    others: Rows<SystemText>,
) -> Result<Rows<SystemText>, AllocError>
    ensures { IfOk result (λ r. r ≡ effects.with_text_more text others) }
{
    let place = system_place(others.as_slice(), text.name);
    let mut items = others.into_vec();
    items.insert(place, text)?;
    Ok(Rows::from_vec(items))
}

/// The texts with one more in its place by code; an empty one counts as absent.
pub(crate) fn with_text(
    name: SystemName,
    text: Text,
    sys: Rows<SystemText>,
) -> Result<Rows<SystemText>, AllocError>
    ensures { IfOk result (λ r. r ≡ meaning.with_text name text sys) }
{
    if text.as_bytes().is_empty() {
        return Ok(sys);
    }
    with_text_more(SystemText { name, text }, sys)
}
