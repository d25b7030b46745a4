// What the segments of a path stand for.
ghost use Rattle.std.specs.Prelude.{◌≡◌};
ghost use Rattle.sb_lines.specs.Faults.{Answers};
ghost use Rattle.sb_rest.specs.Calls as calls;

use crate::asked::Scope;
use crate::repeat::decimal_in;
use percent_encoding::percent_decode;
use sb_lines::{LineFault, bad, token_of};
use sb_machine::{Part, Path, Token};
use sb_model::{Name, Text};
use sb_routes::{Address, segment, text_of};
use std::alloc::Global;

/// The text of a segment, by how many slashes stand before it.
pub(crate) fn text_in(alloc: Global, path: &[u8], n: usize) -> Result<Text, LineFault>
    ensures { Answers result (calls.text_in n path.now) }
{
    let mut bytes = Vec::new(alloc);
    percent_decode(segment(path, n)).append_to(&mut bytes)?;
    let Some(text) = text_of(&bytes) else {
        return bad(alloc, "path");
    };
    Ok(Text::of(alloc, text)?)
}

/// The name that a segment is.
pub(crate) fn name_in(alloc: Global, path: &[u8], n: usize) -> Result<Name, LineFault>
    ensures { Answers result (calls.name_in n path.now) }
{
    let mut text = text_in(alloc, path, n)?;
    text.fold();
    Ok(text)
}

/// Whose messages a path names.
#[tactic(auto, unfolding(crate::specs::Calls::address_in))]
pub(crate) fn address_in(alloc: Global, address: Address, path: &[u8]) -> Result<Path, LineFault>
    ensures { Answers result (calls.address_in address path.now) }
{
    match address {
        Address::Entity(part) => {
            let name = name_in(alloc, path, 1)?;
            Ok(Path {
                name,
                subscription: None,
                part,
            })
        }
        Address::Subscription(part) => {
            let topic = name_in(alloc, path, 1)?;
            let name = name_in(alloc, path, 3)?;
            Ok(Path {
                name: topic,
                subscription: Some(name),
                part,
            })
        }
    }
}

/// How many slashes stand before the id of a session, and before the id or the number of a message that
/// is in none.
pub(crate) fn id_place(address: Address) -> usize
    ensures { result ≡ calls.id_place address }
{
    match address {
        Address::Entity(Part::Main) => 3,
        Address::Entity(Part::Dead) => 4,
        Address::Entity(Part::Transfer) => 5,
        Address::Subscription(Part::Main) => 5,
        Address::Subscription(Part::Dead) => 6,
        Address::Subscription(Part::Transfer) => 7,
    }
}

/// How many slashes stand before the id or the number of a message.
pub(crate) fn message_place(address: Address, scope: Scope) -> usize
    ensures { result ≡ calls.message_place address scope }
{
    match scope {
        Scope::Whole => id_place(address),
        Scope::Session => id_place(address) + 3,
    }
}

/// The sequence number that a segment is, in decimal digits.
pub(crate) fn number_at(alloc: Global, path: &[u8], n: usize) -> Result<u64, LineFault>
    ensures { Answers result (calls.number_at n path.now) }
{
    let text = text_in(alloc, path, n)?;
    match decimal_in(text.as_bytes()) {
        Some(number) => Ok(number),
        None => bad(alloc, "seq"),
    }
}

/// The token of a lock that a segment is.
pub(crate) fn token_at(alloc: Global, path: &[u8], n: usize) -> Result<Token, LineFault>
    ensures { Answers result (calls.token_at n path.now) }
{
    let text = text_in(alloc, path, n)?;
    match token_of(text.as_str()) {
        Some(token) => Ok(token),
        None => bad(alloc, "token"),
    }
}

/// Whose a session that is held is, and its token.
pub(crate) fn held_in(
    alloc: Global,
    address: Address,
    path: &[u8],
) -> Result<(Path, Token), LineFault>
    ensures { Answers result (calls.held_in address path.now) }
{
    let from = address_in(alloc, address, path)?;
    let session = token_at(alloc, path, id_place(address) + 1)?;
    Ok((from, session))
}

/// Whose messages a path names, and the token of the session that they are in, where they are in one.
pub(crate) fn scope_in(
    alloc: Global,
    address: Address,
    scope: Scope,
    path: &[u8],
) -> Result<(Path, Option<Token>), LineFault>
    ensures { Answers result (calls.scope_in address scope path.now) }
{
    match scope {
        Scope::Whole => {
            let from = address_in(alloc, address, path)?;
            Ok((from, None))
        }
        Scope::Session => {
            let (from, session) = held_in(alloc, address, path)?;
            Ok((from, Some(session)))
        }
    }
}
