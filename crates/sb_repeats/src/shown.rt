// Clients as they are shown.
ghost use Rattle.std.specs.Prelude.{◌≡◌, ◌≤◌, length, map, filter, take, drop, not, IfOk};
ghost use Rattle.std.specs.List.{prefix_len};
ghost use Rattle.sb_machine.specs.Each.{IsSorted};
ghost use Rattle.sb_machine.specs.Looks as looks;
ghost use Rattle.sb_machine.specs.Repeats as repeats;
ghost use Rattle.sb_repeats.specs.Clients.{is_first};

use sb_machine::{ClientShown, Kept};
use sb_model::{Rows, Text};
use std::alloc::{AllocError, Global};

/// The first clients behind a name, up to `count`.
pub(crate) fn first_shown(
    alloc: Global,
    rows: &[Kept],
    after: &Option<Text>,
    count: u64,
) -> Result<Rows<ClientShown>, AllocError>
    requires order { IsSorted is_first rows.now }
    ensures { IfOk result (λ shown. shown ≡ repeats.clients_shown after.now count rows.now) }
{
    all_shown(alloc, first_of(behind(rows, after), count))
}

// ---- which

fn is_behind(after: &Option<Text>, client: &Text) -> bool
    ensures { result ≡ looks.is_behind after.now client.now }
{
    match after {
        Some(after) => after.as_str() < client.as_str(),
        None => true,
    }
}

// How many stand up to a name.
fn place_behind(rows: &[Kept], after: &Option<Text>) -> usize
    requires order { IsSorted is_first rows.now }
    ensures place { result ≡ prefix_len (λ x. not (looks.is_behind after.now x.client)) rows.now }
    ensures within { result ≤ length rows.now }
{
    rows.partition_point(|x| !is_behind(after, &x.client))
}

fn rows_from(rows: &[Kept], place: usize) -> &[Kept]
    requires { place ≤ length rows.now }
    ensures { result.now ≡ drop place rows.now }
{
    &rows[place..]
}

fn behind<'a>(rows: &'a [Kept], after: &Option<Text>) -> &'a [Kept]
    requires order { IsSorted is_first rows.now }
    ensures { result.now ≡ filter (λ k. looks.is_behind after.now k.client) rows.now }
{
    rows_from(rows, place_behind(rows, after))
}

fn first_of(rows: &[Kept], count: u64) -> &[Kept]
    ensures { result.now ≡ take count rows.now }
{
    if count < rows.len() as u64 {
        &rows[..count as usize]
    } else {
        rows
    }
}

// ---- how

fn client_shown(kept: &Kept) -> Result<ClientShown, AllocError>
    ensures { IfOk result (λ shown. shown ≡ repeats.client_shown kept.now) }
{
    Ok(ClientShown {
        client: kept.client.clone()?,
        number: kept.number,
    })
}

fn all_shown(alloc: Global, rows: &[Kept]) -> Result<Rows<ClientShown>, AllocError>
    ensures { IfOk result (λ shown. shown ≡ map repeats.client_shown rows.now) }
{
    let mut shown = Rows::new(alloc);
    for kept in rows {
        shown.push(client_shown(kept)?)?;
    }
    Ok(shown)
}
