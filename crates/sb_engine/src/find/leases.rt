// The copy that a lock holds.
ghost use Rattle.std.specs.Prelude.{◌≡◌};
ghost use Rattle.std.specs.Option.{option_map};
ghost use Rattle.sb_machine.specs.Leases as spec;
ghost use Rattle.sb_entities.specs.Stores.{leaf_in, space_in};

use sb_entities::{PartStore, SpaceStore};
use sb_machine::{StoredCopy, Token, Which};

/// The copy of a part that is named so and has the token's lock, which lives at `moment`, in ms
/// since 1970.
pub fn leased<'a>(
    space: &SpaceStore,
    moment: u64,
    token: Token,
    which: &Which,
    part: &'a PartStore,
) -> Option<&'a StoredCopy>
    ensures { option_map (λ c. c.now) result ≡ spec.leased (space_in space.now) moment token which.now (leaf_in part.now) }
{
    let sessions = part.sessions().as_slice();
    part.copies()
        .leased(space.salt(), moment, token, which, sessions)
}
