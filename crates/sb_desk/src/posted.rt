ghost use Rattle.std.specs.Prelude.{◌≡◌, [], ◌∷◌};
ghost use Rattle.sb_desk.specs.Desks.{Asking, view_of, asking, IsAsking};

use crate::view::View;
use atomic_table::Badge;
use std::marker::Model;

/// A pass whose call was left with its desk, until the answer is collected. It may go from thread to thread.
#[derive(Drop)]
pub struct Posted {
    pub(crate) badge: Badge<View>,
    // The number of the pass, by which its post is found among others.
    pub(crate) seat: u64,
}

impl Model for Posted {
    ghost Value = { Asking };

    ghost view = { λ p. asking p.badge.table_id (view_of p.badge.views) };

    ghost invariant = { λ p. (p.badge.views ≡ view_of p.badge.views ∷ []) × IsAsking (view_of p.badge.views) × ((view_of p.badge.views).seat ≡ p.seat) };
}
