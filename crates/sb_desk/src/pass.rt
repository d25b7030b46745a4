ghost use Rattle.std.specs.Prelude.{◌≡◌, [], ◌∷◌};
ghost use Rattle.sb_desk.specs.Desks.{Sitting, view_of, sitting, IsResting};

use crate::view::View;
use atomic_table::Badge;
use std::marker::Model;

/// A seat at a desk, from which calls are made one after the other. It may go from thread to thread.
#[derive(Drop)]
pub struct Pass {
    pub(crate) badge: Badge<View>,
    // Its number, by which it finds its post among others.
    pub(crate) seat: u64,
}

impl Model for Pass {
    ghost Value = { Sitting };

    ghost view = { λ p. sitting p.badge.table_id (view_of p.badge.views) };

    ghost invariant = { λ p. (p.badge.views ≡ view_of p.badge.views ∷ []) × IsResting (view_of p.badge.views) × ((view_of p.badge.views).seat ≡ p.seat) };
}
