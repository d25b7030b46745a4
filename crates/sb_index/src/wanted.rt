// What a search in a tree is for.
ghost use Rattle.std.specs.Prelude.{◌≡◌};
ghost use Rattle.sb_index.specs.Wanted.{fits};

use crate::row::Row;

/// What a row has to be.
#[derive(Clone, Copy)]
pub(crate) enum Wanted {
    Any,
    Marked,
    /// Due at this moment.
    Due(u64),
}

pub(crate) fn is_wanted(wanted: Wanted, row: Row) -> bool
    ensures { result ≡ fits wanted row }
{
    match wanted {
        Wanted::Any => true,
        Wanted::Marked => row.marked,
        Wanted::Due(moment) => row.due <= moment,
    }
}
