// What is due in a tree.
ghost use Rattle.std.specs.Prelude.{◌≡◌, ◌++◌, ◌∷◌, [], OnOk};
ghost use Rattle.sb_index.specs.Rows.{due_values};
ghost use Rattle.sb_index.specs.Sides.{values};

use crate::row::Row;
use crate::tree::Tree;
use crate::wanted::{Wanted, is_wanted};
use std::alloc::AllocError;

/// Puts the values of the rows that are due at this moment behind those that are there, in rising
/// keys. A side where none is due isn't gone down.
#[cycle(due)]
#[tactic(auto, using(crate::proofs::DueValues::none_behind))]
pub(crate) fn put_due_in(
    side: &Option<Box<Tree>>,
    moment: u64,
    found: &mut Vec<u64>,
) -> Result<(), AllocError>
    ensures { OnOk result (found.new.items ≡ found.old.items ++ due_values moment (values side.now)) }
{
    match side {
        None => Ok(()),
        Some(tree) => tree.put_due(moment, found),
    }
}

impl Tree {
    #[cycle(due)]
    #[tactic(auto, using(crate::proofs::DueValues::none_due, crate::proofs::DueValues::due_parts))]
    fn put_due(&self, moment: u64, found: &mut Vec<u64>) -> Result<(), AllocError>
        ensures { OnOk result (found.new.items ≡ found.old.items ++ due_values moment self.now) }
    {
        if !self.has(Wanted::Due(moment)) {
            return Ok(());
        }
        put_due_in(&self.left, moment, found)?;
        put_if_due(self.row, moment, found)?;
        put_due_in(&self.right, moment, found)
    }
}

#[tactic(auto, using(crate::proofs::DueValues::one_due, crate::proofs::DueValues::one_not_due))]
fn put_if_due(row: Row, moment: u64, found: &mut Vec<u64>) -> Result<(), AllocError>
    ensures { OnOk result (found.new.items ≡ found.old.items ++ due_values moment (row ∷ [])) }
{
    if is_wanted(Wanted::Due(moment), row) {
        found.push(row.value)?;
    }
    Ok(())
}
