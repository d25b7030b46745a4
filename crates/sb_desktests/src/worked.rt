ghost use Rattle.sb_desktests.specs.Worked.{WorkedRows};

/// The entries of two seats and their numbers, computed by the definitions.
pub fn worked_rows()
    ensures { WorkedRows }
{}
