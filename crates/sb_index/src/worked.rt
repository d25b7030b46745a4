// Three rows, worked through with the definitions alone.
ghost use Rattle.std.specs.Prelude.{◌≡◌, find, true, false, Some, None, [], ◌∷◌};
ghost use Rattle.std.specs.List.{list_any};
ghost use Rattle.sb_index.specs.Rows.{changed, due_values, is_at, is_due_from, is_from, is_marked_within, least_due, with_row, without};
ghost use Rattle.sb_index.specs.WorkedRows.{at, three};

/// What is found among rows, and what changes make of them: the first of a key at least 3, of those
/// that are marked, and of those that are due; a row put between, taken out, and told otherwise.
pub fn worked_rows()
    ensures get { find (is_at 5) three ≡ Some (at 5 true 40) }
    ensures get_none { find (is_at 6) three ≡ None }
    ensures from { find (is_from 3) three ≡ Some (at 5 true 40) }
    ensures from_own { find (is_from 7) three ≡ Some (at 7 true 60) }
    ensures from_none { find (is_from 8) three ≡ None }
    ensures marked { find (is_marked_within 0 8) three ≡ Some (at 5 true 40) }
    ensures marked_from { find (is_marked_within 6 8) three ≡ Some (at 7 true 60) }
    ensures marked_below { find (is_marked_within 0 5) three ≡ None }
    ensures due { find (is_due_from 0 60) three ≡ Some (at 5 true 40) }
    ensures due_from { find (is_due_from 6 60) three ≡ Some (at 7 true 60) }
    ensures due_before { find (is_due_from 6 59) three ≡ None }
    ensures due_values { due_values 60 three ≡ 5 ∷ 7 ∷ [] }
    ensures due_values_none { due_values 39 three ≡ [] }
    ensures least { least_due three ≡ Some 40 }
    ensures least_none { least_due [] ≡ None }
    ensures inserted { with_row (at 6 false 10) three ≡ at 2 false 90 ∷ at 5 true 40 ∷ at 6 false 10 ∷ at 7 true 60 ∷ [] }
    ensures lacks { list_any (is_at 6) three ≡ false }
    ensures removed { without 5 three ≡ at 2 false 90 ∷ at 7 true 60 ∷ [] }
    ensures not_removed { without 6 three ≡ three }
    ensures told { changed 5 false 70 three ≡ at 2 false 90 ∷ at 5 false 70 ∷ at 7 true 60 ∷ [] }
    ensures not_told { changed 6 false 70 three ≡ three }
{}
