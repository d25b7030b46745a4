// Texts worked out by hand, computed on the definitions.
ghost use Rattle.sb_sqltext.specs.Rows.{RowLeft, RowOr, RowQuotes, RowLike, RowIn, RowAction, FilterTable1, FilterTable2, FilterTable3, FilterTable4, ActionTable1, Depths, Counts, Lengths};

/// What texts are read as: trees, and for each of a table its fault's place in bytes, or none.
pub fn worked_texts()
    ensures left { RowLeft }
    ensures or_and_not { RowOr }
    ensures quotes { RowQuotes }
    ensures like { RowLike }
    ensures in_items { RowIn }
    ensures action { RowAction }
    ensures filters_1 { FilterTable1 }
    ensures filters_2 { FilterTable2 }
    ensures filters_3 { FilterTable3 }
    ensures filters_4 { FilterTable4 }
    ensures actions_1 { ActionTable1 }
    ensures depths { Depths }
    ensures counts { Counts }
    ensures lengths { Lengths }
{}
