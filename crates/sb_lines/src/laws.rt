// A law of replies: a function without effect whose contract is a statement of specs/Laws.
ghost use Rattle.sb_lines.specs.Laws.{EachIsOneLine};

/// Replies written one behind another are told apart by their line feeds.
pub fn each_is_one_line()
    ensures { EachIsOneLine }
{}
