// Laws of texts: a function without effect, whose contract is the statement.
ghost use Rattle.sb_model.specs.Language.{SpellsFilter, SpellsAction};
ghost use Rattle.sb_model.specs.Reading.{filter_of, action_of};
ghost use Rattle.sb_sqltext.specs.Laws.{ReadsTexts};

/// A text spells one tree, or it has one place of a fault, and not both; reading it, by
/// `read_text` of `sb_model`, gives that tree or that place.
pub fn texts_are_read_exactly()
    ensures filters { ReadsTexts (filter_of 64) (SpellsFilter 64) }
    ensures actions { ReadsTexts (action_of 64 31) (SpellsAction 64 31) }
{}
