// Reading the texts of filters and actions.
ghost use Rattle.std.specs.Prelude.{◌≡◌};
ghost use Rattle.sb_machine.specs.Administration as administration;
ghost use Rattle.sb_machine.specs.declared.call.FilterText.TheVariants.{Sql, Correlation};
ghost use Rattle.sb_model.specs.Texts.{filter_in, action_in};
ghost use Rattle.sb_engine.specs.Readings.{Reads};

use sb_machine::{Condition, Conditions, Effect, FilterText, RuleFilter};
use sb_model::Text;
use sb_sqltext::{ParseFault, parse_action, parse_filter, texts_are_read_exactly};
use std::alloc::Global;

/// A filter's text with the tree that it spells.
pub fn read_condition(alloc: Global, text: Text) -> Result<Condition, ParseFault>
    ensures { Reads result (administration.read_as text (filter_in text)) }
{
    texts_are_read_exactly();
    match parse_filter(alloc, text.as_str()) {
        Ok(tree) => Ok(Condition::new(text, tree)),
        Err(fault) => Err(fault),
    }
}

/// An action's text with the statements that it spells.
pub fn read_effect(alloc: Global, text: Text) -> Result<Effect, ParseFault>
    ensures { Reads result (administration.read_as text (action_in text)) }
{
    texts_are_read_exactly();
    match parse_action(alloc, text.as_str()) {
        Ok(statements) => Ok(Effect::new(text, statements)),
        Err(fault) => Err(fault),
    }
}

fn read_sql(alloc: Global, text: &Text) -> Result<RuleFilter, ParseFault>
    ensures { Reads result (administration.filter_of (Sql text.now)) }
{
    let condition = read_condition(alloc, text.clone()?)?;
    Ok(RuleFilter::Sql(condition))
}

fn read_correlation(conditions: &Conditions) -> Result<RuleFilter, ParseFault>
    ensures { Reads result (administration.filter_of (Correlation conditions.now)) }
{
    if conditions.sys.is_empty() && conditions.props.is_empty() {
        return Err(ParseFault::At(0));
    }
    Ok(RuleFilter::Correlation(conditions.clone()?))
}

/// A filter as it is kept, from what is asked for.
pub fn read_filter(alloc: Global, asked: &FilterText) -> Result<RuleFilter, ParseFault>
    ensures { Reads result (administration.filter_of asked.now) }
{
    match asked {
        FilterText::Sql(text) => read_sql(alloc, text),
        FilterText::Correlation(conditions) => read_correlation(conditions),
    }
}

/// An action as it is kept, where one is asked for.
pub fn read_action(alloc: Global, asked: &Option<Text>) -> Result<Option<Effect>, ParseFault>
    ensures { Reads result (administration.action_of asked.now) }
{
    match asked {
        Some(text) => {
            let effect = read_effect(alloc, text.clone()?)?;
            Ok(Some(effect))
        }
        None => Ok(None),
    }
}
