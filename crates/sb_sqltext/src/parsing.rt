// From text to tree.
ghost use Rattle.std.specs.Prelude.{◌≡◌, Err, IfSome, IfNone, ◌∷◌, []};
ghost use Rattle.sb_model.specs.Expressions.{term_of, changes_of};
ghost use Rattle.sb_model.specs.Language.{SpellsFilter, SpellsAction};
ghost use Rattle.sb_sqltext.specs.Texts.{AnswersText};
ghost use Rattle.sb_model.specs.Texts as texts;

use crate::actions::action_of;
use crate::expressions::filter_of;
use crate::{Missed, ParseFault};
use sb_model::{Action, Filter};
use sb_sqltokens::tokens_of;
use std::alloc::Global;

/// How many parentheses, NOTs, signs, functions and lists may nest.
pub const MAX_DEPTH: usize = 64;

/// How many statements may stand behind the first of an action: 32 in all.
const MORE_STATEMENTS: usize = 31;

/// How many characters a text may have.
pub const MAX_CHARACTERS: usize = 1024;

fn first_of(bytes: &[u8]) -> Option<(u8, &[u8])>
    ensures some { IfSome result (λ x. bytes.now ≡ x.0 ∷ x.1.now) }
    ensures none { IfNone result (bytes.now ≡ []) }
{
    match bytes {
        [first, rest @ ..] => Some((*first, rest)),
        [] => None,
    }
}

/// The place in bytes of the first character too many.
fn past_limit(text: &[u8]) -> Option<usize>
    ensures { result ≡ texts.past_limit text.now }
{
    let mut before = MAX_CHARACTERS;
    let mut place = 0;
    let mut rest = text;
    'bytes: while let Some((first, behind)) = first_of(rest) {
        if first < 128 || 191 < first {
            if before == 0 {
                return Some(place);
            }
            before -= 1;
        }
        place += 1;
        rest = behind;
    }
    None
}

/// Where the token ends behind which so many are left, and 0 where there is none.
fn end_before(ends: &[usize], left: usize) -> usize
    ensures { result ≡ texts.end_before ends.now left }
{
    if ends.len() <= left {
        0
    } else {
        ends[ends.len() - left - 1]
    }
}

/// The filter that a text spells, nested at most 64 deep and at most 1,024 characters long.
///
/// `At` has the place of the fault. Want of memory is `OutOfMemory`, but for a text that is too long.
#[tactic(auto, using(crate::proofs::Joined::joined))]
pub fn parse_filter(alloc: Global, text: &str) -> Result<Filter, ParseFault>
    ensures answers { AnswersText (SpellsFilter 64) term_of text.now result }
    ensures too_long { IfSome (texts.past_limit text.now) (λ place. result ≡ Err (ParseFault.At place)) }
{
    if let Some(limit) = past_limit(text.as_bytes()) {
        return Err(ParseFault::At(limit as u64));
    }
    let tokens = tokens_of(alloc, text)?;
    match filter_of(alloc, MAX_DEPTH, tokens.kinds.as_slice()) {
        Ok(filter) => Ok(filter),
        Err(Missed::Here(rest)) => Err(ParseFault::At(
            end_before(tokens.ends.as_slice(), rest.len()) as u64,
        )),
        Err(Missed::OutOfMemory) => Err(ParseFault::OutOfMemory),
    }
}

/// The action that a text spells: 1 to 32 statements, nested at most 64 deep and at most 1,024
/// characters long.
///
/// `At` has the place of the fault. Want of memory is `OutOfMemory`, but for a text that is too long.
#[tactic(auto, using(crate::proofs::Joined::joined))]
pub fn parse_action(alloc: Global, text: &str) -> Result<Action, ParseFault>
    ensures answers { AnswersText (SpellsAction 64 31) changes_of text.now result }
    ensures too_long { IfSome (texts.past_limit text.now) (λ place. result ≡ Err (ParseFault.At place)) }
{
    if let Some(place) = past_limit(text.as_bytes()) {
        return Err(ParseFault::At(place as u64));
    }
    let tokens = tokens_of(alloc, text)?;
    match action_of(alloc, MAX_DEPTH, MORE_STATEMENTS, tokens.kinds.as_slice()) {
        Ok(action) => Ok(action),
        Err(Missed::Here(rest)) => Err(ParseFault::At(
            end_before(tokens.ends.as_slice(), rest.len()) as u64,
        )),
        Err(Missed::OutOfMemory) => Err(ParseFault::OutOfMemory),
    }
}
