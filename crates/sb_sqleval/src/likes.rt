// LIKE: a text against a pattern, with two places and one mark to go back to.
ghost use Rattle.std.specs.Prelude.{◌≡◌, ◌∷◌, ◌<◌, ◌≤◌, ◌+◌, ◌*◌, ℕ, [], length, IfSome, IfNone, None, Some, option_map};
ghost use Rattle.std.specs.Str.{chars};
ghost use Rattle.sb_model.specs.Likes as likes;
ghost use Rattle.sb_sqleval.specs.Places as matching;
ghost use Rattle.sb_sqleval.specs.Places.{IsAhead, IsStep, IsTurn, IsMarked, IsWithin};

use crate::Steps;
use std::marker::Brand;
use std::sync::ledger::{Blank, Ledger};

/// Whether the text has the pattern's form: `%` any run of characters, `_` any one, and the
/// character behind an escape as it stands; a pattern that ends in a lone escape fits no text. A step
/// is one turn of its one loop. Takes no memory.
pub fn like<'a, L: Ledger>(
    text: &'a str,
    pattern: &'a str,
    escape: Option<char>,
    steps: &mut Steps<L>,
) -> bool
    ensures answers { result ≡ likes.has_some_form (likes.parts_of escape (chars pattern.now)) (chars text.now) }
    ensures bounded { steps.new ≤ steps.old + 2 * (length (chars pattern.now) + 1) * (length (chars text.now) + 1) }
{
    let mut places = Places {
        left: text,
        ahead: pattern,
        mark: None,
    };
    'turns: loop {
        steps.tick();
        match next_turn(places, escape) {
            Turn::Ended(answer) => return answer,
            Turn::Goes(next) => places = next,
        }
    }
}

/// What stands first in a pattern, and the rest.
enum Ahead<'a> {
    End,
    /// An escape with nothing behind it.
    Lone,
    /// `%`.
    Run(&'a str),
    /// This character, or any one.
    One(Option<char>, &'a str),
}

/// What the two places say.
enum Step<'a> {
    /// Text and pattern end.
    Matched,
    /// `%` stands in the pattern, before this.
    Starred(&'a str),
    /// One character fits; the rest of the text, and of the pattern.
    Onward(&'a str, &'a str),
    /// Nothing fits.
    Stuck,
}

/// The last `%` that was met.
#[derive(Clone, Copy, Drop)]
struct Mark<'a> {
    /// The pattern behind it.
    behind: &'a str,
    /// The text from the place on at which that was last tried.
    tried: &'a str,
}

/// A place in the text, a place in the pattern, and the mark.
#[derive(Clone, Copy, Drop)]
struct Places<'a> {
    left: &'a str,
    ahead: &'a str,
    mark: Option<Mark<'a>>,
}

enum Turn<'a> {
    Ended(bool),
    Goes(Places<'a>),
}

/// The first character and the rest.
fn first_char(text: &str) -> Option<(char, &str)>
    ensures some { IfSome result (λ x. chars text.now ≡ x.0 ∷ chars x.1.now) }
    ensures none { IfNone result (chars text.now ≡ []) }
{
    let mut left = text.chars();
    let first = left.next()?;
    Some((first, left.as_str()))
}

fn is_escape(escape: Option<char>, c: char) -> bool
    ensures { result ≡ likes.is_escape escape c }
{
    match escape {
        Some(e) => c == e,
        None => false,
    }
}

fn is_wanted(wanted: Option<char>, c: char) -> bool
    ensures { result ≡ matching.is_wanted wanted c }
{
    match wanted {
        Some(d) => c == d,
        None => true,
    }
}

fn ahead_of(pattern: &str, escape: Option<char>) -> Ahead<'_>
    ensures { IsAhead escape pattern.now result }
{
    let Some((c, rest)) = first_char(pattern) else {
        return Ahead::End;
    };
    if is_escape(escape, c) {
        return match first_char(rest) {
            Some((plain, behind)) => Ahead::One(Some(plain), behind),
            None => Ahead::Lone,
        };
    }
    match c {
        '%' => Ahead::Run(rest),
        '_' => Ahead::One(None, rest),
        _ => Ahead::One(Some(c), rest),
    }
}

fn step_at<'a>(left: &'a str, ahead: &'a str, escape: Option<char>) -> Step<'a>
    ensures { IsStep escape ahead.now left.now result }
{
    match ahead_of(ahead, escape) {
        Ahead::Run(rest) => Step::Starred(rest),
        Ahead::One(wanted, onward) => {
            let Some((c, rest)) = first_char(left) else {
                return Step::Stuck;
            };
            if !is_wanted(wanted, c) {
                return Step::Stuck;
            }
            Step::Onward(rest, onward)
        }
        Ahead::End => match first_char(left) {
            Some(_) => Step::Stuck,
            None => Step::Matched,
        },
        Ahead::Lone => Step::Stuck,
    }
}

/// One step: on by a character, past a `%`, or back to the mark and one character further there.
fn next_turn<'a>(places: Places<'a>, escape: Option<char>) -> Turn<'a>
    requires { IsMarked escape places.ahead.now places.left.now places.mark }
    ensures { (most size : ℕ) → IsWithin most size places.entry → IsTurn escape most size places.entry result }
{
    match step_at(places.left, places.ahead, escape) {
        Step::Matched => Turn::Ended(true),
        Step::Starred(rest) => Turn::Goes(Places {
            left: places.left,
            ahead: rest,
            mark: Some(Mark {
                behind: rest,
                tried: places.left,
            }),
        }),
        Step::Onward(rest, onward) => Turn::Goes(Places {
            left: rest,
            ahead: onward,
            mark: places.mark,
        }),
        Step::Stuck => {
            let Some(mark) = places.mark else {
                return Turn::Ended(false);
            };
            let Some((_, next)) = first_char(mark.tried) else {
                return Turn::Ended(false);
            };
            Turn::Goes(Places {
                left: next,
                ahead: mark.behind,
                mark: Some(Mark {
                    behind: mark.behind,
                    tried: next,
                }),
            })
        }
    }
}

/// What is asked of LIKE.
#[derive(Clone, Copy, Drop)]
struct Asked<'a> {
    text: &'a str,
    pattern: &'a str,
    escape: Option<char>,
}

/// The same, for a caller that doesn't count.
fn like_uncounted<L: Ledger>(blank: Blank, asked: Asked<'_>) -> bool
    requires name { blank.name ≡ L.name }
    requires parts { blank.parts ≡ L.parts }
    requires some { 0 < blank.parts }
    ensures { result ≡ matching.fits asked.entry.escape asked.entry.pattern.now (chars asked.entry.text.now) }
{
    let mut steps = Steps::<L>::open(blank);
    like(asked.text, asked.pattern, asked.escape, &mut steps)
}

fn escape_of(escape: Option<&str>) -> Option<char>
    ensures { result ≡ likes.escape_of (option_map (λ e. e.now) escape.entry) }
{
    let (first, _) = first_char(escape?)?;
    Some(first)
}

pub(crate) fn count_chars(text: &str) -> usize
    ensures { result ≡ length (chars text.now) }
{
    text.chars().count()
}

/// Whether this is one character, as an escape must be.
#[tactic(auto, unfolding(sb_model::specs::Likes::is_one_character))]
pub(crate) fn is_one_character(text: &str) -> bool
    ensures { result ≡ likes.is_one_character text.now }
{
    count_chars(text) == 1
}

/// `text LIKE pattern`, with the first character of `escape` as the escape, if there is one.
pub(crate) fn is_like<'a>(text: &'a str, pattern: &'a str, escape: Option<&str>) -> bool
    ensures { result ≡ likes.is_like text.now pattern.now (option_map (λ e. e.now) escape.entry) }
{
    let escape = escape_of(escape);
    let asked = Asked {
        text,
        pattern,
        escape,
    };
    like_uncounted::<Brand>(Blank::new(1), asked)
}
