// The words of a seed, and what each asks for.
ghost use Rattle.std.specs.Prelude.{◌≡◌};
ghost use Rattle.sb_drill.specs.Draws as draws;

use crate::choice::Choice;
use rand_core::SeedableRng;
use rand_core::utils::NextWord;
use rand_pcg::Pcg32;

/// The word of a seed behind so many others. It is found by a jump over these, so that no generator
/// goes from call to call.
#[tactic(auto, unfolding(crate::specs::Draws::word_at))]
pub(crate) fn word_at(seed: u64, place: u64) -> u32
    ensures { result ≡ draws.word_at seed place }
{
    let mut words = Pcg32::seed_from_u64(seed);
    words.advance(place);
    words.next_word()
}

/// What a word asks for, by its last decimal digit.
#[tactic(auto, unfolding(crate::specs::Draws::choice_of))]
pub(crate) fn choice_of(word: u32) -> Choice
    ensures { result ≡ draws.choice_of word }
{
    match word % 10 {
        0 | 1 => Choice::SendPlain,
        2 => Choice::SendTopic,
        3 => Choice::SendSession,
        4 => Choice::LockPlain,
        5 => Choice::TakeTopic,
        6 => Choice::CompletePlain,
        7 => Choice::AcceptSession,
        8 => Choice::LockSession,
        _ => Choice::TakeDead,
    }
}

/// The number below 16 that a word brings.
pub(crate) fn value_of(word: u32) -> u32
    ensures { result ≡ draws.value_of word }
{
    word / 10 % 16
}
