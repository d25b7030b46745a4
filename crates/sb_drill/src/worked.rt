// The first words of a seed, by the table of the generator's authors.
ghost use Rattle.std.specs.Prelude.{◌≡◌};
ghost use Rattle.sb_drill.specs.Draws.{word_at};

/// The first two words of the seed 0: the halves of 18195738587432868099, the low one first, which the
/// table of the Rust crate `rand_pcg` has.
pub fn worked_words()
    ensures first { word_at 0 0 ≡ 298703107 }
    ensures second { word_at 0 1 ≡ 4236525527 }
{}
