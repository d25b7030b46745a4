// Rows of LIKE, worked through with the definitions alone.
ghost use Rattle.std.specs.Prelude.{◌≡◌, true, false, codes, [], ◌∷◌, Some, None};
ghost use Rattle.sb_model.specs.Likes.{is_like, is_one_character};

/// What LIKE says of some texts and patterns, worked out by hand.
pub fn like_rows()
    ensures lone_escape { is_like (codes "x") (codes "x!") (Some (codes "!")) ≡ false }
    ensures escaped_percent { is_like (codes "50% off") (codes "50!%%") (Some (codes "!")) ≡ true }
    ensures escaped_percent_missing { is_like (codes "500") (codes "50!%%") (Some (codes "!")) ≡ false }
    ensures empty_run { is_like [] (codes "%") None ≡ true }
    ensures one_of_two_bytes { is_like (195 ∷ 169 ∷ []) (codes "_") None ≡ true }
    ensures two_of_two_bytes { is_like (195 ∷ 169 ∷ []) (codes "__") None ≡ false }
    ensures runs { is_like (codes "a-b-b-c") (codes "a%b%c") None ≡ true }
    ensures percent_escape { is_like (codes "a%") (codes "a%%") (Some (codes "%")) ≡ true }
    ensures one { is_one_character (195 ∷ 169 ∷ []) ≡ true }
    ensures none { is_one_character [] ≡ false }
{}
