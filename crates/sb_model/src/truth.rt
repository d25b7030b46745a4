// Truth values of conditions.
ghost use Rattle.std.specs.Prelude.{◌≡◌};
ghost use Rattle.sb_model.specs.Truth.{known, truth_not, truth_and, truth_or};

/// What a condition comes to (SQL's three-valued logic): a comparison with a value that isn't
/// there is unknown. A filter matches where its condition is true, and not where it is unknown.
#[derive(Clone, Copy, Debug, PartialEq, Eq, Drop)]
pub enum Truth {
    True,
    False,
    Unknown,
}

impl Truth {
    /// True or false.
    pub fn known(is: bool) -> Self
        ensures { result ≡ known is }
    {
        if is { Truth::True } else { Truth::False }
    }

    /// NOT: true and false are swapped.
    pub fn not(self) -> Self
        ensures { result ≡ truth_not self }
    {
        match self {
            Truth::True => Truth::False,
            Truth::False => Truth::True,
            Truth::Unknown => Truth::Unknown,
        }
    }

    /// AND: false where one side is false, true where both are true.
    pub fn and(self, other: Self) -> Self
        ensures { result ≡ truth_and self other }
    {
        match (self, other) {
            (Truth::False, _) | (_, Truth::False) => Truth::False,
            (Truth::True, Truth::True) => Truth::True,
            _ => Truth::Unknown,
        }
    }

    /// OR: true where one side is true, false where both are false.
    pub fn or(self, other: Self) -> Self
        ensures { result ≡ truth_or self other }
    {
        match (self, other) {
            (Truth::True, _) | (_, Truth::True) => Truth::True,
            (Truth::False, Truth::False) => Truth::False,
            _ => Truth::Unknown,
        }
    }
}
