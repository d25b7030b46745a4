// Lists in order, and rising numbers.
ghost use Rattle.std.specs.Prelude.{◌≡◌, ℕ, Bool};
ghost use Rattle.sb_judge.specs.Orders.{is_on, is_on_from};
ghost use Rattle.sb_judge.specs.Verdicts.{rising};

/// What stands in lists in an order.
pub(crate) trait Ordered {
    ghost before: { Self → Self → Bool };

    fn is_before(&self, other: &Self) -> bool
        ensures { result ≡ before self.now other.now };
}

/// What stands in lists by numbers that rise.
pub(crate) trait Numbered {
    ghost number_of: { Self → ℕ };

    fn number(&self) -> u64
        ensures { result ≡ number_of self.now };
}

/// Whether each stands before the next.
pub(crate) fn is_on<T: Ordered>(rows: &[T]) -> bool
    ensures { result ≡ is_on T.before rows.now }
{
    match rows {
        [] => true,
        [first, rest @ ..] => is_on_from(first, rest),
    }
}

fn is_on_from<T: Ordered>(first: &T, rest: &[T]) -> bool
    ensures { result ≡ is_on_from T.before first.now rest.now }
{
    let mut last = first;
    for next in rest {
        if !last.is_before(next) {
            return false;
        }
        last = next;
    }
    true
}

/// Whether the numbers rise from 1 up to the last at most.
pub(crate) fn are_rising<T: Numbered>(rows: &[T], last: u64) -> bool
    ensures { result ≡ (rising T.number_of 0 last rows.now).0 }
{
    let mut above = 0;
    for row in rows {
        let number = row.number();
        if number <= above {
            return false;
        }
        above = number;
    }
    above <= last
}
