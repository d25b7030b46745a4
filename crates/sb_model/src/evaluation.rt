// What keeps an expression of the filter language from having a value.
use std::alloc::AllocError;

/// Why a filter or an action couldn't be carried out on a message (Microsoft Learn, Service Bus,
/// "Subscription rule SQL filter syntax" and "SQL action syntax").
#[derive(Clone, Copy, Debug, PartialEq, Eq, Drop)]
pub enum EvalFault {
    /// A whole number beyond 64 bits, also in a quotient whose remainder is asked for.
    Overflow,
    /// `/` or `%` by zero.
    DivideByZero,
    /// A name behind `sys.` that the service doesn't know.
    NoSystemProperty,
    /// An action sets a system property to what it can't hold.
    BadSystemValue,
    /// An action makes the message's properties too large or too many.
    TooLarge,
    OutOfMemory,
}

impl From<AllocError> for EvalFault {
    ghost use Rattle.std.specs.Prelude.{◌≡◌};
    ghost use Rattle.sb_model.specs.declared.evaluation.EvalFault.TheVariants.{OutOfMemory};

    ghost from_gives = { λ _ e. e ≡ OutOfMemory };

    fn from(_e: AllocError) -> Self {
        EvalFault::OutOfMemory
    }
}
