// Why bytes could not be read.
ghost use Rattle.std.specs.Prelude.{◌≡◌};
ghost use Rattle.sb_amqp.specs.declared.fault.AmqpFault.TheVariants.{OutOfMemory};

use std::alloc::{AllocError, AllocFailed};

/// Why bytes could not be read as a message.
#[derive(Drop)]
pub enum AmqpFault {
    /// Here no section begins that may stand here: what should be one breaks off, is not well
    /// formed, stands out of order or twice, or there is no body.
    BadMessage { at: usize },
    /// All sections are well formed, and the first value that is used but has a type, a range or an
    /// encoding that no message has begins here.
    Unsupported { at: usize },
    /// Memory is wanting.
    OutOfMemory,
}

impl From<AllocError> for AmqpFault {
    ghost from_gives = { λ _ e. e ≡ OutOfMemory };

    fn from(_e: AllocError) -> AmqpFault {
        AmqpFault::OutOfMemory
    }
}

impl<T: Drop> From<AllocFailed<T>> for AmqpFault {
    ghost from_gives = { λ _ e. e ≡ OutOfMemory };

    fn from(_e: AllocFailed<T>) -> AmqpFault {
        AmqpFault::OutOfMemory
    }
}
