// How soon an object in memory answers.

/// Whether each call is answered at once, or "nothing yet" every other time.
#[derive(Clone, Copy)]
pub(crate) struct Pace {
    hesitates: bool,
    is_ready: bool,
}

impl Pace {
    /// At once.
    pub(crate) fn even() -> Self {
        Pace {
            hesitates: false,
            is_ready: true,
        }
    }

    /// Every other time.
    pub(crate) fn hesitant() -> Self {
        Pace {
            hesitates: true,
            is_ready: false,
        }
    }

    pub(crate) fn is_hesitant(&self) -> bool {
        self.hesitates
    }

    /// Whether this call is answered "nothing yet".
    pub(crate) fn holds(&mut self) -> bool {
        if !self.hesitates {
            return false;
        }
        self.is_ready = !self.is_ready;
        self.is_ready
    }
}
