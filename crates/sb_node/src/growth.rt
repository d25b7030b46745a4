// How far a journal has grown, and when that is enough to go on with a new file.
ghost use Rattle.std.specs.Prelude.{◌≡◌, true, nat_lt};

// The bytes of a file without a base and records: its head and the gate of the next record.
const HEAD: u64 = 43;

/// When a journal goes on with a new file by itself. All are numbers of bytes, and but for the first hints.
#[derive(Clone, Copy)]
pub(crate) struct Growth {
    /// It may once its records take more than this; by 0 never.
    pub(crate) checkpoint_after: u64,
    // What its base takes.
    base: u64,
    // What the records took that it had as it was opened, if it still has them.
    opened: u64,
    // It may only once its records take this.
    least: u64,
}

impl Growth {
    /// Of a journal whose base and records take so much: it doesn't go on by itself.
    pub(crate) fn of(base: u64, records: u64) -> Growth
        ensures { result.checkpoint_after ≡ 0 }
    {
        Growth {
            checkpoint_after: 0,
            base,
            opened: records,
            least: 0,
        }
    }

    /// Whether it is time to go on, where since the opening, or since it went on, so much was written: its records
    /// take more than was asked for, and twice what its base takes.
    pub(crate) fn is_enough(&self, written: u64) -> bool
        ensures { result ≡ true → nat_lt 0 self.now.checkpoint_after ≡ true }
    {
        if self.checkpoint_after == 0 {
            return false;
        }
        let records = self.opened.saturating_add(written);
        records > self.checkpoint_after
            && records >= self.base.saturating_mul(2)
            && records >= self.least
    }

    /// How many bytes its file has, where since the opening, or since it went on, so much was written. A hint.
    pub(crate) fn bytes(&self, written: u64) -> u64 {
        HEAD.saturating_add(self.base)
            .saturating_add(self.opened)
            .saturating_add(written)
    }

    /// It went on with a file whose base takes so much.
    pub(crate) fn went_on(&mut self, base: u64)
        ensures { self.new.checkpoint_after ≡ self.old.checkpoint_after }
    {
        self.base = base;
        self.opened = 0;
        self.least = 0;
    }

    /// It couldn't go on, where so much was written: it is tried again once as much more was as was asked for.
    pub(crate) fn put_off(&mut self, written: u64)
        ensures { self.new.checkpoint_after ≡ self.old.checkpoint_after }
    {
        let records = self.opened.saturating_add(written);
        self.least = records.saturating_add(self.checkpoint_after);
    }
}
