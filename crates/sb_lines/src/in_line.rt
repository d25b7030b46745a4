// The keys that a line, or an operation of one, may have beside those of its act.
ghost use Rattle.std.specs.Prelude.{◌≡◌};
ghost use Rattle.sb_lines.specs.Lines as lines;

use crate::fault::LineFault;
use crate::table::Field;
use serde_json::Value;
use std::alloc::Global;

/// Fields of an act, beside the keys that each line may have.
pub(crate) struct InLine<F>(pub F);

impl<F: Field> Field for InLine<F> {
    type Value = F::Value;

    ghost field = { λ f. lines.in_line (F.field f.0) };

    fn knows(&self, key: &str) -> bool {
        key == "do" || key == "at" || key == "client" || key == "number" || self.0.knows(key)
    }

    fn read(&self, alloc: Global, value: &Value) -> Result<F::Value, LineFault> {
        self.0.read(alloc, value)
    }
}

/// The same, and behind them the form in which the reply is shown, which is no part of the act.
pub(crate) struct Shown<F>(pub F);

impl<F: Field> Field for Shown<F> {
    type Value = F::Value;

    ghost field = { λ f. lines.shown (F.field f.0) };

    fn knows(&self, key: &str) -> bool {
        self.0.knows(key) || key == "form"
    }

    fn read(&self, alloc: Global, value: &Value) -> Result<F::Value, LineFault> {
        self.0.read(alloc, value)
    }
}

/// The same, and last how long the call waits while it finds nothing, which is no part of the act either.
pub(crate) struct Waiting<F>(pub F);

impl<F: Field> Field for Waiting<F> {
    type Value = F::Value;

    ghost field = { λ f. lines.waiting (F.field f.0) };

    fn knows(&self, key: &str) -> bool {
        self.0.knows(key) || key == "wait"
    }

    fn read(&self, alloc: Global, value: &Value) -> Result<F::Value, LineFault> {
        self.0.read(alloc, value)
    }
}

/// Fields of an operation that acts together with others, beside its word.
pub(crate) struct InStep<F>(pub F);

impl<F: Field> Field for InStep<F> {
    type Value = F::Value;

    ghost field = { λ f. lines.in_step (F.field f.0) };

    fn knows(&self, key: &str) -> bool {
        key == "do" || self.0.knows(key)
    }

    fn read(&self, alloc: Global, value: &Value) -> Result<F::Value, LineFault> {
        self.0.read(alloc, value)
    }
}
