// Fields of one key.
ghost use Rattle.std.specs.Prelude.{◌≡◌};
ghost use Rattle.sb_lines.specs.Tables as tables;

use crate::fault::{LineFault, bad};
use crate::fields::{
    entity_at, form_in, hex_at, mode_in, name_at, number_at, path_at, text_at, token_at, wait_in,
    whole_at,
};
use crate::form::Form;
use crate::table::Field;
use sb_machine::{Mode, Path, Token};
use sb_model::{Rows, Text};
use serde_json::Value;
use std::alloc::Global;

/// A text.
pub(crate) struct Words(pub &'static str);

impl Field for Words {
    type Value = Text;

    ghost field = { λ f. tables.text f.0.now };

    fn knows(&self, key: &str) -> bool {
        key == self.0
    }

    fn read(&self, alloc: Global, value: &Value) -> Result<Text, LineFault> {
        let Some(text) = text_at(value, self.0) else {
            return bad(alloc, self.0);
        };
        Ok(Text::of(alloc, text)?)
    }
}

/// A text as its UTF-8 bytes.
#[derive(Drop)]
pub(crate) struct PlainBytes(pub &'static str);

impl Field for PlainBytes {
    type Value = Rows<u8>;

    ghost field = { λ f. tables.text f.0.now };

    fn knows(&self, key: &str) -> bool {
        key == self.0
    }

    fn read(&self, alloc: Global, value: &Value) -> Result<Rows<u8>, LineFault> {
        let Some(text) = text_at(value, self.0) else {
            return bad(alloc, self.0);
        };
        Ok(Rows::of(alloc, text.as_bytes())?)
    }
}

/// Bytes as hexadecimal digits.
#[derive(Drop)]
pub(crate) struct Digits(pub &'static str);

impl Field for Digits {
    type Value = Rows<u8>;

    ghost field = { λ f. tables.digits f.0.now };

    fn knows(&self, key: &str) -> bool {
        key == self.0
    }

    fn read(&self, alloc: Global, value: &Value) -> Result<Rows<u8>, LineFault> {
        hex_at(alloc, value, self.0)
    }
}

/// A name, folded.
pub(crate) struct Named(pub &'static str);

impl Field for Named {
    type Value = Text;

    ghost field = { λ f. tables.name f.0.now };

    fn knows(&self, key: &str) -> bool {
        key == self.0
    }

    fn read(&self, alloc: Global, value: &Value) -> Result<Text, LineFault> {
        name_at(alloc, value, self.0)
    }
}

/// An address.
pub(crate) struct Address(pub &'static str);

impl Field for Address {
    type Value = Path;

    ghost field = { λ f. tables.address f.0.now };

    fn knows(&self, key: &str) -> bool {
        key == self.0
    }

    fn read(&self, alloc: Global, value: &Value) -> Result<Path, LineFault> {
        path_at(alloc, value, self.0)
    }
}

/// A whole number, 0 to 2^64 - 1.
pub(crate) struct Whole(pub &'static str);

impl Field for Whole {
    type Value = u64;

    ghost field = { λ f. tables.whole f.0.now };

    fn knows(&self, key: &str) -> bool {
        key == self.0
    }

    fn read(&self, alloc: Global, value: &Value) -> Result<u64, LineFault> {
        match whole_at(value, self.0) {
            Some(n) => Ok(n),
            None => bad(alloc, self.0),
        }
    }
}

/// A number that the namespace may give, 1 to 2^63 - 1.
pub(crate) struct Number(pub &'static str);

impl Field for Number {
    type Value = u64;

    ghost field = { λ f. tables.number f.0.now };

    fn knows(&self, key: &str) -> bool {
        key == self.0
    }

    fn read(&self, alloc: Global, value: &Value) -> Result<u64, LineFault> {
        match number_at(value, self.0) {
            Some(n) => Ok(n),
            None => bad(alloc, self.0),
        }
    }
}

/// An address that names no part.
pub(crate) struct EntityAddress(pub &'static str);

impl Field for EntityAddress {
    type Value = Path;

    ghost field = { λ f. tables.entity f.0.now };

    fn knows(&self, key: &str) -> bool {
        key == self.0
    }

    fn read(&self, alloc: Global, value: &Value) -> Result<Path, LineFault> {
        entity_at(alloc, value, self.0)
    }
}

/// A lock token.
pub(crate) struct TokenText(pub &'static str);

impl Field for TokenText {
    type Value = Token;

    ghost field = { λ f. tables.token f.0.now };

    fn knows(&self, key: &str) -> bool {
        key == self.0
    }

    fn read(&self, alloc: Global, value: &Value) -> Result<Token, LineFault> {
        match token_at(value, self.0) {
            Some(token) => Ok(token),
            None => bad(alloc, self.0),
        }
    }
}

/// A mode; left out, under a lock.
pub(crate) struct ModeWord(pub &'static str);

impl Field for ModeWord {
    type Value = Mode;

    ghost field = { λ f. tables.mode f.0.now };

    fn knows(&self, key: &str) -> bool {
        key == self.0
    }

    fn read(&self, alloc: Global, value: &Value) -> Result<Mode, LineFault> {
        let Some(member) = value.get(self.0) else {
            return Ok(Mode::Lock);
        };
        match mode_in(member) {
            Some(mode) => Ok(mode),
            None => bad(alloc, self.0),
        }
    }
}

/// A form; left out, the plain one.
pub(crate) struct FormWord(pub &'static str);

impl Field for FormWord {
    type Value = Form;

    ghost field = { λ f. tables.form f.0.now };

    fn knows(&self, key: &str) -> bool {
        key == self.0
    }

    fn read(&self, alloc: Global, value: &Value) -> Result<Form, LineFault> {
        let Some(member) = value.get(self.0) else {
            return Ok(Form::Plain);
        };
        match form_in(member) {
            Some(form) => Ok(form),
            None => bad(alloc, self.0),
        }
    }
}

/// How long a call waits, in s; left out, not at all.
pub(crate) struct WaitTime(pub &'static str);

impl Field for WaitTime {
    type Value = u64;

    ghost field = { λ f. tables.wait f.0.now };

    fn knows(&self, key: &str) -> bool {
        key == self.0
    }

    fn read(&self, alloc: Global, value: &Value) -> Result<u64, LineFault> {
        let Some(member) = value.get(self.0) else {
            return Ok(0);
        };
        match wait_in(member) {
            Some(wait_s) => Ok(wait_s),
            None => bad(alloc, self.0),
        }
    }
}

/// A whole number, 0 to 2^64 - 1, or this where it is left out.
pub(crate) struct WholeOr(pub &'static str, pub u64);

impl Field for WholeOr {
    type Value = u64;

    ghost field = { λ f. tables.whole_or f.0.now f.1 };

    fn knows(&self, key: &str) -> bool {
        key == self.0
    }

    fn read(&self, alloc: Global, value: &Value) -> Result<u64, LineFault> {
        let Some(member) = value.get(self.0) else {
            return Ok(self.1);
        };
        match member.as_u64() {
            Some(n) => Ok(n),
            None => bad(alloc, self.0),
        }
    }
}

/// A truth value, or this where it is left out.
pub(crate) struct TruthOr(pub &'static str, pub bool);

impl Field for TruthOr {
    type Value = bool;

    ghost field = { λ f. tables.truth_or f.0.now f.1 };

    fn knows(&self, key: &str) -> bool {
        key == self.0
    }

    fn read(&self, alloc: Global, value: &Value) -> Result<bool, LineFault> {
        let Some(member) = value.get(self.0) else {
            return Ok(self.1);
        };
        match member.as_bool() {
            Some(truth) => Ok(truth),
            None => bad(alloc, self.0),
        }
    }
}
