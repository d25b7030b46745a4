// Fields that settlements have and what a session remembers, whether they act alone or together.
ghost use Rattle.std.specs.Prelude.{◌≡◌};
ghost use Rattle.sb_lines.specs.Lines as lines;

use crate::fault::LineFault;
use crate::keys::{Address, Number, TokenText, Words};
use crate::messages::Bytes;
use crate::table::{AtMostOne, Either, Field, OneOf, Optional};
use sb_machine::{Path, Token, Which};
use sb_model::{Rows, Text};
use serde_json::Value;
use std::alloc::Global;

fn which_of(said: Either<u64, Text>) -> Which
    ensures { result ≡ lines.which_of said }
{
    match said {
        Either::First(number) => Which::Number(number),
        Either::Second(id) => Which::Id(id),
    }
}

/// A copy, by its number or by its id.
pub(crate) struct WhichOne;

impl Field for WhichOne {
    type Value = Which;

    ghost field = { λ _. lines.which };

    #[tactic(auto, unfolding(crate::specs::Lines::which))]
    fn knows(&self, key: &str) -> bool {
        key == "seq" || key == "id"
    }

    #[tactic(auto, unfolding(crate::specs::Lines::which))]
    fn read(&self, alloc: Global, value: &Value) -> Result<Which, LineFault> {
        let said = OneOf(AtMostOne("seq", Number("seq"), "id", Words("id"))).read(alloc, value)?;
        Ok(which_of(said))
    }
}

/// A settlement of a copy, and what stands behind its session.
pub(crate) struct Settled<F>(pub F);

impl<F: Field> Field for Settled<F> {
    type Value = (Path, (Which, (Token, (Option<Token>, F::Value))));

    ghost field = { λ f. lines.settled (F.field f.0) };

    fn knows(&self, key: &str) -> bool {
        key == "from"
            || WhichOne.knows(key)
            || key == "token"
            || key == "session"
            || self.0.knows(key)
    }

    fn read(
        &self,
        alloc: Global,
        value: &Value,
    ) -> Result<(Path, (Which, (Token, (Option<Token>, F::Value)))), LineFault> {
        let from = Address("from").read(alloc, value)?;
        let which = WhichOne.read(alloc, value)?;
        let token = TokenText("token").read(alloc, value)?;
        let session = Optional("session", TokenText("session")).read(alloc, value)?;
        let rest = self.0.read(alloc, value)?;
        Ok((from, (which, (token, (session, rest)))))
    }
}

/// A dead letter's reason and description, each or none.
pub(crate) struct Reasons;

impl Field for Reasons {
    type Value = (Option<Text>, Option<Text>);

    ghost field = { λ _. lines.reasons };

    fn knows(&self, key: &str) -> bool {
        key == "reason" || key == "description"
    }

    fn read(
        &self,
        alloc: Global,
        value: &Value,
    ) -> Result<(Option<Text>, Option<Text>), LineFault> {
        let reason = Optional("reason", Words("reason")).read(alloc, value)?;
        let description = Optional("description", Words("description")).read(alloc, value)?;
        Ok((reason, description))
    }
}

/// What a session is to remember, or nothing.
pub(crate) struct Remembered;

impl Field for Remembered {
    type Value = (Path, (Token, Option<Rows<u8>>));

    ghost field = { λ _. lines.remembered };

    #[tactic(auto, unfolding(crate::specs::Messages::bytes))]
    fn knows(&self, key: &str) -> bool {
        key == "from" || key == "session" || key == "state" || key == "state_hex"
    }

    fn read(
        &self,
        alloc: Global,
        value: &Value,
    ) -> Result<(Path, (Token, Option<Rows<u8>>)), LineFault> {
        let from = Address("from").read(alloc, value)?;
        let session = TokenText("session").read(alloc, value)?;
        let state = Bytes("state", "state_hex").read(alloc, value)?;
        Ok((from, (session, state)))
    }
}
