// Acts, each by its code and its fields.
ghost use Rattle.std.specs.Prelude.{◌≡◌, OnOk};
ghost use Rattle.sb_codec.specs.Acts.{
  any_act,
  any_act_case,
  any_act_choice,
  send,
  cancel,
  receive,
  receive_deferred,
  settle,
  renew,
  accept,
  session_renew,
  session_close,
  session_set,
  begin,
  commit,
  rollback,
  together,
  forget_client,
};
ghost use Rattle.sb_codec.specs.Readers.{Gives};
ghost use Rattle.sb_codec.specs.Forms.{Form, Puts, ◌or◌, no_row};

use crate::choices::{FilterPiece, HowPiece, WhichPiece};
use crate::coded::split_code;
use crate::fields::{Blob, Number64, Opt, Words};
use crate::lists::Listed;
use crate::messages::MessagePiece;
use crate::piece::{Piece, put_fields, take_fields};
use crate::pieces::{DescriptionPiece, ModePiece, PathPiece, TokenPiece};
use crate::steps::StepPiece;
use crate::unread::Unread;
use sb_machine::Act;
use std::alloc::{AllocError, Global};

// Every variant with a spelling: its code, its name, and its fields in their order. Ahead of them the entities' own,
// then the messages', then the others: each of the three lists is read in a function of its own.
macro_rules! acts {
    ($with:ident $($given:ident)*) => {
        $with!($($given)*;
            [1 CreateQueue { name: Words, description: DescriptionPiece },
            2 CreateTopic { name: Words, description: DescriptionPiece },
            3 CreateSubscription { topic: Words, name: Words, description: DescriptionPiece },
            4 CreateRule { topic: Words, subscription: Words, name: Words, filter: FilterPiece, action: Opt<Words> },
            5 Delete { entity: PathPiece },
            6 DeleteRule { topic: Words, subscription: Words, name: Words }]
            [7 Send { to: PathPiece, messages: Listed<MessagePiece>, txn: Opt<Number64> },
            8 Cancel { from: PathPiece, number: Number64 },
            9 Receive { from: PathPiece, mode: ModePiece, session: Opt<TokenPiece> },
            10 ReceiveDeferred { from: PathPiece, number: Number64, mode: ModePiece, session: Opt<TokenPiece> },
            11 Settle { from: PathPiece, which: WhichPiece, token: TokenPiece, session: Opt<TokenPiece>, how: HowPiece, txn: Opt<Number64> },
            12 Renew { from: PathPiece, which: WhichPiece, token: TokenPiece }]
            [13 Accept { from: PathPiece, id: Opt<Words> },
            14 SessionRenew { from: PathPiece, session: TokenPiece },
            15 SessionClose { from: PathPiece, session: TokenPiece },
            16 SessionSet { from: PathPiece, session: TokenPiece, state: Opt<Blob> },
            17 Begin { entity: PathPiece },
            18 Commit { txn: Number64 },
            19 Rollback { txn: Number64 },
            32 Together { entity: PathPiece, steps: Listed<StepPiece> },
            33 ForgetClient { client: Words }])
    };
}

macro_rules! code_of_act {
    ($act:ident; $([$($code:literal $name:ident { $($field:ident: $form:ty),* }),*])*) => {
        match $act {
            $($(Act::$name { .. } => $code,)*)*
            Act::SessionState { .. } | Act::Peek { .. } | Act::Counts { .. } | Act::Look { .. } => 0,
        }
    };
}

macro_rules! put_act {
    ($act:ident $out:ident; $([$($code:literal $name:ident { $($field:ident: $form:ty),* }),*])*) => {
        match $act {
            $($(Act::$name { $($field),* } => put_fields!($out, $($field => $form),*),)*)*
            Act::SessionState { .. } | Act::Peek { .. } | Act::Counts { .. } | Act::Look { .. } => unreachable!(),
        }
    };
}

macro_rules! act_of {
    ($alloc:ident $code:ident $rest:ident $otherwise:expr; [$($number:literal $name:ident { $($field:ident: $form:ty),* }),*]) => {
        match $code {
            $($number => take_fields!($alloc, $rest, Act::$name { $($field: $form),* }),)*
            _ => $otherwise,
        }
    };
}

macro_rules! entity_act_of {
    ($alloc:ident $code:ident $rest:ident; $entities:tt $messages:tt $others:tt) => {
        act_of!($alloc $code $rest take_message_act($alloc, $code, $rest); $entities)
    };
}

macro_rules! message_act_of {
    ($alloc:ident $code:ident $rest:ident; $entities:tt $messages:tt $others:tt) => {
        act_of!($alloc $code $rest take_other_act($alloc, $code, $rest); $messages)
    };
}

macro_rules! other_act_of {
    ($alloc:ident $code:ident $rest:ident; $entities:tt $messages:tt $others:tt) => {
        act_of!($alloc $code $rest Err(Unread::NoSpelling); $others)
    };
}

/// An act: its code and its fields.
pub struct ActPiece;

impl Piece for ActPiece {
    type Value = Act;

    ghost form = { any_act };

    #[tactic(auto, unfolding(crate::specs::Acts::any_act))]
    fn put(value: &Act, out: &mut Vec<u8>) -> Result<(), AllocError> {
        out.push(code_of(value))?;
        put_behind_code(value, out)
    }

    #[tactic(auto, unfolding(crate::specs::Acts::any_act, crate::specs::Forms::chosen_at))]
    fn take(alloc: Global, bytes: &[u8]) -> Result<(Act, &[u8]), Unread> {
        let Some((code, rest)) = split_code(bytes) else {
            return Err(Unread::NoSpelling);
        };
        take_behind_code(alloc, code, rest)
    }
}

// The code of an act: 0, which no act has, of one that only looks.
fn code_of(act: &Act) -> u8
    ensures { result ≡ (any_act_case act.now).code }
{
    acts!(code_of_act act)
}

// Adds the fields of an act, as they stand behind its code.
fn put_behind_code(act: &Act, out: &mut Vec<u8>) -> Result<(), AllocError>
    requires { (any_act_case act.now).Asks }
    ensures puts { Puts (any_act_case act.now).bytes out.old out.new result }
    ensures fits { OnOk result (any_act_case act.now).Fits }
{
    acts!(put_act act out)
}

// The act whose fields these bytes begin with, where its code stood ahead of them.
fn take_behind_code(alloc: Global, code: u8, bytes: &[u8]) -> Result<(Act, &[u8]), Unread>
    ensures { Gives (λ x. (x.0, x.1.now)) result (any_act_choice code bytes.now) }
{
    acts!(entity_act_of alloc code bytes)
}

// The same, of an act that concerns messages or has a code behind theirs.
fn take_message_act(alloc: Global, code: u8, bytes: &[u8]) -> Result<(Act, &[u8]), Unread>
    ensures { Gives (λ x. (x.0, x.1.now)) result
        ((send or cancel or receive or receive_deferred or settle or renew
        or accept or session_renew or session_close or session_set or begin or commit or rollback
        or together or forget_client or no_row) code bytes.now) }
{
    acts!(message_act_of alloc code bytes)
}

// The same, of an act that has a code behind those.
fn take_other_act(alloc: Global, code: u8, bytes: &[u8]) -> Result<(Act, &[u8]), Unread>
    ensures { Gives (λ x. (x.0, x.1.now)) result
        ((accept or session_renew or session_close or session_set or begin or commit or rollback
        or together or forget_client or no_row) code bytes.now) }
{
    acts!(other_act_of alloc code bytes)
}
