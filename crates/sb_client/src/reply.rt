// The reply line in a response.
ghost use Rattle.std.specs.Prelude.{◌≡◌, ◌⊎◌, ◌++◌, ◌∷◌, [], ℕ, List, IfOk, IfErr, IfSome, None, Err, true, false};
ghost use Rattle.serde_json.specs.Data.{Data};
ghost use Rattle.serde_json.specs.View.{view};
ghost use Rattle.sb_client.specs.Replies as replies;
ghost use Rattle.sb_client.specs.Replies.{IsReplyLine, MayBeReply, TakesLine, HasNoLine};
ghost use Rattle.sb_client.specs.declared.ending.ClientEnding.TheVariants.{BadReply, OutOfMemory};

use crate::ending::ClientEnding;
use sb_http::read_response;
use serde_json::Value;
use serde_json::error::Category;
use std::alloc::{AllocError, Global};

// What stands before the line feed at the end.
fn without_feed(line: &[u8]) -> Option<&[u8]>
    ensures some { IfSome result (λ text. line.now ≡ text.now ++ 10 ∷ []) }
    ensures none { result ≡ None → (text : List ℕ) → line.now ≡ text ++ 10 ∷ [] → ⊥ }
{
    match line {
        [text @ .., b'\n'] => Some(text),
        _ => None,
    }
}

fn is_same(left: &[u8], right: &[u8]) -> bool
    ensures yes { result ≡ true → left.now ≡ right.now }
    ensures no { result ≡ false → left.now ≡ right.now → ⊥ }
{
    left == right
}

// The value of a reply line's text; none where it is none.
fn object_in(alloc: Global, text: &[u8]) -> Result<Option<Value>, AllocError>
    ensures some { IfOk result (λ o. IfSome o (λ v. MayBeReply (text.now ++ 10 ∷ []) (view v))) }
    ensures none { IfOk result (λ o. o ≡ None → (d : Data) → IsReplyLine (text.now ++ 10 ∷ []) d → ⊥) }
{
    let value = match Value::from_slice(alloc, text) {
        Ok(value) => value,
        Err(error) => {
            if error.classify() == Category::Memory {
                return Err(AllocError);
            }
            return Ok(None);
        }
    };
    if !value.is_object() {
        return Ok(None);
    }
    let printed = value.to_vec(alloc)?;
    if is_same(&printed, text) {
        Ok(Some(value))
    } else {
        Ok(None)
    }
}

// The value of a reply line; none where it is none.
fn reply_value(alloc: Global, line: &[u8]) -> Result<Option<Value>, AllocError>
    ensures some { IfOk result (λ o. IfSome o (λ v. MayBeReply line.now (view v))) }
    ensures none { IfOk result (λ o. o ≡ None → (d : Data) → IsReplyLine line.now d → ⊥) }
{
    match without_feed(line) {
        Some(text) => object_in(alloc, text),
        None => Ok(None),
    }
}

// Whether the reply is a refusal.
#[tactic(auto, unfolding(crate::specs::Replies::refuses))]
fn refuses(value: &Value) -> bool
    ensures { result ≡ replies.refuses (view value.now) }
{
    value.get("refused").is_some()
}

/// The reply line in the bytes of a response, and whether it is a refusal.
pub(crate) fn take_reply(alloc: Global, bytes: &[u8]) -> Result<(&[u8], bool), ClientEnding>
    ensures takes { IfOk result (λ x. (d : Data) × TakesLine bytes.now x.0.now d × (x.1 ≡ replies.refuses d)) }
    ensures bad { result ≡ Err BadReply → HasNoLine bytes.now }
    ensures known { IfErr result (λ e. (e ≡ BadReply) ⊎ (e ≡ OutOfMemory)) }
{
    let Some(response) = read_response(bytes) else {
        return Err(ClientEnding::BadReply);
    };
    if response.code != 200 {
        return Err(ClientEnding::BadReply);
    }
    match reply_value(alloc, response.body) {
        Ok(Some(value)) => Ok((response.body, refuses(&value))),
        Ok(None) => Err(ClientEnding::BadReply),
        Err(_) => Err(ClientEnding::OutOfMemory),
    }
}

/// The line of the refusal that a line is too long.
#[tactic(auto, unfolding(crate::specs::Replies::long_line))]
pub(crate) fn long_line() -> &'static str
    ensures { result.now ≡ replies.long_line }
{
    "{\"key\":\"line\",\"refused\":\"BadCall\"}\n"
}
