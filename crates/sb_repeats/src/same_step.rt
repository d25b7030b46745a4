// Whether two of the operations that act together are equal, in all their fields.
ghost use Rattle.std.specs.Prelude.{◌≡◌};
ghost use Rattle.sb_machine.specs.Same as spec;
ghost use Rattle.sb_machine.specs.declared.call.Step.TheVariants.{Send, Settle, SessionSet};

use crate::same::{
    are_same_messages, is_same_bytes_option, is_same_how, is_same_path, is_same_token,
    is_same_token_option, is_same_which,
};
use sb_machine::{How, Path, Step, Token, Which};
use sb_model::{Message, Rows};

/// Whether these operations are equal, one by one.
pub fn are_same_steps(a: &Rows<Step>, b: &Rows<Step>) -> bool
    ensures { result ≡ spec.same_list spec.same_step a.now b.now }
{
    are_same_in(a.as_slice(), b.as_slice())
}

fn are_same_in(a: &[Step], b: &[Step]) -> bool
    ensures { result ≡ spec.same_list spec.same_step a.now b.now }
{
    if a.len() != b.len() {
        return false;
    }
    for place in 0..a.len() {
        if !is_same_step(&a[place], &b[place]) {
            return false;
        }
    }
    true
}

fn is_same_step(a: &Step, b: &Step) -> bool
    ensures { result ≡ spec.same_step a.now b.now }
{
    match a {
        Step::Send { to, messages } => is_send(b, to, messages),
        Step::Settle {
            from,
            which,
            token,
            session,
            how,
        } => is_settle(b, from, which, *token, *session, how),
        Step::SessionSet {
            from,
            session,
            state,
        } => is_session_set(b, from, *session, state),
    }
}

fn is_send(other: &Step, to: &Path, messages: &Rows<Message>) -> bool
    ensures { result ≡ spec.same_step (Send to.now messages.now) other.now }
{
    match other {
        Step::Send {
            to: own_to,
            messages: own_messages,
        } => is_same_path(to, own_to) && are_same_messages(messages, own_messages),
        _ => false,
    }
}

fn is_settle(
    other: &Step,
    from: &Path,
    which: &Which,
    token: Token,
    session: Option<Token>,
    how: &How,
) -> bool
    ensures { result ≡ spec.same_step (Settle from.now which.now token session how.now) other.now }
{
    match other {
        Step::Settle {
            from: own_from,
            which: own_which,
            token: own_token,
            session: own_session,
            how: own_how,
        } => is_same_path(from, own_from)
            && is_same_which(which, own_which)
            && is_same_token(token, *own_token)
            && is_same_token_option(session, *own_session)
            && is_same_how(how, own_how),
        _ => false,
    }
}

fn is_session_set(other: &Step, from: &Path, session: Token, state: &Option<Rows<u8>>) -> bool
    ensures { result ≡ spec.same_step (SessionSet from.now session state.now) other.now }
{
    match other {
        Step::SessionSet {
            from: own_from,
            session: own_session,
            state: own_state,
        } => is_same_path(from, own_from)
            && is_same_token(session, *own_session)
            && is_same_bytes_option(state, own_state),
        _ => false,
    }
}
