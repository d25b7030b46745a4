// Calls with a client's number: each acts once.
ghost use Rattle.std.specs.Prelude.{◌≡◌};
ghost use Rattle.std.specs.Option.{option_map};
ghost use Rattle.sb_machine.specs.Repeats as repeats;
ghost use Rattle.sb_machine.specs.Repeats.{Outcome};
ghost use Rattle.sb_engine.specs.Calls.{Follows};

use sb_machine::{Act, By, Call, Kept, Refusal, Reply};
use sb_names::limits::MAX_CLIENTS;
use sb_names::takes_number;
use sb_repeats::{Clients, is_same_act};

/// Who asks, where the act takes a number.
pub fn client_of(call: &Call) -> Option<&By>
    ensures { option_map (λ by. by.now) result ≡ repeats.client_of call.now }
{
    if takes_number(&call.act) {
        call.by.as_ref()
    } else {
        None
    }
}

/// What a client's number says of a call.
#[derive(Drop)]
pub enum Verdict<'a> {
    Acts,
    /// It acted before, and was answered so.
    Acted(&'a Reply),
    Refused(Refusal),
}

fn against<'a>(by: &By, act: &Act, kept: &'a Kept) -> Verdict<'a>
    ensures { (next : Outcome) → Follows result (repeats.against by.now act.now kept.now next) next }
{
    if by.number < kept.number {
        return Verdict::Refused(Refusal::StaleNumber { kept: kept.number });
    }
    if by.number != kept.number {
        return Verdict::Acts;
    }
    if is_same_act(&kept.act, act) {
        Verdict::Acted(&kept.reply)
    } else {
        Verdict::Refused(Refusal::NumberReused)
    }
}

/// A client's number against the one that is kept.
pub fn judge_number<'a>(clients: &'a Clients, by: &By, act: &Act) -> Verdict<'a>
    ensures { (next : Outcome) → Follows result (repeats.by_number by.now act.now clients.now.clients (repeats.kept_for by.now.client clients.now.clients) next) next }
{
    match clients.get(by.client.as_str()) {
        Some(kept) => against(by, act, kept),
        None => {
            if clients.size() < MAX_CLIENTS {
                Verdict::Acts
            } else {
                Verdict::Refused(Refusal::ClientsFull)
            }
        }
    }
}
