// What the queued operations of a transaction do as they act, one after another.
ghost use Rattle.std.specs.Prelude.{◌≡◌, ◌++◌, ◌∷◌, [], OnOk};
ghost use Rattle.sb_entities.specs.Stores.{entity_in, space_in};
ghost use Rattle.sb_machine.specs.Changes.{in_turn};
ghost use Rattle.sb_machine.specs.Names as names;
ghost use Rattle.sb_machine.specs.Namespace.{listed};
ghost use Rattle.sb_machine.specs.Sending.{receipts, send_changes};
ghost use Rattle.sb_machine.specs.Together as together;
ghost use Rattle.sb_machine.specs.Transactions as spec;
ghost use Rattle.sb_machine.specs.declared.state.Operation.TheVariants.{Send, Settle};
ghost use Rattle.sb_engine.specs.Commits as commits;
ghost use Rattle.sb_engine.specs.Commits.{Acts, ActsTelling, AsFound};
ghost use Rattle.sb_engine.specs.Sendings.{IsUnderWay, space_at, told};

use crate::deliver::sending::{Sending, copy_of, send_all};
use crate::deliver::settling::settled;
use crate::find::leases::leased;
use sb_entities::{EntityStore, SpaceStore};
use sb_fanout::hand_on;
use sb_machine::{Directory, How, LeafKey, Operation, Part, Path, Receipt, Token, Which};
use sb_model::{Message, Rows};
use sb_names::{goes_with, is_same_entity};
use std::alloc::{AllocError, Global};
use std::collections::VecDeque;
use std::mem;

// The part to which a message comes first that is handed on: where it goes, or where it stays if
// that isn't there.
fn first_key(space: &SpaceStore, entity: &EntityStore, to: &str) -> LeafKey
    ensures { result ≡ commits.first_key (listed (space_in space.now)) (entity_in entity.now).about to.now }
{
    match space.destination(to) {
        Some(target) => LeafKey {
            entity: target.number,
            part: Part::Main,
        },
        None => LeafKey {
            entity: entity.about().number,
            part: Part::Transfer,
        },
    }
}

// A message is handed on from the transaction's entity.
fn hand_one(
    alloc: Global,
    space: &SpaceStore,
    sending: &mut Sending,
    entity: &EntityStore,
    moment: u64,
    to: &str,
    message: &Message,
) -> Result<(), AllocError>
    requires { IsUnderWay moment (space_in space.now) (entity_in entity.now).about.number (told sending.old) }
    ensures { OnOk result (ActsTelling moment (space_in space.now) (entity_in entity.now).about.number (spec.handed_on (entity_in entity.now) to.now message.now) (commits.handed_receipt (entity_in entity.now) to.now message.now) (told sending.old) (told sending.new)) }
{
    let number = sending.lasts.next(space, first_key(space, entity, to))?;
    sending.receipts.push(Receipt::Number(number))?;
    let copy = copy_of(message)?;
    hand_on(
        alloc,
        space,
        &mut sending.lasts,
        &mut sending.changes,
        entity.about(),
        to,
        copy,
    )
}

fn hand_all(
    alloc: Global,
    space: &SpaceStore,
    sending: &mut Sending,
    entity: &EntityStore,
    moment: u64,
    to: &str,
    messages: &[Message],
) -> Result<(), AllocError>
    requires { IsUnderWay moment (space_in space.now) (entity_in entity.now).about.number (told sending.old) }
    ensures { OnOk result (ActsTelling moment (space_in space.now) (entity_in entity.now).about.number (in_turn (spec.handed_on (entity_in entity.now) to.now) moment messages.now) (together.handed_receipts moment (entity_in entity.now) to.now messages.now) (told sending.old) (told sending.new)) }
{
    for message in messages {
        hand_one(alloc, space, sending, entity, moment, to, message)?;
    }
    Ok(())
}

fn send_own(
    alloc: Global,
    space: &SpaceStore,
    sending: &mut Sending,
    entity: &EntityStore,
    moment: u64,
    messages: &[Message],
) -> Result<(), AllocError>
    requires { IsUnderWay moment (space_in space.now) (entity_in entity.now).about.number (told sending.old) }
    ensures { OnOk result (ActsTelling moment (space_in space.now) (entity_in entity.now).about.number (send_changes moment (entity_in entity.now) messages.now) (receipts moment (entity_in entity.now) messages.now) (told sending.old) (told sending.new)) }
{
    send_all(alloc, space, sending, entity, moment, messages)
}

fn send_queued(
    alloc: Global,
    space: &SpaceStore,
    sending: &mut Sending,
    entity: &EntityStore,
    moment: u64,
    to: &Path,
    messages: &[Message],
) -> Result<(), AllocError>
    requires { IsUnderWay moment (space_in space.now) (entity_in entity.now).about.number (told sending.old) }
    ensures { OnOk result (ActsTelling moment (space_in space.now) (entity_in entity.now).about.number (spec.operation_changes moment (entity_in entity.now) (Send to.now messages.now)) (together.sent_receipts moment (entity_in entity.now) to.now messages.now) (told sending.old) (told sending.new)) }
{
    if is_same_entity(to, &entity.about().path) {
        return send_own(alloc, space, sending, entity, moment, messages);
    }
    hand_all(
        alloc,
        space,
        sending,
        entity,
        moment,
        to.name.as_str(),
        messages,
    )
}

// A queued send acts, and its receipts go behind those of the sends before it.
fn send_told(
    alloc: Global,
    space: &SpaceStore,
    sending: &mut Sending,
    sent: &mut VecDeque<Rows<Receipt>>,
    entity: &EntityStore,
    moment: u64,
    to: &Path,
    messages: &[Message],
) -> Result<(), AllocError>
    requires under_way { IsUnderWay moment (space_in space.now) (entity_in entity.now).about.number (told sending.old) }
    requires none { sending.old.receipts.items ≡ [] }
    ensures acts { OnOk result (Acts moment (space_in space.now) (entity_in entity.now).about.number (spec.operation_changes moment (entity_in entity.now) (Send to.now messages.now)) (told sending.old) (told sending.new)) }
    ensures none { OnOk result (sending.new.receipts.items ≡ []) }
    ensures sent { OnOk result (sent.new.items ≡ sent.old.items ++ together.sent_receipts moment (entity_in entity.now) to.now messages.now (space_at moment (space_in space.now) (told sending.old)) ∷ []) }
{
    send_queued(alloc, space, sending, entity, moment, to, messages)?;
    let receipts = mem::replace(&mut sending.receipts, Vec::new(alloc));
    sent.push_back(Rows::from_vec(receipts))?;
    Ok(())
}

// ---- settlements

/// A copy that a commit has settled.
#[derive(Clone, Copy, PartialEq, Eq)]
pub struct SettledCopy {
    pub part: Part,
    pub number: u64,
}

fn is_same_part(a: Part, b: Part) -> bool
    ensures { result ≡ names.is_same_part a b }
{
    match (a, b) {
        (Part::Main, Part::Main) => true,
        (Part::Dead, Part::Dead) => true,
        (Part::Transfer, Part::Transfer) => true,
        _ => false,
    }
}

fn is_settled(settled: &[SettledCopy], part: Part, number: u64) -> bool
    ensures { result ≡ commits.is_settled settled.now part number }
{
    settled
        .iter()
        .any(|x| is_same_part(x.part, part) && x.number == number)
}

// A queued settlement. Memory is wanting where the copy was settled before, which no consistent
// namespace leads to: a lock is queued once, and holds one copy.
fn settle_queued(
    alloc: Global,
    space: &SpaceStore,
    sending: &mut Sending,
    done: &mut Vec<SettledCopy>,
    entity: &EntityStore,
    moment: u64,
    from: &Path,
    number: u64,
    token: Token,
    session: Option<Token>,
    how: &How,
) -> Result<(), AllocError>
    requires under_way { IsUnderWay moment (space_in space.now) (entity_in entity.now).about.number (told sending.old) }
    requires found { AsFound moment (space_in space.now) (entity_in entity.now) done.old.items (space_at moment (space_in space.now) (told sending.old)) }
    ensures acts { OnOk result (Acts moment (space_in space.now) (entity_in entity.now).about.number (spec.operation_changes moment (entity_in entity.now) (Settle from.now number token session how.now)) (told sending.old) (told sending.new)) }
    ensures found { OnOk result (AsFound moment (space_in space.now) (entity_in entity.now) done.new.items (space_at moment (space_in space.now) (told sending.new))) }
    ensures receipts { OnOk result (sending.new.receipts.items ≡ sending.old.receipts.items) }
{
    if !goes_with(how, from.part) {
        return Err(AllocError);
    }
    if is_settled(done.as_slice(), from.part, number) {
        return Err(AllocError);
    }
    let which = Which::Number(number);
    let part = entity.part(from.part);
    let Some(copy) = leased(space, moment, token, &which, part) else {
        return Ok(());
    };
    done.push(SettledCopy {
        part: from.part,
        number: copy.number,
    })?;
    settled(
        alloc,
        space,
        &mut sending.lasts,
        &mut sending.changes,
        moment,
        entity,
        from.part,
        copy,
        how,
    )
}

// ---- all of them

fn act_one(
    alloc: Global,
    space: &SpaceStore,
    sending: &mut Sending,
    done: &mut Vec<SettledCopy>,
    sent: &mut VecDeque<Rows<Receipt>>,
    entity: &EntityStore,
    moment: u64,
    operation: &Operation,
) -> Result<(), AllocError>
    requires under_way { IsUnderWay moment (space_in space.now) (entity_in entity.now).about.number (told sending.old) }
    requires found { AsFound moment (space_in space.now) (entity_in entity.now) done.old.items (space_at moment (space_in space.now) (told sending.old)) }
    requires none { sending.old.receipts.items ≡ [] }
    ensures acts { OnOk result (Acts moment (space_in space.now) (entity_in entity.now).about.number (spec.operation_changes moment (entity_in entity.now) operation.now) (told sending.old) (told sending.new)) }
    ensures found { OnOk result (AsFound moment (space_in space.now) (entity_in entity.now) done.new.items (space_at moment (space_in space.now) (told sending.new))) }
    ensures none { OnOk result (sending.new.receipts.items ≡ []) }
    ensures sent { OnOk result (sent.new.items ≡ sent.old.items ++ commits.told_by moment (entity_in entity.now) operation.now (space_at moment (space_in space.now) (told sending.old))) }
{
    match operation {
        Operation::Send { to, messages } => send_told(
            alloc,
            space,
            sending,
            sent,
            entity,
            moment,
            to,
            messages.as_slice(),
        ),
        Operation::Settle {
            from,
            number,
            token,
            session,
            how,
        } => settle_queued(
            alloc, space, sending, done, entity, moment, from, *number, *token, *session, how,
        ),
    }
}

/// The operations of a transaction on an entity act at `moment`, in ms since 1970, one after
/// another: changes behind those of a plan, and the receipts of each send. Where memory is wanting,
/// the plan is lost.
pub fn act_all(
    alloc: Global,
    space: &SpaceStore,
    sending: &mut Sending,
    done: &mut Vec<SettledCopy>,
    sent: &mut VecDeque<Rows<Receipt>>,
    entity: &EntityStore,
    moment: u64,
    operations: &[Operation],
) -> Result<(), AllocError>
    requires under_way { IsUnderWay moment (space_in space.now) (entity_in entity.now).about.number (told sending.old) }
    requires found { AsFound moment (space_in space.now) (entity_in entity.now) done.old.items (space_at moment (space_in space.now) (told sending.old)) }
    requires none { sending.old.receipts.items ≡ [] }
    ensures acts { OnOk result (Acts moment (space_in space.now) (entity_in entity.now).about.number (in_turn (spec.operation_changes moment (entity_in entity.now)) moment operations.now) (told sending.old) (told sending.new)) }
    ensures sent { OnOk result (sent.new.items ≡ sent.old.items ++ together.all_receipts moment (entity_in entity.now) operations.now (space_at moment (space_in space.now) (told sending.old))) }
{
    for operation in operations {
        act_one(alloc, space, sending, done, sent, entity, moment, operation)?;
    }
    Ok(())
}
