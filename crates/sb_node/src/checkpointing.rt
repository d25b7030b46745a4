// The journal goes on with the state as the base of its next file.
ghost use Rattle.std.specs.Prelude.{◌≡◌, ◌<◌, ◌+◌, ◌^◌, ◌∷◌, [], ℕ, true, false, length, IfOk, IfErr, OnOk};
ghost use Rattle.sb_journal.specs.Journals.{has_failed, journal_disks, journal_side, HoldsFile};
ghost use Rattle.sb_journal.specs.Text.{may_go_on, File};
ghost use Rattle.sb_machine.specs.Consistent.{IsConsistent};
ghost use Rattle.sb_machine.specs.declared.state.State.{State};
ghost use Rattle.sb_snapshot.specs.Base.{base_of, IsSpellable};
ghost use Rattle.sb_checkpoint.specs.Stores.{held_state};
ghost use Rattle.sb_checkpoint.specs.declared.pieces.Unput.TheVariants.{Memory, Refused};
ghost use Rattle.sb_recorder.specs.Recorders.{begun_of, recorder_journal, Begun, GoesOn, HasAccount, HasBase, HasTurned};
ghost use Rattle.sb_engine.specs.Engines.{engine_state};
ghost use Rattle.sb_node.specs.Nodes.{events_on, HoldsState, TurnOneOf};
ghost use Rattle.sb_node.specs.Turns.{FailsAs, Turns};

use sb_checkpoint::{Held, Unput, base_length, write_base};
use sb_engine::Engine;
use sb_outside::Disk;
use sb_recorder::Recorder;

// The journal goes on with a file on the other disk whose base is the namespace's state, behind the record of this number. `false`
// where that file may not be: then nothing is done. `Memory` where memory is wanting: the file before counts on. `Refused` where a call
// of a disk failed.
pub(crate) fn go_on<D: Disk>(
    engine: &Engine,
    recorder: &mut Recorder<D>,
    last: u64,
) -> Result<bool, Unput>
    requires running { has_failed (recorder_journal recorder.old) ≡ false }
    requires consistent { IsConsistent (engine_state engine.now) }
    ensures kept { HoldsState (recorder_journal recorder.old) last (engine_state engine.now) → has_failed (recorder_journal recorder.new) ≡ false
        → HoldsState (recorder_journal recorder.new) last (engine_state engine.now) }
    ensures turned { (file : File) → HoldsFile (recorder_journal recorder.old) file
        → IfOk result (λ b. b ≡ true → HasTurned file (recorder_journal recorder.old) (recorder_journal recorder.new) (last + 1) (base_of (engine_state engine.now))) }
    ensures may { (file : File) → HoldsFile (recorder_journal recorder.old) file
        → IfOk result (λ b. b ≡ may_go_on file.generation (file.first + length file.payloads) (last + 1) (length (base_of (engine_state engine.now)))) }
    ensures nothing { IfOk result (λ b. b ≡ false → recorder_journal recorder.new ≡ recorder_journal recorder.old) }
    ensures any_moment { HoldsState (recorder_journal recorder.old) last (engine_state engine.now)
        → TurnOneOf (journal_side (recorder_journal recorder.old)) (journal_disks (recorder_journal recorder.old)) (journal_disks (recorder_journal recorder.new)) (engine_state engine.now ∷ []) }
    ensures account { HasAccount (recorder_journal recorder.old) (recorder_journal recorder.new) }
    ensures failed { FailsAs (has_failed (recorder_journal recorder.new)) result }
{
    let held = held_by(engine);
    let Ok(counted) = base_length(recorder.alloc(), &held) else {
        return Err(Unput::Memory);
    };
    let Some(total) = counted else {
        return Ok(false);
    };
    let Some(first) = last.checked_add(1) else {
        return Ok(false);
    };
    match recorder.start(first, total) {
        Ok(true) => {}
        Ok(false) => return Ok(false),
        Err(_) => return Err(Unput::Refused),
    }
    match write_whole(&held, recorder) {
        Ok(()) => Ok(true),
        Err(unput) => Err(unput),
    }
}

// The stores of a namespace.
fn held_by(engine: &Engine) -> Held<'_>
    ensures { held_state result ≡ engine_state engine.now }
{
    Held {
        moment: engine.moment(),
        clients: engine.clients(),
        space: engine.space(),
    }
}

// Writes the base that was begun, which is this state's, and makes its file safe.
fn write_whole<D: Disk>(held: &Held<'_>, recorder: &mut Recorder<D>) -> Result<(), Unput>
    requires spellable { IsSpellable (held_state held.now) }
    requires short { length (base_of (held_state held.now)) < 2 ^ 64 }
    requires total { length (base_of (held_state held.now)) ≡ (begun_of recorder.old).total }
    requires begun { GoesOn recorder.old (begun_of recorder.old) }
    requires empty { HasBase recorder.old (begun_of recorder.old) [] }
    ensures turns { (s : State) (begun : Begun D.Disk) (file : File) → held_state held.now ≡ s → begun_of recorder.old ≡ begun → HoldsFile begun.journal file
        → Turns s begun.first file begun.journal (recorder_journal recorder.new) result }
    ensures account { (begun : Begun D.Disk) → begun_of recorder.old ≡ begun → HasAccount begun.journal (recorder_journal recorder.new) }
    ensures failed { FailsAs (has_failed (recorder_journal recorder.new)) result }
{
    match write_base(recorder.alloc(), held, recorder) {
        Ok(()) => {}
        Err(unput) => return Err(give_up(recorder, unput)),
    }
    match recorder.seal() {
        Ok(()) => Ok(()),
        Err(_) => Err(Unput::Refused),
    }
}

// Leaves a base that isn't written on for this reason, and hands the reason on; it is `Refused` wherever a call of a disk failed.
fn give_up<D: Disk>(recorder: &mut Recorder<D>, unput: Unput) -> Unput
    requires begun { GoesOn recorder.old (begun_of recorder.old) }
    requires unwanted { unput ≡ Refused → has_failed (recorder_journal recorder.old) ≡ true }
    ensures journal { recorder_journal recorder.new ≡ recorder_journal recorder.old }
    ensures refused { result ≡ Refused → has_failed (recorder_journal recorder.new) ≡ true }
    ensures memory { result ≡ Memory → has_failed (recorder_journal recorder.new) ≡ false }
{
    match unput {
        Unput::Memory => {
            if !recorder.is_writing() {
                return Unput::Refused;
            }
            recorder.leave();
            Unput::Memory
        }
        Unput::Refused => Unput::Refused,
    }
}
