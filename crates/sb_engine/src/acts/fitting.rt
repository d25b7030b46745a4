// Whether operations fit that act together: the tests on all of them, before each has its own.
ghost use Rattle.sb_machine.specs.Together as spec;
ghost use Rattle.sb_engine.specs.Quotas.{Judges};

use sb_machine::{Refusal, Step, at_part_or_whole};
use sb_names::{are_addressed, are_few, large_steps, unaddressed};

/// Refuses operations that no transaction takes together.
pub fn judge_fitting(steps: &[Step]) -> Result<(), Refusal>
    ensures { Judges result (spec.fitting steps.now) }
{
    if !are_addressed(steps) {
        let part = unaddressed(steps).map(|place| place as u64);
        return Err(at_part_or_whole(part, Refusal::BadName));
    }
    if !are_few(steps) {
        return Err(Refusal::TxnFull);
    }
    match large_steps(steps) {
        Ok(None) => Ok(()),
        Ok(Some(size)) => Err(Refusal::TooLarge { size }),
        Err(_) => Err(Refusal::OutOfMemory),
    }
}
