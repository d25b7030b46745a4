// Arithmetic on whole numbers of 64 bits.
ghost use Rattle.std.specs.Prelude.{◌≡◌, ◌+ℤ◌, ◌-ℤ◌, ◌*ℤ◌, neg_ℤ};
ghost use Rattle.sb_model.specs.Meaning as meaning;
ghost use Rattle.sb_sqleval.specs.Values.{value_in, Is};

use crate::{Evaluated, Value};
use sb_model::EvalFault;

#[tactic(auto, using(crate::proofs::Bits::within_64_bits))]
pub(crate) fn sum<'a>(a: i64, b: i64) -> Evaluated<'a>
    ensures { Is value_in result (meaning.number_of (a +ℤ b)) }
{
    match a.checked_add(b) {
        Some(number) => Ok(Value::Int(number)),
        None => Err(EvalFault::Overflow),
    }
}

#[tactic(auto, using(crate::proofs::Bits::within_64_bits))]
pub(crate) fn difference<'a>(a: i64, b: i64) -> Evaluated<'a>
    ensures { Is value_in result (meaning.number_of (a -ℤ b)) }
{
    match a.checked_sub(b) {
        Some(number) => Ok(Value::Int(number)),
        None => Err(EvalFault::Overflow),
    }
}

#[tactic(auto, using(crate::proofs::Bits::within_64_bits))]
pub(crate) fn product<'a>(a: i64, b: i64) -> Evaluated<'a>
    ensures { Is value_in result (meaning.number_of (a *ℤ b)) }
{
    match a.checked_mul(b) {
        Some(number) => Ok(Value::Int(number)),
        None => Err(EvalFault::Overflow),
    }
}

/// Cut towards zero. The least number by -1 is Overflow.
#[tactic(auto, using(crate::proofs::Bits::within_64_bits))]
pub(crate) fn quotient<'a>(a: i64, b: i64) -> Evaluated<'a>
    ensures { Is value_in result (meaning.quotient a b) }
{
    if b == 0 {
        return Err(EvalFault::DivideByZero);
    }
    match a.checked_div(b) {
        Some(number) => Ok(Value::Int(number)),
        None => Err(EvalFault::Overflow),
    }
}

/// With the sign of the dividend. The least number by -1 is Overflow.
#[tactic(auto, using(crate::proofs::Bits::within_64_bits))]
pub(crate) fn remainder<'a>(a: i64, b: i64) -> Evaluated<'a>
    ensures { Is value_in result (meaning.remainder a b) }
{
    if b == 0 {
        return Err(EvalFault::DivideByZero);
    }
    match a.checked_rem(b) {
        Some(number) => Ok(Value::Int(number)),
        None => Err(EvalFault::Overflow),
    }
}

/// Overflow for the least number.
#[tactic(auto, using(crate::proofs::Bits::within_64_bits))]
pub(crate) fn negative<'a>(a: i64) -> Evaluated<'a>
    ensures { Is value_in result (meaning.number_of (neg_ℤ a)) }
{
    match a.checked_neg() {
        Some(number) => Ok(Value::Int(number)),
        None => Err(EvalFault::Overflow),
    }
}
