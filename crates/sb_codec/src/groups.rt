// Fields one behind the other, written and read by one call: so that each act has one call to prove.
ghost use Rattle.std.specs.Prelude.{◌≡◌, OnOk};
ghost use Rattle.sb_codec.specs.Forms.{Puts, ◌then◌};
ghost use Rattle.sb_codec.specs.Readers.{Gives};

use crate::piece::Piece;
use crate::unread::Unread;
use std::alloc::{AllocError, Global};
use std::marker::PhantomData;

/// Writes these fields in order.
pub fn put_two<A: Piece, B: Piece>(
    first: &A::Value,
    second: &B::Value,
    out: &mut Vec<u8>,
) -> Result<(), AllocError>
    requires { (A.form then B.form).Asks (first.now, second.now) }
    ensures puts { Puts ((A.form then B.form).spell (first.now, second.now)) out.old out.new result }
    ensures fits { OnOk result ((A.form then B.form).Fits (first.now, second.now)) }
{
    A::put(first, out)?;
    B::put(second, out)
}

/// Writes these fields in order.
pub fn put_three<A: Piece, B: Piece, C: Piece>(
    first: &A::Value,
    second: &B::Value,
    third: &C::Value,
    out: &mut Vec<u8>,
) -> Result<(), AllocError>
    requires { (A.form then B.form then C.form).Asks (first.now, (second.now, third.now)) }
    ensures puts { Puts ((A.form then B.form then C.form).spell (first.now, (second.now, third.now))) out.old out.new result }
    ensures fits { OnOk result ((A.form then B.form then C.form).Fits (first.now, (second.now, third.now))) }
{
    A::put(first, out)?;
    put_two::<B, C>(second, third, out)
}

/// Writes these fields in order.
pub fn put_four<A: Piece, B: Piece, C: Piece, D: Piece>(
    first: &A::Value,
    second: &B::Value,
    third: &C::Value,
    fourth: &D::Value,
    out: &mut Vec<u8>,
) -> Result<(), AllocError>
    requires { (A.form then B.form then C.form then D.form).Asks (first.now, (second.now, (third.now, fourth.now))) }
    ensures puts { Puts ((A.form then B.form then C.form then D.form).spell (first.now, (second.now, (third.now, fourth.now)))) out.old out.new result }
    ensures fits { OnOk result ((A.form then B.form then C.form then D.form).Fits (first.now, (second.now, (third.now, fourth.now)))) }
{
    A::put(first, out)?;
    put_three::<B, C, D>(second, third, fourth, out)
}

/// Writes these fields in order.
pub fn put_five<A: Piece, B: Piece, C: Piece, D: Piece, E: Piece>(
    first: &A::Value,
    second: &B::Value,
    third: &C::Value,
    fourth: &D::Value,
    fifth: &E::Value,
    out: &mut Vec<u8>,
) -> Result<(), AllocError>
    requires { (A.form then B.form then C.form then D.form then E.form).Asks (first.now, (second.now, (third.now, (fourth.now, fifth.now)))) }
    ensures puts { Puts ((A.form then B.form then C.form then D.form then E.form).spell (first.now, (second.now, (third.now, (fourth.now, fifth.now))))) out.old out.new result }
    ensures fits { OnOk result ((A.form then B.form then C.form then D.form then E.form).Fits (first.now, (second.now, (third.now, (fourth.now, fifth.now))))) }
{
    A::put(first, out)?;
    put_four::<B, C, D, E>(second, third, fourth, fifth, out)
}

/// Writes these fields in order.
pub fn put_six<A: Piece, B: Piece, C: Piece, D: Piece, E: Piece, F: Piece>(
    first: &A::Value,
    second: &B::Value,
    third: &C::Value,
    fourth: &D::Value,
    fifth: &E::Value,
    sixth: &F::Value,
    out: &mut Vec<u8>,
) -> Result<(), AllocError>
    requires { (A.form then B.form then C.form then D.form then E.form then F.form).Asks (first.now, (second.now, (third.now, (fourth.now, (fifth.now, sixth.now))))) }
    ensures puts { Puts ((A.form then B.form then C.form then D.form then E.form then F.form).spell (first.now, (second.now, (third.now, (fourth.now, (fifth.now, sixth.now)))))) out.old out.new result }
    ensures fits { OnOk result ((A.form then B.form then C.form then D.form then E.form then F.form).Fits (first.now, (second.now, (third.now, (fourth.now, (fifth.now, sixth.now)))))) }
{
    A::put(first, out)?;
    put_five::<B, C, D, E, F>(second, third, fourth, fifth, sixth, out)
}

/// A field, and what stands behind it.
pub struct Both<A, B> {
    first: PhantomData<A>,
    second: PhantomData<B>,
}

impl<A: Piece, B: Piece> Piece for Both<A, B> {
    type Value = (A::Value, B::Value);

    ghost form = { A.form then B.form };

    fn put(value: &(A::Value, B::Value), out: &mut Vec<u8>) -> Result<(), AllocError> {
        put_two::<A, B>(&value.0, &value.1, out)
    }

    fn take(alloc: Global, bytes: &[u8]) -> Result<((A::Value, B::Value), &[u8]), Unread> {
        let (first, rest) = A::take(alloc, bytes)?;
        let (second, rest) = B::take(alloc, rest)?;
        Ok(((first, second), rest))
    }
}
