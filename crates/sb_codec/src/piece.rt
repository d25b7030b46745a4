// What a form is in code: a writer and a reader.
ghost use Rattle.std.specs.Prelude.{◌≡◌, OnOk};
ghost use Rattle.sb_codec.specs.Readers.{Gives};
ghost use Rattle.sb_codec.specs.Forms.{Form, Puts};

use crate::unread::Unread;
use std::alloc::{AllocError, Global};

/// How values of one kind stand in bytes.
pub trait Piece {
    type Value: Drop;

    ghost form: { Form Self.Value };

    /// Adds a value's spelling, and finds that it has one. Where the room is not there and
    /// memory is wanting, some of the spelling may stand there.
    fn put(value: &Self::Value, out: &mut Vec<u8>) -> Result<(), AllocError>
        requires { form.Asks value.now }
        ensures puts { Puts (form.spell value.now) out.old out.new result }
        ensures fits { OnOk result (form.Fits value.now) };

    /// The value at the front of the bytes, and the bytes behind it.
    fn take(alloc: Global, bytes: &[u8]) -> Result<(Self::Value, &[u8]), Unread>
        ensures { Gives (λ x. (x.0, x.1.now)) result (form.reads bytes.now) };
}

/// Writes these fields in order.
#[macro_export]
macro_rules! put_fields {
    ($out:ident, $first:expr => $a:ty) => {
        <$a as $crate::Piece>::put($first, $out)
    };
    ($out:ident, $first:expr => $a:ty, $second:expr => $b:ty) => {
        $crate::put_two::<$a, $b>($first, $second, $out)
    };
    ($out:ident, $first:expr => $a:ty, $second:expr => $b:ty, $third:expr => $c:ty) => {
        $crate::put_three::<$a, $b, $c>($first, $second, $third, $out)
    };
    ($out:ident, $first:expr => $a:ty, $second:expr => $b:ty, $third:expr => $c:ty, $fourth:expr => $d:ty) => {
        $crate::put_four::<$a, $b, $c, $d>($first, $second, $third, $fourth, $out)
    };
    ($out:ident, $first:expr => $a:ty, $second:expr => $b:ty, $third:expr => $c:ty, $fourth:expr => $d:ty, $fifth:expr => $e:ty) => {
        $crate::put_five::<$a, $b, $c, $d, $e>($first, $second, $third, $fourth, $fifth, $out)
    };
    ($out:ident, $first:expr => $a:ty, $second:expr => $b:ty, $third:expr => $c:ty, $fourth:expr => $d:ty, $fifth:expr => $e:ty, $sixth:expr => $f:ty) => {
        $crate::put_six::<$a, $b, $c, $d, $e, $f>($first, $second, $third, $fourth, $fifth, $sixth, $out)
    };
    ($out:ident, $first:expr => $a:ty, $($other:expr => $form:ty),+) => {{
        <$a as $crate::Piece>::put($first, $out)?;
        $crate::put_fields!($out, $($other => $form),+)
    }};
}

/// The piece that these are, one behind the other.
#[macro_export]
macro_rules! fields_piece {
    ($only:ty) => { $only };
    ($first:ty, $($other:ty),+) => { $crate::Both<$first, $crate::fields_piece!($($other),+)> };
}

/// The values that such a piece reads.
#[macro_export]
macro_rules! fields_read {
    ($only:ident) => { $only };
    ($first:ident, $($other:ident),+) => { ($first, $crate::fields_read!($($other),+)) };
}

/// Reads these fields in order, and makes a value of them.
#[macro_export]
macro_rules! take_fields {
    ($alloc:ident, $bytes:ident, $($made:ident)::+ { $($field:ident: $form:ty),+ }) => {
        match <$crate::fields_piece!($($form),+) as $crate::Piece>::take($alloc, $bytes) {
            Ok(($crate::fields_read!($($field),+), rest)) => Ok(($($made)::+ { $($field),+ }, rest)),
            Err(unread) => Err(unread),
        }
    };
    ($alloc:ident, $bytes:ident, $($made:ident)::+ ($form:ty)) => {
        match <$form as $crate::Piece>::take($alloc, $bytes) {
            Ok((value, rest)) => Ok(($($made)::+(value), rest)),
            Err(unread) => Err(unread),
        }
    };
}

pub(crate) use put_fields;
pub(crate) use take_fields;
