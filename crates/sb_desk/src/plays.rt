//! What each step on the table tells. These types are for the proofs alone.
ghost use Rattle.sb_desk.specs.Groups.{posts_in, IsArranged};
ghost use Rattle.sb_desk.specs.Steps.{drew, looked, took, asked, recorded, collected, gave, passed, compared, note_of, less_one, one_more, spent_view, told, gathered};

use crate::Served;
use crate::view::{Held, View};
use atomic_table::{Join, Play, Split};

pub(crate) struct Draw;

impl<V: Served> Play<Option<Held<V>>, View> for Draw {
    ghost then = { drew };
}

pub(crate) struct Look;

impl<V: Served> Play<Option<Held<V>>, View> for Look {
    ghost then = { looked };
}

pub(crate) struct Take;

impl<V: Served> Play<Option<Held<V>>, View> for Take {
    ghost then = { took (λ x. V.stands x.value) (λ x. V.origin x.value) posts_in IsArranged };
}

pub(crate) struct Ask;

impl<V: Served> Play<Option<Held<V>>, View> for Ask {
    ghost then = { asked posts_in };
}

pub(crate) struct Record;

impl<V: Served> Play<Option<Held<V>>, View> for Record {
    ghost then = { recorded (λ x. V.stands x.value) posts_in };
}

pub(crate) struct Collect;

impl<V: Served> Play<Option<Held<V>>, View> for Collect {
    ghost then = { collected posts_in };
}

pub(crate) struct Give;

impl<V: Served> Play<Option<Held<V>>, View> for Give {
    ghost then = { gave };
}

pub(crate) struct Leave;

impl<V: Served> Play<Option<Held<V>>, View> for Leave {
    ghost then = { passed };
}

pub(crate) struct Compare;

impl<V: Served> Play<Option<Held<V>>, View> for Compare {
    ghost then = { compared };
}

/// A note of what was seen, for another seat.
pub(crate) struct Note;

impl Split<View> for Note {
    ghost left = { λ v. v };

    ghost right = { note_of };
}

/// One more pass, out of those that this seat stands for.
pub(crate) struct More;

impl Split<View> for More {
    ghost left = { less_one };

    ghost right = { one_more };
}

pub(crate) struct Tell;

impl Join<View> for Tell {
    ghost both = { told };

    ghost spent = { spent_view };
}

pub(crate) struct Gather;

impl Join<View> for Gather {
    ghost both = { gathered };

    ghost spent = { spent_view };
}
