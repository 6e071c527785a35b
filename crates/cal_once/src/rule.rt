use crate::{Plan, View};
use atomic_table::{Join, Play, Split, TableRule};
use cal_words::RecSort;

/// The rule of write-once rows.
pub struct WriteOnce;

impl<S: RecSort> TableRule<u8, View<S>, Plan<S>> for WriteOnce {
    ghost use Rattle.cal_once.specs.Rule.{Kept};
    ghost use Rattle.cal_once.specs.Views.{first_seat};

    ghost holds = { λ plan state. Kept S.RecSort plan state };

    ghost first = { first_seat };
}

/// A load of a slot, which may be noted where it is empty.
pub struct Look<const NOTED: bool>;

impl<S: RecSort, const NOTED: bool> Play<u8, View<S>> for Look<NOTED> {
    ghost use Rattle.cal_once.specs.Steps.{looks};

    ghost then = { looks S.RecSort NOTED };
}

/// A load of a record's word.
pub struct Read;

impl<S: RecSort> Play<u8, View<S>> for Read {
    ghost use Rattle.cal_once.specs.Steps.{reads};

    ghost then = { reads S.RecSort };
}

/// A store of a word of a draft.
pub struct Draft;

impl<S: RecSort> Play<u8, View<S>> for Draft {
    ghost use Rattle.cal_once.specs.Steps.{drafts};

    ghost then = { drafts };
}

/// An exchange of a slot against 0.
pub struct Offer;

impl<S: RecSort> Play<u8, View<S>> for Offer {
    ghost use Rattle.cal_once.specs.Steps.{offers};

    ghost then = { offers S.RecSort };
}

/// The first seat gives away a new one.
pub struct Part;

impl<S: RecSort> Split<View<S>> for Part {
    ghost use Rattle.cal_once.specs.Views.{split_off, new_seat};

    ghost left = { split_off };

    ghost right = { new_seat };
}

/// The first seat takes one in.
pub struct Meet;

impl<S: RecSort> Join<View<S>> for Meet {
    ghost use Rattle.cal_once.specs.Views.{joined, spent};

    ghost both = { joined };

    ghost spent = { spent };
}
