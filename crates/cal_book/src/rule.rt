use crate::{Content, Merging, View};
use atomic_table::{Join, Play, Split, TableRule};

/// The rule of the book.
pub struct OneTable;

impl<T: Merging<Q>, Q> TableRule<Content<T>, View<T, Q>, Q> for OneTable {
    ghost use Rattle.cal_book.specs.Rule.{Kept};
    ghost use Rattle.cal_book.specs.Views.{first_seat};

    ghost holds = { λ shape state. Kept T.Merging shape state };

    ghost first = { first_seat };
}

/// An exchange of the word against 0, which takes the slot where it wins.
pub struct Take;

impl<T: Merging<Q>, Q> Play<Content<T>, View<T, Q>> for Take {
    ghost use Rattle.cal_book.specs.Steps.{takes};

    ghost then = { takes T.Merging };
}

/// The slot is filled with the part in it, and the word is 0 again.
pub struct Give;

impl<T: Merging<Q>, Q> Play<Content<T>, View<T, Q>> for Give {
    ghost use Rattle.cal_book.specs.Steps.{gives};

    ghost then = { gives };
}

/// The slot is filled as it was, and the word is 0 again.
pub struct GiveUp;

impl<T: Merging<Q>, Q> Play<Content<T>, View<T, Q>> for GiveUp {
    ghost use Rattle.cal_book.specs.Steps.{gives_up};

    ghost then = { gives_up };
}

/// The first seat gives away a new one.
pub struct Part;

impl<T, Q> Split<View<T, Q>> for Part {
    ghost use Rattle.cal_book.specs.Views.{split_off, new_seat};

    ghost left = { split_off };

    ghost right = { new_seat };
}

/// The first seat takes one in.
pub struct Meet;

impl<T, Q> Join<View<T, Q>> for Meet {
    ghost use Rattle.cal_book.specs.Views.{joined, spent};

    ghost both = { joined };

    ghost spent = { spent };
}
