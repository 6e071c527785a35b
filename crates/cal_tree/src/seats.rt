//! A tree and its seats, which come and go.
ghost use Rattle.std.specs.Prelude.{◌≡◌, ◌+◌, ◌<◌, IfOk, length};
ghost use Rattle.cal_once.specs.Layout.{IsShape};
ghost use Rattle.cal_once.specs.Seats.{view};
ghost use Rattle.cal_once.specs.Views.{AllJoined, Learns, all_published, first_seat, joined};
ghost use Rattle.cal_once.specs.Views.{known_count, new_seat, split_off};
ghost use Rattle.cal_tree.specs.Seats.{IsTreeSeat, plan_of, slots_of};

use crate::{Tree, TreeSeat};
use cal_once::{Rows, Shape};
use cal_value::OutOfMemory;
use cal_words::NodeSort;
use std::alloc::Global;

impl Tree {
    /// A tree of the root alone, and its first seat. All its memory is taken here: a word for each
    /// slot and for each word of the arenas.
    pub fn new(alloc: Global, shape: Shape) -> Result<(Tree, TreeSeat), OutOfMemory>
        requires { IsShape shape }
        ensures shape { IfOk result (λ r. (plan_of r.0).shape ≡ shape) }
        ensures seat { IfOk result (λ r. IsTreeSeat r.0 r.1
            × (view r.1 ≡ first_seat (plan_of r.0))) }
    {
        let (rows, seat) = Rows::new(alloc, shape, NodeSort)?;
        Ok((Tree { rows, shape }, seat))
    }

    /// How the tree is laid out.
    pub fn shape(&self) -> Shape
        ensures shape { result ≡ (plan_of self.now).shape }
        ensures is_shape { IsShape result }
    {
        self.shape
    }

    /// A new seat, with the next number and arena. It knows what the first seat knows, and has
    /// published nothing.
    pub fn split(&self, seat: &mut TreeSeat) -> TreeSeat
        requires seat { IsTreeSeat self.now seat.old }
        requires first { (view seat.old).number ≡ 0 }
        requires some_left { length (view seat.old).others + 1 < (plan_of self.now).shape.arenas }
        ensures seats { IsTreeSeat self.now seat.new × IsTreeSeat self.now result }
        ensures first { Learns (split_off (view seat.old)) (view seat.new) }
        ensures new { Learns (new_seat (view seat.old)) (view result) }
    {
        self.rows.split(seat)
    }

    /// The first seat takes in what another one knew and published: it knows the paths of both, so
    /// their nodes are compared with it.
    pub fn join(&self, seat: &mut TreeSeat, other: TreeSeat)
        requires seats { IsTreeSeat self.now seat.old × IsTreeSeat self.now other }
        requires first { (view seat.old).number ≡ 0 }
        ensures seat { IsTreeSeat self.now seat.new }
        ensures joined { Learns (joined (view seat.old) (view other)) (view seat.new) }
    {
        self.rows.join(seat, other);
    }

    /// How many nodes below the root the seat knows, after it has loaded every slot. Where all
    /// seats were joined, these are the nodes that were made.
    pub fn count_nodes(&self, seat: &mut TreeSeat) -> u64
        requires { IsTreeSeat self.now seat.old }
        ensures seat { IsTreeSeat self.now seat.new }
        ensures learns { Learns (view seat.old) (view seat.new) }
        ensures known { result ≡ known_count (view seat.new) (slots_of self.now) }
        ensures all { AllJoined (view seat.new) → result ≡ length (all_published (view seat.new)) }
    {
        self.rows.filled(seat)
    }
}
