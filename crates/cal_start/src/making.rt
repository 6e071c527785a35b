//! All of a run before its threads.
ghost use Rattle.std.specs.Prelude.{◌≤◌, ◌≡◌, IfOk, length};
ghost use Rattle.cal_script.specs.Valid.{IsRunnable};
ghost use Rattle.cal_start.specs.FirstSeats.{AreFirstSeats, HaveHired};
ghost use Rattle.cal_start.specs.Runs.{AreBooks, IsRunOf, shapes_for};

use crate::shapes::shapes_of;
use crate::{FirstSeats, Run};
use cal_context::Context;
use cal_process::Common;
use cal_replay::Shared;
use cal_run::Numbers;
use cal_script::Script;
use cal_seeds::Seeds;
use cal_table::{Book, BookSeat, TableShape};
use cal_value::OutOfMemory;
use std::alloc::Global;
use std::hash::RandomState;

impl<'a> Run<'a> {
    /// What the threads of a script share, with readings off real clocks or by the script's, and
    /// the first seats. It takes a few passes over the script's lines, the memory of the tree and
    /// the history, a copy of each attribute, and for each name of a channel's query a flag for
    /// each attribute. An `Err` is want of memory.
    pub fn new(
        alloc: Global,
        hashers: RandomState,
        script: &'a Script,
        real: bool,
    ) -> Result<(Run<'a>, FirstSeats), OutOfMemory>
        requires { IsRunnable script.now }
        ensures run { IfOk result (λ r. IsRunOf script.now real r.0) }
        ensures shapes { IfOk result (λ r. r.0.shapes.items
            ≡ shapes_for hashers r.0.context.attributes script.now) }
        ensures first { IfOk result (λ r. HaveHired r.0 r.1 0) }
    {
        let (common, tree, log) = Common::new(alloc, script)?;
        let shared = Shared::new(common, real);
        let mut context = Context::seeded(alloc, Seeds::of(&hashers));
        let numbers = Numbers::of(alloc, script, &mut context)?;
        let shapes = shapes_of(alloc, hashers, script, &context)?;
        let threads = script.threads.len() as u32;
        let (books, seats) = new_books(alloc, threads, shapes.as_slice())?;
        let run = Run {
            shared,
            context,
            numbers,
            shapes,
            books,
        };
        let first = FirstSeats {
            tree,
            log,
            books: seats,
        };
        Ok((run, first))
    }
}

/// A book for so many threads of each shape, and its first seat.
fn new_books(
    alloc: Global,
    threads: u32,
    shapes: &[TableShape],
) -> Result<(Vec<Book>, Vec<BookSeat>), OutOfMemory>
    requires { threads ≤ 64 }
    ensures books { IfOk result (λ r. AreBooks threads shapes.now r.0.items) }
    ensures first { IfOk result (λ r. AreFirstSeats 0 r.0.items r.1.items) }
{
    let mut books = Vec::with_capacity(alloc, shapes.len())?;
    let mut seats = Vec::with_capacity(alloc, shapes.len())?;
    for shape in shapes {
        let (book, seat) = Book::new(alloc, threads, shape)?;
        books.push(book)?;
        seats.push(seat)?;
    }
    Ok((books, seats))
}
