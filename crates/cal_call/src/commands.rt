//! The top call: it does what the words ask for.
ghost use Rattle.std.specs.Prelude.{◌≡◌, ◌≤◌, false, length, IfNone};
ghost use Rattle.cal_base.specs.Change.{change_of};
ghost use Rattle.cal_call.specs.Causes.{Answers, BytesDecide};
ghost use Rattle.cal_call.specs.Clocks.{AskedClocks};
ghost use Rattle.cal_call.specs.Ends.{Tells};
ghost use Rattle.cal_call.specs.Faults.{report_of, status_of, writes};
ghost use Rattle.cal_call.specs.Refusals.{no_journal};
ghost use Rattle.cal_call.specs.Tasks.{LeavesInput, tasked};

use crate::generating::write_generated;
use crate::outcome::{Ended, end};
use crate::query::query;
use crate::replay::replay;
use crate::serial::serial;
use crate::{Command, Fault, Outcome, RunText, read_words};
use cal_base::{Clock, Gate, Sink, Source};
use cal_lawful::first_broken_law;
use cal_run::Prober;
use cal_seeds::Seeds;
use std::alloc::Global;
use std::hash::RandomState;
use std::thread::Threads;

/// The most bytes that an input may have.
pub const INPUT_LIMIT: u64 = 268_435_456;

/// Does what the words ask for. It reads the input to its end, makes the whole text, and only then
/// writes it on the output; where it does less, or a line of a run was refused, the fault says why,
/// and its line is put on `errors`. What is asked first is refused first: the words, then the text
/// of a query, then reading, then the script and the journal or the stream, then writing; memory
/// may be refused at any point before the first byte is written. It takes time in the bytes of the
/// input and the text, and for each channel in the lines of a script.
///
/// `rt` runs the threads of `replay` and `journal`, and joins the two calls that a summary is made
/// of. The probes of such a run's channels are answered by `probes`, each line passes the `gate`, and
/// thread t reads the clock at the place t of `clocks`, where the words ask for a real one. Behind
/// want of memory some of the clocks may be lost. What the input chooses is hashed by `hashers`.
pub fn run<
    R: Threads + Sync,
    S: Source,
    W: Sink,
    E: Sink,
    K: Clock + Send + Drop,
    G: Gate + Sync,
    P: Prober + Sync,
>(
    rt: &R,
    alloc: Global,
    hashers: RandomState,
    words: &[String],
    input: &mut S,
    output: &mut W,
    errors: &mut E,
    clocks: &mut Vec<K>,
    gate: &G,
    probes: &P,
) -> Outcome
    requires { 64 ≤ length clocks.old.items }
    ensures status { result.status ≡ status_of result.fault }
    ensures told { Tells (report_of result.fault)
        (change_of E.written E.faults errors.old errors.new) }

    // The text of the input was written whole, or the fault has its cause.
    ensures answers { Answers (tasked words.now) (change_of S.left S.faults input.old input.new)
        (change_of W.written W.faults output.old output.new) result.journal result.fault }

    // An input that tells its bytes and doesn't fail decides the answer, but for want of memory.
    ensures decided { BytesDecide (tasked words.now) (change_of S.left S.faults input.old input.new)
        (change_of W.written W.faults output.old output.new) result.fault }

    // The clocks of a run in threads were asked for just the readings in its journal.
    ensures asked { AskedClocks K.given (tasked words.now) result.journal result.fault
        clocks.old.items clocks.new.items }

    // What is left as it was, and empty.
    ensures input { LeavesInput (tasked words.now) → input.new ≡ input.old }
    ensures output { writes result.fault ≡ false → output.new ≡ output.old }
    ensures journal { writes result.fault ≡ false → result.journal ≡ no_journal }
    ensures errors { IfNone result.fault (errors.new ≡ errors.old) }
{
    first_broken_law();
    let ended = carry_out(
        rt, alloc, hashers, words, input, output, clocks, gate, probes,
    );
    end(errors, ended)
}

/// Does what the words ask for, and gives the fault where it does less.
#[tactic(auto, using(crate::proofs::Tasks::leaves_query))]
fn carry_out<
    R: Threads + Sync,
    S: Source,
    W: Sink,
    K: Clock + Send + Drop,
    G: Gate + Sync,
    P: Prober + Sync,
>(
    rt: &R,
    alloc: Global,
    hashers: RandomState,
    words: &[String],
    input: &mut S,
    output: &mut W,
    clocks: &mut Vec<K>,
    gate: &G,
    probes: &P,
) -> Ended
    requires { 64 ≤ length clocks.old.items }
    ensures answers { Answers (tasked words.now) (change_of S.left S.faults input.old input.new)
        (change_of W.written W.faults output.old output.new) result.journal result.fault }
    ensures input { LeavesInput (tasked words.now) → input.new ≡ input.old }
    ensures output { writes result.fault ≡ false → output.new ≡ output.old }
    ensures journal { writes result.fault ≡ false → result.journal ≡ no_journal }
    ensures asked { AskedClocks K.given (tasked words.now) result.journal result.fault
        clocks.old.items clocks.new.items }
{
    let seeds = Seeds::of(&hashers);
    let fault = match read_words(words) {
        Ok(Command::Serial) => return serial(alloc, seeds, input, output),
        Ok(Command::Replay { real }) => {
            let shown = RunText::Records;
            return replay(
                rt, alloc, hashers, shown, real, input, output, clocks, gate, probes,
            );
        }
        Ok(Command::Journal { real }) => {
            let shown = RunText::Journal;
            return replay(
                rt, alloc, hashers, shown, real, input, output, clocks, gate, probes,
            );
        }
        Ok(Command::Query { q, join }) => query(alloc, seeds, words, q, join, input, output).err(),
        Ok(
            Command::Gen {
                seed,
                threads,
                lines,
                print,
            },
        ) => write_generated(rt, alloc, seeds, seed, threads, lines, print, input, output).err(),
        Err(word) => Some(Fault::Usage { word }),
    };
    Ended::without_journal(alloc, fault)
}
