//! How a call ended.
ghost use Rattle.std.specs.Prelude.{◌≡◌, IfNone};
ghost use Rattle.cal_base.specs.Change.{change_of};
ghost use Rattle.cal_call.specs.Ends.{Tells};
ghost use Rattle.cal_call.specs.Faults.{report_of, status_of};
ghost use Rattle.cal_call.specs.Refusals.{no_journal};

use crate::{Fault, UsedJournal, put_fault};
use cal_base::Sink;
use cal_script::Journal;
use cal_value::Seq;
use std::alloc::Global;

/// How a call ended: the status of the program, and why it isn't 0. Where `serial`, `replay` or
/// `journal` came to write, the journal is the one that the run used or left; else it has nothing.
#[derive(Debug, Drop)]
pub struct Outcome {
    pub status: u8,
    pub fault: Option<Fault>,
    pub journal: UsedJournal,
}

/// What a command came to.
#[derive(Debug, Drop)]
pub struct Ended {
    pub fault: Option<Fault>,
    pub journal: UsedJournal,
}

impl Ended {
    /// An end without a journal.
    pub fn without_journal(alloc: Global, fault: Option<Fault>) -> Ended
        ensures fault { result.fault ≡ fault }
        ensures journal { result.journal ≡ no_journal }
    {
        let journal = UsedJournal::given(Journal {
            real: false,
            ops: Seq::new(alloc),
            threads: Seq::new(alloc),
        });
        Ended { fault, journal }
    }
}

/// Ends a call: puts the line of its fault, if it has one, on `errors`.
pub fn end<E: Sink>(errors: &mut E, ended: Ended) -> Outcome
    ensures fault { result.fault ≡ ended.fault }
    ensures journal { result.journal ≡ ended.journal }
    ensures status { result.status ≡ status_of ended.fault }
    ensures told { Tells (report_of ended.fault)
        (change_of E.written E.faults errors.old errors.new) }
    ensures errors { IfNone ended.fault (errors.new ≡ errors.old) }
{
    let Ended { fault, journal } = ended;
    if let Some(fault) = &fault {
        put_fault(errors, fault);
    }
    let status = match &fault {
        Some(fault) => fault.status(),
        None => 0,
    };
    Outcome {
        status,
        fault,
        journal,
    }
}
