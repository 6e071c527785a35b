//! How a call ended.
ghost use Rattle.std.specs.Prelude.{◌≡◌, [], IfNone, Some};
ghost use Rattle.cal_base.specs.Change.{change_of};
ghost use Rattle.cal_call.specs.Ends.{Tells};
ghost use Rattle.cal_call.specs.Faults.{report_of, status_of};

use cal_base::Sink;
use cal_call::{Fault, put_fault};
use cal_naming::NameReply;
use cal_value::Seq;
use std::alloc::Global;

/// How a call ended: the status of the program, and why it isn't 0. Where the call came to write,
/// the replies are those to the declarations of each thread, in order; else there are none.
#[derive(Debug, Drop)]
pub struct NamesOutcome {
    pub status: u8,
    pub fault: Option<Fault>,
    pub replies: Seq<Seq<NameReply>>,
}

/// What the words came to.
#[derive(Debug, Drop)]
pub struct Ended {
    pub fault: Option<Fault>,
    pub replies: Seq<Seq<NameReply>>,
}

impl Ended {
    /// An end before anything was written.
    pub fn unwritten(alloc: Global, fault: Fault) -> Ended
        ensures fault { result.fault ≡ Some fault }
        ensures replies { result.replies ≡ [] }
    {
        Ended {
            fault: Some(fault),
            replies: Seq::new(alloc),
        }
    }
}

/// Ends a call: puts the line of its fault, if it has one, on `errors`.
pub fn end<E: Sink>(errors: &mut E, ended: Ended) -> NamesOutcome
    ensures fault { result.fault ≡ ended.fault }
    ensures replies { result.replies ≡ ended.replies }
    ensures status { result.status ≡ status_of ended.fault }
    ensures told { Tells (report_of ended.fault)
        (change_of E.written E.faults errors.old errors.new) }
    ensures errors { IfNone ended.fault (errors.new ≡ errors.old) }
{
    let Ended { fault, replies } = ended;
    if let Some(fault) = &fault {
        put_fault(errors, fault);
    }
    let status = match &fault {
        Some(fault) => fault.status(),
        None => 0,
    };
    NamesOutcome {
        status,
        fault,
        replies,
    }
}
