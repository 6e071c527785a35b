//! The answer of a query over many files.
ghost use Rattle.std.specs.Prelude.{◌≡◌, ◌<◌, ◌^◌, IfOk, IfErr, length, map};
ghost use Rattle.cal_ql.specs.Valid.{IsValidQuery};
ghost use Rattle.cal_rowset.specs.Numbers.{rowset_of};
ghost use Rattle.cal_multi.specs.Many.{IsAnswerOfMany, StopsMany};

use crate::ManyEnd;
use crate::joining::join_all;
use crate::share::fold_all;
use cal_ql::Query;
use cal_query::Seen;
use cal_rowset::SnapshotRowset;
use cal_seeds::Seeds;
use std::alloc::Global;
use std::thread::Threads;

/// The answer of a query over the rows of these files, each of which is read as a stream, one behind
/// the other in the order of the files. The globals are looked at, and let go. Each file is folded
/// in a thread, by the seeds; where a thread can't be made, its file is folded in another's. Time is
/// in the bytes, and memory in what the query keeps of each file and in its nodes. An `Err` is the
/// first fault of the first file that has one, or want of memory.
pub fn answer_many<R: Threads + Sync>(
    rt: &R,
    alloc: Global,
    seeds: Seeds,
    query: &Query,
    files: &[Vec<u8>],
) -> Result<SnapshotRowset, ManyEnd>
    requires query { IsValidQuery query.now }
    requires few { length files.now < 2 ^ 32 }
    ensures answer { IfOk result (λ answer. IsAnswerOfMany query.now
        (map (λ file. file.items) files.now) (rowset_of answer)) }
    ensures refused { IfErr result (λ end. StopsMany end (map (λ file. file.items) files.now)) }
{
    let shares = fold_all(rt, alloc, seeds, query, files)?;
    let Seen { context, taker } = join_all(alloc, seeds, query, shares)?;
    Ok(taker.finish(context)?)
}
