//! The fold of a query over a stream that is at hand as a whole.
ghost use Rattle.std.specs.Prelude.{IfOk, IfErr};
ghost use Rattle.cal_ql.specs.Valid.{IsValidQuery};
ghost use Rattle.cal_query.specs.Streaming.{FallsAt};
ghost use Rattle.cal_query.specs.Wholes.{HasFoldedWhole};

use crate::RowsEnd;
use crate::folding::new_fold;
use crate::seeing::Seen;
use crate::streaming::{Finished, read_whole};
use cal_engine::SnapshotFold;
use cal_ql::Query;
use cal_seeds::Seeds;
use std::alloc::Global;

/// A query's fold over the rows of these bytes, which are read as a stream, with the context that
/// the rows came in, which hashes by the seeds. The globals are looked at, and let go. Time is in
/// the bytes, and memory in what the query keeps and in the nodes. An `Err` is the first fault of
/// the bytes, or want of memory.
pub fn fold_whole(
    alloc: Global,
    seeds: Seeds,
    query: &Query,
    bytes: &[u8],
) -> Result<Seen<SnapshotFold>, RowsEnd>
    requires { IsValidQuery query.now }
    ensures folded { IfOk result (λ seen. HasFoldedWhole query.now bytes.now seen) }
    ensures refused { IfErr result (λ end. FallsAt end bytes.now) }
{
    let Seen { context, taker } = new_fold(alloc, seeds, query)?;
    let Finished {
        context,
        taker,
        globals,
    } = read_whole(alloc, bytes, context, taker)?;
    drop(globals);
    Ok(Seen { context, taker })
}
