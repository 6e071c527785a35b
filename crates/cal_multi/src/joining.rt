//! The folds of all files made one, in the order of the files.
ghost use Rattle.std.specs.Prelude.{◌≡◌, ◌^◌, ◌<◌, Ok, Some, IfErr, IfOk, IfSome, length};
ghost use Rattle.std.specs.List.{All};
ghost use Rattle.cal_ql.specs.Valid.{IsValidQuery};
ghost use Rattle.cal_query.specs.Streaming.{FallsAt};
ghost use Rattle.cal_multi.specs.Many.{StopsMany};
ghost use Rattle.cal_multi.specs.Shares.{HaveJoined, IsFolded, IsJoined, StopsAt, bytes_of};

use crate::ManyEnd;
use crate::share::Share;
use cal_engine::SnapshotFold;
use cal_ql::Query;
use cal_query::{RowsEnd, Seen, new_fold};
use cal_seeds::Seeds;
use cal_value::OutOfMemory;
use std::alloc::Global;

/// One fold over the rows of all files, into which those behind the first are merged. Of no file it
/// is a fold of no row. An `Err` is the fault of the first file that has one, or want of memory.
pub(crate) fn join_all(
    alloc: Global,
    seeds: Seeds,
    query: &Query,
    shares: Vec<Share<'_>>,
) -> Result<Seen<SnapshotFold>, ManyEnd>
    requires valid { IsValidQuery query.now }
    requires few { length shares.items < 2 ^ 32 }
    requires folded { All (IsFolded query.now) shares.items }
    ensures joined { IfOk result (λ joined.
        HaveJoined query.now (bytes_of shares.entry.items) (Some joined)) }
    ensures refused { IfErr result (λ end. StopsMany end (bytes_of shares.entry.items)) }
{
    let mut joined = None;
    let mut place = 0;
    for share in shares {
        let fold = match fold_of(place, share) {
            Ok(fold) => fold,
            Err(end) => {
                drop(joined);
                return Err(end);
            }
        };
        joined = Some(join(joined, fold)?);
        place += 1;
    }
    let Some(joined) = joined else {
        return Ok(new_fold(alloc, seeds, query)?);
    };
    Ok(joined)
}

/// The fold of the file at a place, or why there is none.
fn fold_of(place: u32, share: Share<'_>) -> Result<Seen<SnapshotFold>, ManyEnd>
    requires { IfErr share.came (λ end. FallsAt end share.bytes.now) }
    ensures own { IfOk result (λ fold. share.entry.came ≡ Ok fold) }
    ensures refused { IfErr result (λ end. StopsAt end place share.entry.bytes.now) }
{
    match share.came {
        Ok(fold) => Ok(fold),
        Err(RowsEnd::BadLine { line, kind }) => Err(ManyEnd::BadFile {
            file: place,
            line,
            kind,
        }),
        Err(RowsEnd::ReadFault | RowsEnd::TooLong) => unreachable!(),
        Err(RowsEnd::OutOfMemory) => Err(ManyEnd::OutOfMemory),
    }
}

/// A fold behind those that were joined before. The first one is left as it is.
fn join(
    before: Option<Seen<SnapshotFold>>,
    fold: Seen<SnapshotFold>,
) -> Result<Seen<SnapshotFold>, OutOfMemory>
    requires { IfSome before (λ b. fold.taker.query ≡ b.taker.query) }
    ensures { IfOk result (IsJoined before fold) }
{
    let Some(mut joined) = before else {
        return Ok(fold);
    };
    let Seen { context, taker } = fold;
    let merged = joined.taker.merge(&mut joined.context, taker, &context);
    drop(context);
    let Ok(()) = merged else {
        drop(joined);
        return Err(OutOfMemory);
    };
    Ok(joined)
}
