//! What the query's fold over each file comes to, all of them side by side.
ghost use Rattle.std.specs.Prelude.{◌≡◌, ◌<◌, Some, IfOk, length, map, slice_get};
ghost use Rattle.std.specs.List.{All};
ghost use Rattle.cal_ql.specs.Valid.{IsValidQuery};
ghost use Rattle.cal_multi.specs.Shares.{IsFolded, bytes_of};

use cal_engine::SnapshotFold;
use cal_ql::Query;
use cal_query::{RowsEnd, Seen, fold_whole};
use cal_seeds::Seeds;
use cal_value::OutOfMemory;
use std::alloc::Global;
use std::thread;
use std::thread::Threads;

/// The bytes of a file, and what they came to.
#[derive(Drop)]
pub(crate) struct Share<'a> {
    pub(crate) bytes: &'a [u8],
    pub(crate) came: Result<Seen<SnapshotFold>, RowsEnd>,
}

/// Folds each file, in a thread of its own where one can be made. An `Err` is want of memory for
/// the list; that of a fold stands in its share.
pub(crate) fn fold_all<'a, R: Threads + Sync>(
    rt: &R,
    alloc: Global,
    seeds: Seeds,
    query: &Query,
    files: &'a [Vec<u8>],
) -> Result<Vec<Share<'a>>, OutOfMemory>
    requires { IsValidQuery query.now }
    ensures bytes { IfOk result
        (λ shares. bytes_of shares.items ≡ map (λ file. file.items) files.now) }
    ensures folded { IfOk result (λ shares. All (IsFolded query.now) shares.items) }
{
    let shares = thread::map_indices(
        rt,
        alloc,
        files.len(),
        &|place| fold_one(alloc, seeds, query, files, place),
    )?;
    Ok(shares)
}

/// Folds the file at a place.
fn fold_one<'a>(
    alloc: Global,
    seeds: Seeds,
    query: &Query,
    files: &'a [Vec<u8>],
    place: usize,
) -> Share<'a>
    requires query { IsValidQuery query.now }
    requires within { place < length files.now }
    ensures bytes { slice_get (map (λ file. file.items) files.now) place ≡ Some result.bytes.now }
    ensures folded { IsFolded query.now result }
{
    let bytes = files[place].as_slice();
    let came = fold_whole(alloc, seeds, query, bytes);
    Share { bytes, came }
}
