ghost use Rattle.std.specs.Prelude.{◌≡◌, true, false, [], map, IfOk, IfErr, OnOk};
ghost use Rattle.std.specs.List.{All};
ghost use Rattle.cal_base.specs.Change.{change_of};
ghost use Rattle.cal_context.specs.Snapshots.{IsIn, meaning};
ghost use Rattle.cal_context.specs.Taking.{TakesMore};
ghost use Rattle.cal_value.specs.Flat.{flat};
ghost use Rattle.cal_query.specs.Joining.{with_entries};
ghost use Rattle.cal_query.specs.Layout.{StopsRows};
ghost use Rattle.cal_query.specs.Seeing.{HasSeen, SeesRows};

use crate::RowsEnd;
use crate::joining::{Kept, all_immediates, hand_on};
use crate::streaming::{Finished, read_stream};
use cal_base::Source;
use cal_context::{Context, Snapshot, Taker};
use cal_value::OutOfMemory;
use std::alloc::Global;

/// Whoever has taken the rows that a query sees, and the context that they came in.
#[derive(Drop)]
pub struct Seen<T: Drop> {
    pub context: Context,
    pub taker: T,
}

/// Hands the rows that a query sees in what an input has left to a taker that has taken none in
/// this context: each row as it comes, or with the globals joined to it, which are known at the
/// end.
pub(crate) fn see_rows<S: Source, T: Taker + Drop>(
    alloc: Global,
    input: &mut S,
    limit: u64,
    join: bool,
    context: Context,
    taker: T,
) -> Result<Seen<T>, RowsEnd>
    requires { T.has_taken taker context [] }
    ensures taken { IfOk result (λ seen.
        SeesRows join limit (change_of S.left S.faults input.old input.new)
        (HasSeen T.has_taken seen)) }
    ensures about { IfOk result (λ seen. T.about seen.taker ≡ T.about taker) }
    ensures refused { IfErr result (λ end.
        StopsRows end limit (change_of S.left S.faults input.old input.new)) }
{
    if join {
        see_joined(alloc, input, limit, context, taker)
    } else {
        see_plain(alloc, input, limit, context, taker)
    }
}

/// The rows as they come, of which none is kept.
fn see_plain<S: Source, T: Taker + Drop>(
    alloc: Global,
    input: &mut S,
    limit: u64,
    context: Context,
    taker: T,
) -> Result<Seen<T>, RowsEnd>
    requires { T.has_taken taker context [] }
    ensures taken { IfOk result (λ seen.
        SeesRows false limit (change_of S.left S.faults input.old input.new)
        (HasSeen T.has_taken seen)) }
    ensures about { IfOk result (λ seen. T.about seen.taker ≡ T.about taker) }
    ensures refused { IfErr result (λ end.
        StopsRows end limit (change_of S.left S.faults input.old input.new)) }
{
    let read = read_stream(alloc, input, limit, context, taker)?;
    Ok(Seen {
        context: read.context,
        taker: read.taker,
    })
}

/// The rows with the globals joined to each.
fn see_joined<S: Source, T: Taker + Drop>(
    alloc: Global,
    input: &mut S,
    limit: u64,
    context: Context,
    taker: T,
) -> Result<Seen<T>, RowsEnd>
    requires { T.has_taken taker context [] }
    ensures taken { IfOk result (λ seen.
        SeesRows true limit (change_of S.left S.faults input.old input.new)
        (HasSeen T.has_taken seen)) }
    ensures about { IfOk result (λ seen. T.about seen.taker ≡ T.about taker) }
    ensures refused { IfErr result (λ end.
        StopsRows end limit (change_of S.left S.faults input.old input.new)) }
{
    let read = read_stream(alloc, input, limit, context, Kept::new(alloc, taker))?;
    Ok(join(alloc, read)?)
}

/// Hands on the rows that were kept, with the globals joined to each.
fn join<T: Taker + Drop>(alloc: Global, read: Finished<Kept<T>>) -> Result<Seen<T>, OutOfMemory>
    requires kept { All (IsIn read.context) read.taker.snapshots.items }
    requires globals { IsIn read.context read.globals }
    ensures taken { IfOk result (λ seen. TakesMore
        (T.has_taken read.taker.waiting read.context)
        (T.has_taken seen.taker seen.context)
        (map (with_entries (flat (meaning read.context read.globals)))
        (map (meaning read.context) read.taker.snapshots.items))) }
    ensures about { IfOk result (λ seen. T.about seen.taker ≡ T.about read.taker.waiting) }
{
    let Finished {
        context,
        taker: kept,
        globals,
    } = read;
    let Kept {
        alloc: _,
        snapshots,
        waiting: mut taker,
    } = kept;
    let Ok(()) = hand_on_joined(alloc, &context, snapshots, &globals, &mut taker) else {
        drop(taker);
        drop(context);
        return Err(OutOfMemory);
    };
    Ok(Seen { context, taker })
}

/// Hands on rows that were kept, with the entries of globals at the end of each.
fn hand_on_joined<T: Taker>(
    alloc: Global,
    context: &Context,
    kept: Vec<Snapshot>,
    globals: &Snapshot,
    taker: &mut T,
) -> Result<(), OutOfMemory>
    requires kept { All (IsIn context.now) kept.items }
    requires globals { IsIn context.now globals.now }
    ensures taken { OnOk result (TakesMore
        (T.has_taken taker.old context.now)
        (T.has_taken taker.new context.now)
        (map (with_entries (flat (meaning context.now globals.now)))
        (map (meaning context.now) kept.items))) }
    ensures about { OnOk result (T.about taker.new ≡ T.about taker.old) }
{
    let joined = all_immediates(alloc, context, globals)?;
    hand_on(context, kept, joined, taker)
}
