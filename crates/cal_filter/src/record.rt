//! LET and WHERE of a query, over a record with entries of its own.
ghost use Rattle.std.specs.Prelude.{◌≡◌, ◌<◌, [], ◌∷◌, ◌++◌, List, length, map, IfOk, OnOk};
ghost use Rattle.std.specs.List.{All};
ghost use Rattle.cal_context.specs.Snapshots.{IsIn, entry_of, meaning};
ghost use Rattle.cal_context.specs.Tree.{Grows};
ghost use Rattle.cal_filter.specs.Interned.{AreEntries};
ghost use Rattle.cal_filter.specs.Kept.{kept};
ghost use Rattle.cal_filter.specs.Named.{HasSmallNumbers};
ghost use Rattle.cal_filter.specs.Ready.{IsFilter};
ghost use Rattle.cal_ql.specs.Valid.{IsValidQuery};
ghost use Rattle.cal_ql.specs.declared.query.Query.{Query as QueryOf};
ghost use Rattle.cal_value.specs.Flat.{flat, joined};
ghost use Rattle.cal_value.specs.declared.attribute.Entry.{Entry as EntryOf};

use crate::Filter;
use cal_context::{Context, Immediate, Snapshot};
use cal_ql::Query;
use cal_value::{Entry, OutOfMemory, Rec, Seq, TryCopy};
use std::alloc::Global;

/// What a query makes of a record: LET adds its entries, and nothing is left where WHERE drops it.
/// It makes a `Filter` each time; whoever has many records keeps one.
pub fn apply(alloc: Global, query: &Query, rec: Rec) -> Result<Option<Rec>, OutOfMemory>
    requires valid { IsValidQuery query.now }
    requires small { HasSmallNumbers rec }
    ensures { IfOk result (λ answer. answer ≡ kept query.now rec) }
{
    let mut context = Context::new(alloc);
    apply_in(alloc, query, &mut context, rec)
}

/// The same, over a context.
fn apply_in(
    alloc: Global,
    query: &Query,
    context: &mut Context,
    rec: Rec,
) -> Result<Option<Rec>, OutOfMemory>
    requires valid { IsValidQuery query.now }
    requires small { HasSmallNumbers rec }
    ensures { IfOk result (λ answer. answer ≡ kept query.now rec) }
{
    let mut filter = Filter::new(alloc, query, context)?;
    apply_by(alloc, &mut filter, context, rec)
}

/// What a filter makes of a record.
fn apply_by(
    alloc: Global,
    filter: &mut Filter,
    context: &mut Context,
    rec: Rec,
) -> Result<Option<Rec>, OutOfMemory>
    requires { HasSmallNumbers rec }
    ensures { IfOk result (λ answer. (q : QueryOf) → IsFilter context.old q filter.old
        → answer ≡ kept q rec) }
{
    let mut snapshot = flat_snapshot(alloc, context, &rec)?;
    filtered(alloc, filter, context, rec, &mut snapshot)
}

/// What a filter makes of a record, whose entries are a snapshot's immediates.
fn filtered(
    alloc: Global,
    filter: &mut Filter,
    context: &Context,
    rec: Rec,
    snapshot: &mut Snapshot,
) -> Result<Option<Rec>, OutOfMemory>
    requires { IsIn context.now snapshot.old }
    ensures { IfOk result (λ answer. (q : QueryOf) → IsFilter context.now q filter.old
        → HasSmallNumbers rec
        → meaning context.now snapshot.old ≡ record { paths = []; imms = flat rec }
        → answer ≡ kept q rec) }
{
    let count = snapshot.imms.len();
    let keeps = filter.apply(context, snapshot)?;
    if !keeps {
        return Ok(None);
    }
    // LET takes nothing away
    if snapshot.imms.len() < count {
        return Err(OutOfMemory);
    }
    let (_, added) = snapshot.imms.split_at(count);
    let full = with_immediates(alloc, context, rec, added)?;
    Ok(Some(full))
}

/// A snapshot of all entries of a record, each as an immediate. What a query makes of a record
/// hangs on its entries alone, and not on which stand at nodes.
fn flat_snapshot(alloc: Global, context: &mut Context, rec: &Rec) -> Result<Snapshot, OutOfMemory>
    ensures within { IfOk result (IsIn context.new) }
    ensures means { IfOk result (λ snapshot.
        meaning context.new snapshot ≡ record { paths = []; imms = flat rec.now }) }
    ensures grows { OnOk result (Grows context.old context.new) }
{
    let mut snapshot = Snapshot::new(alloc);
    intern_paths(alloc, context, rec.paths.as_slice(), &mut snapshot.imms)?;
    intern_entries(alloc, context, rec.imms.as_slice(), &mut snapshot.imms)?;
    Ok(snapshot)
}

fn intern_paths(
    alloc: Global,
    context: &mut Context,
    paths: &[Seq<Entry>],
    imms: &mut Vec<Immediate>,
) -> Result<(), OutOfMemory>
    ensures adds { OnOk result ((es : List EntryOf) → AreEntries context.old imms.old.items es
        → AreEntries context.new imms.new.items (es ++ joined paths.now)) }
    ensures grows { OnOk result (Grows context.old context.new) }
{
    for path in paths {
        intern_entries(alloc, context, path.as_slice(), imms)?;
    }
    Ok(())
}

fn intern_entries(
    alloc: Global,
    context: &mut Context,
    entries: &[Entry],
    imms: &mut Vec<Immediate>,
) -> Result<(), OutOfMemory>
    ensures adds { OnOk result ((es : List EntryOf) → AreEntries context.old imms.old.items es
        → AreEntries context.new imms.new.items (es ++ entries.now)) }
    ensures grows { OnOk result (Grows context.old context.new) }
{
    for entry in entries {
        intern_entry(alloc, context, entry, imms)?;
    }
    Ok(())
}

fn intern_entry(
    alloc: Global,
    context: &mut Context,
    entry: &Entry,
    imms: &mut Vec<Immediate>,
) -> Result<(), OutOfMemory>
    ensures adds { OnOk result ((es : List EntryOf) → AreEntries context.old imms.old.items es
        → AreEntries context.new imms.new.items (es ++ entry.now ∷ [])) }
    ensures grows { OnOk result (Grows context.old context.new) }
{
    let attribute = context.attribute(&entry.attr)?;
    let value = entry.value.copy(alloc)?;
    imms.push(Immediate { attribute, value })?;
    Ok(())
}

/// A record with the entries that immediates mean at its end.
fn with_immediates(
    alloc: Global,
    context: &Context,
    rec: Rec,
    imms: &[Immediate],
) -> Result<Rec, OutOfMemory>
    requires { All (λ imm. imm.attribute.0 < length context.now.attributes) imms.now }
    ensures { IfOk result (λ full. full ≡ record {
      paths = rec.paths;
      imms = rec.imms ++ map (entry_of context.now) imms.now;
    }) }
{
    let mut entries = rec.imms;
    for imm in imms {
        entries.push(Entry {
            attr: context.attribute_at(imm.attribute).copy(alloc)?,
            value: imm.value.copy(alloc)?,
        })?;
    }
    Ok(Rec {
        paths: rec.paths,
        imms: entries,
    })
}
