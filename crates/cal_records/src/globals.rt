//! The globals of a script in a context.
ghost use Rattle.std.specs.Prelude.{◌≡◌, [], ◌∷◌, filter, map, IfOk};
ghost use Rattle.cal_context.specs.Tree.{Grows};
ghost use Rattle.cal_records.specs.Globals.{Means};
ghost use Rattle.cal_records.specs.Records.{globals_of};
ghost use Rattle.cal_value.specs.Props.{is_as_value, is_reference};

use cal_context::{Context, Snapshot};
use cal_value::{Entry, OutOfMemory, Rec, Seq, TryCopy};
use cal_write::intern_record;
use std::alloc::Global;

/// The globals of a script, put into a context, as a stream's writer takes them at its end.
pub fn put_globals(
    alloc: Global,
    entries: &[Entry],
    context: &mut Context,
) -> Result<Snapshot, OutOfMemory>
    ensures means { IfOk result (λ snapshot. Means context.new snapshot (globals_of entries.now)) }
    ensures grows { Grows context.old context.new }
{
    let globals = Rec {
        paths: referred(alloc, entries)?,
        imms: valued(alloc, entries)?,
    };
    let mut snapshot = Snapshot::new(alloc);
    intern_record(alloc, context, &globals, &mut snapshot)?;
    Ok(snapshot)
}

/// A path for each entry of a reference attribute.
fn referred(alloc: Global, entries: &[Entry]) -> Result<Seq<Seq<Entry>>, OutOfMemory>
    ensures { IfOk result (λ paths. paths
        ≡ map (λ e. e ∷ []) (filter (λ e. is_reference e.attr.props) entries.now)) }
{
    let mut paths = Vec::new(alloc);
    for entry in entries {
        if entry.attr.props.is_reference() {
            paths.push(path_of(alloc, entry)?)?;
        }
    }
    Ok(Seq::from_vec(paths))
}

/// The path of one entry.
fn path_of(alloc: Global, entry: &Entry) -> Result<Seq<Entry>, OutOfMemory>
    ensures { IfOk result (λ path. path ≡ entry.now ∷ []) }
{
    let mut path = Seq::new(alloc);
    path.push(entry.copy(alloc)?)?;
    Ok(path)
}

/// The entries of as-value attributes.
fn valued(alloc: Global, entries: &[Entry]) -> Result<Seq<Entry>, OutOfMemory>
    ensures { IfOk result
        (λ imms. imms ≡ filter (λ e. is_as_value e.attr.props) entries.now) }
{
    let mut imms = Vec::new(alloc);
    for entry in entries {
        if entry.attr.props.is_as_value() {
            imms.push(entry.copy(alloc)?)?;
        }
    }
    Ok(Seq::from_vec(imms))
}
