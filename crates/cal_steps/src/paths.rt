//! Paths, each of which stands once.
ghost use Rattle.std.specs.Prelude.{◌≡◌, List, Some, IfNone, IfSome, IsTrue, OnErr, OnOk};
ghost use Rattle.std.specs.List.{Contains};
ghost use Rattle.cal_events.specs.Keeping.{HasPaths};
ghost use Rattle.cal_events.specs.Nodes.{with_path};
ghost use Rattle.cal_steps.specs.Newest.{IsNewest};
ghost use Rattle.cal_value.specs.declared.attribute.Entry as entry_of;

use cal_value::{Entry, OutOfMemory, Seq, TryCopy, same};
use std::alloc::Global;

/// Adds the newest of these paths, unless it is there.
pub(crate) fn add_newest(
    alloc: Global,
    held: &[Seq<Entry>],
    paths: &mut Seq<Seq<Entry>>,
) -> Result<(), OutOfMemory>
    ensures ok { OnOk result ((newest : List entry_of.Entry)
        → IsNewest paths.old held.now newest
        → paths.new ≡ with_path paths.old (Some newest)) }
    ensures err { OnErr result (paths.new ≡ paths.old) }
{
    match first_new(paths.as_slice(), held) {
        None => Ok(()),
        Some(path) => {
            let path = path.copy(alloc)?;
            paths.push(path)
        }
    }
}

/// The first of these paths that isn't among others.
fn first_new<'a>(paths: &[Seq<Entry>], held: &'a [Seq<Entry>]) -> Option<&'a Seq<Entry>>
    ensures held { IfSome result (λ path. Contains held.now path.now) }
    ensures new { IfSome result (λ path. Contains paths.now path.now → ⊥) }
    ensures none { IfNone result (HasPaths paths.now held.now) }
{
    for path in held {
        if !has_path(paths, path) {
            return Some(path);
        }
    }
    None
}

/// Whether a path is among others.
fn has_path(paths: &[Seq<Entry>], path: &Seq<Entry>) -> bool
    ensures there { IsTrue result → Contains paths.now path.now }
    ensures new { Contains paths.now path.now → IsTrue result }
{
    for known in paths {
        if same(known, path) {
            return true;
        }
    }
    false
}
