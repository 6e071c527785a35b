ghost use Rattle.std.specs.Prelude.{◌≡◌, ◌+◌, ◌<◌, ◌≤◌, [], ◌∷◌, ◌++◌, slice_get};
ghost use Rattle.std.specs.Prelude.{Some, IfNone, IfSome, IsTrue};
ghost use Rattle.indexmap.specs.IndexSet.{spare};
ghost use Rattle.cal_context.specs.Lists.{AreApart};

use cal_seeds::Seeds;
use cal_value::{Exact, same};
use indexmap::IndexSet;
use std::hash::Hash;

/// The number of a key, if it is there. A new one goes last, where there is room for one more.
pub(crate) fn insert_key<K: Exact + Hash + Drop>(
    keys: &mut IndexSet<K, Seeds>,
    key: K,
) -> Option<usize>
    requires { 0 < spare keys.old }
    ensures there { IfSome result (λ number. (keys.new.keys ≡ keys.old.keys)
        × (slice_get keys.old.keys number ≡ Some key)) }
    ensures added { IfNone result (keys.new.keys ≡ keys.old.keys ++ key ∷ []) }
    ensures room { spare keys.old ≤ spare keys.new + 1 }
{
    let Ok((number, fresh)) = keys.insert_full(key) else {
        unreachable!()
    };
    if fresh { None } else { Some(number) }
}

/// The number of a key, if it is there. It may be `near`, which saves a look-up then.
pub(crate) fn find_key<K: Exact + Hash>(
    keys: &IndexSet<K, Seeds>,
    near: Option<usize>,
    key: &K,
) -> Option<usize>
    ensures { IfSome result (λ number. slice_get keys.now.keys number ≡ Some key.now) }
{
    if let Some(near) = near {
        if has_at(keys.as_slice(), near, key) {
            return Some(near);
        }
    }
    keys.get_index_of(key)
}

/// Whether a key stands at a place.
fn has_at<K: Exact>(keys: &[K], place: usize, key: &K) -> bool
    ensures { IsTrue result → slice_get keys.now place ≡ Some key.now }
{
    match keys.get(place) {
        Some(other) => same(other, key),
        None => false,
    }
}

/// The keys by their numbers, each once.
pub(crate) fn as_slice<K: Exact + Hash>(keys: &IndexSet<K, Seeds>) -> &[K]
    ensures keys { result.now ≡ keys.now.keys }
    ensures apart { AreApart keys.now.keys }
{
    keys.as_slice()
}
