ghost use Rattle.std.specs.Prelude.{◌≡◌, ℕ, ◌+◌, ◌<◌, ◌≤◌, Bool, All, length, sum_by, OnErr, OnOk};
ghost use Rattle.std.specs.Vec.{vec_capacity, vec_len};
ghost use Rattle.indexmap.specs.IndexSet.{spare};
ghost use Rattle.cal_table.specs.declared.key.TableKey.{TableKey as AKey};
ghost use Rattle.cal_table.specs.Held.{IsHeld, MayPour, MayPut, Puts, size};
ghost use Rattle.cal_table.specs.Rows.{both_held, rows_of, tally};

use crate::TableKey;
use crate::keys::{find_key, insert_key};
use cal_agg::AggRow;
use cal_seeds::Seeds;
use cal_value::{OutOfMemory, TryCopy};
use indexmap::IndexSet;
use indexmap::set::IntoIter;
use std::alloc::Global;

/// Puts a row to the one of its key, or behind the last one, where there is room for one more.
pub(crate) fn put(
    keys: &mut IndexSet<TableKey, Seeds>,
    rows: &mut Vec<AggRow>,
    key: TableKey,
    row: AggRow,
)
    requires may { MayPut keys.old.keys rows.old.items row }
    requires key_room { 0 < spare keys.old }
    requires row_room { vec_len rows.old < vec_capacity rows.old }
    ensures puts { Puts keys.old.keys rows.old.items key row keys.new.keys rows.new.items }
    ensures key_room { spare keys.old ≤ spare keys.new + 1 }
    ensures row_room { vec_capacity rows.old + vec_len rows.new
        ≤ vec_capacity rows.new + vec_len rows.old + 1 }
{
    match insert_key(keys, key) {
        Some(number) => rows[number].merge(&row),
        None => {
            let Ok(()) = rows.push(row) else {
                unreachable!()
            };
        }
    }
}

/// Puts all rows of another list to those of their keys, where there is room for all.
pub(crate) fn pour(
    keys: &mut IndexSet<TableKey, Seeds>,
    rows: &mut Vec<AggRow>,
    more_keys: IndexSet<TableKey, Seeds>,
    mut more_rows: Vec<AggRow>,
)
    requires may { MayPour keys.old.keys rows.old.items more_keys.keys more_rows.items }
    requires key_room { length more_rows.items ≤ spare keys.old }
    requires row_room { vec_len rows.old + length more_rows.items ≤ vec_capacity rows.old }
    ensures long { length keys.new.keys ≡ length rows.new.items }
    ensures each { (cells : ℕ) → All (IsHeld cells) rows.old.items
        → All (IsHeld cells) more_rows.items → All (IsHeld cells) rows.new.items }
    ensures total { sum_by size rows.new.items
        ≡ sum_by size rows.old.items + sum_by size more_rows.items }
    ensures poured { (asked : AKey → Bool) → tally asked (rows_of keys.new.keys rows.new.items)
        ≡ both_held (tally asked (rows_of keys.old.keys rows.old.items))
        (tally asked (rows_of more_keys.keys more_rows.items)) }
{
    let mut more_keys = more_keys.into_iter();
    pour_back(keys, rows, &mut more_keys, &mut more_rows);
}

/// The same, the last row first.
fn pour_back(
    keys: &mut IndexSet<TableKey, Seeds>,
    rows: &mut Vec<AggRow>,
    more_keys: &mut IntoIter<TableKey>,
    more_rows: &mut Vec<AggRow>,
)
    requires may { MayPour keys.old.keys rows.old.items more_keys.old more_rows.old.items }
    requires key_room { length more_rows.old.items ≤ spare keys.old }
    requires row_room { vec_len rows.old + length more_rows.old.items ≤ vec_capacity rows.old }
    ensures long { length keys.new.keys ≡ length rows.new.items }
    ensures each { (cells : ℕ) → All (IsHeld cells) rows.old.items
        → All (IsHeld cells) more_rows.old.items → All (IsHeld cells) rows.new.items }
    ensures total { sum_by size rows.new.items
        ≡ sum_by size rows.old.items + sum_by size more_rows.old.items }
    ensures poured { (asked : AKey → Bool) → tally asked (rows_of keys.new.keys rows.new.items)
        ≡ both_held (tally asked (rows_of keys.old.keys rows.old.items))
        (tally asked (rows_of more_keys.old more_rows.old.items)) }
{
    while let Some(row) = more_rows.pop() {
        let Some(key) = more_keys.next_back() else {
            unreachable!()
        };
        put(keys, rows, key, row);
    }
}

/// Adds a row to the one of its key, or a copy of it behind the last one, and gives the number of
/// that row. It may be `near`, which saves a look-up then. An `Err` leaves all.
pub(crate) fn add(
    alloc: Global,
    keys: &mut IndexSet<TableKey, Seeds>,
    rows: &mut Vec<AggRow>,
    near: Option<usize>,
    key: &TableKey,
    row: &AggRow,
) -> Result<usize, OutOfMemory>
    requires { MayPut keys.old.keys rows.old.items row.now }
    ensures puts { OnOk result
        (Puts keys.old.keys rows.old.items key.now row.now keys.new.keys rows.new.items) }
    ensures err_keys { OnErr result (keys.new.keys ≡ keys.old.keys) }
    ensures err_rows { OnErr result (rows.new.items ≡ rows.old.items) }
{
    match find_key(keys, near, key) {
        Some(number) => {
            rows[number].merge(row);
            Ok(number)
        }
        None => {
            let number = rows.len();
            let key = key.copy(alloc)?;
            let row = row.copy(alloc)?;
            keys.reserve(1)?;
            rows.reserve(1)?;
            put(keys, rows, key, row);
            Ok(number)
        }
    }
}
