//! Records: the order of groups, copies, and the entries of one in turn.

use crate::orders::{is_copied, wrong_place};
use crate::table::all_hold;
use cal_value::{
    Attribute, Entry, Kind, OutOfMemory, Props, Rec, Records, Seq, Text, TryCopy, Variant, same,
};
use std::alloc::Global;

/// Groups, each below the next: paths of numbers, and immediates.
const GROUPS: [(&[&[i128]], &[i128]); 8] = [
    (&[], &[]),
    (&[], &[9]),
    (&[&[1]], &[5]),
    (&[&[1]], &[5, 0]),
    (&[&[1]], &[6]),
    (&[&[1], &[1]], &[]),
    (&[&[1, 1]], &[]),
    (&[&[2]], &[]),
];

fn groups() -> &'static [(&'static [&'static [i128]], &'static [i128])] {
    &GROUPS
}

fn region(alloc: Global) -> Result<Attribute, OutOfMemory> {
    Ok(Attribute {
        name: Text::from_str(alloc, "region")?,
        kind: Kind::Int,
        props: Props::NESTED,
    })
}

fn entry(alloc: Global, number: i128) -> Result<Entry, OutOfMemory> {
    Ok(Entry {
        attr: region(alloc)?,
        value: Variant::Int(number),
    })
}

fn path(alloc: Global, numbers: &[i128]) -> Result<Seq<Entry>, OutOfMemory> {
    let mut path = Seq::new(alloc);
    for number in numbers {
        path.push(entry(alloc, *number)?)?;
    }
    Ok(path)
}

fn paths(alloc: Global, all: &[&[i128]]) -> Result<Seq<Seq<Entry>>, OutOfMemory> {
    let mut paths = Seq::new(alloc);
    for numbers in all {
        paths.push(path(alloc, numbers)?)?;
    }
    Ok(paths)
}

fn group(alloc: Global, all: &[&[i128]], imms: &[i128]) -> Result<Rec, OutOfMemory> {
    let imms = path(alloc, imms)?;
    Ok(Rec {
        paths: paths(alloc, all)?,
        imms,
    })
}

fn put_groups(alloc: Global, sorted: &mut Seq<Rec>) -> Result<(), OutOfMemory> {
    let rows = groups();
    for row in 0..rows.len() {
        sorted.push(group(alloc, rows[row].0, rows[row].1)?)?;
    }
    Ok(())
}

#[test]
fn orders_groups(rt: HostRuntime) {
    let mut sorted = Seq::new(rt.alloc());
    assert!(rt; put_groups(rt.alloc(), &mut sorted).is_ok());
    all_hold(&rt, wrong_place(sorted.as_slice()));
    assert!(rt; is_copied(rt.alloc(), &sorted));
    drop(sorted);
}

fn two_records(alloc: Global) -> Result<Records, OutOfMemory> {
    let mut rows = Seq::new(alloc);
    rows.push(group(alloc, &[&[1, 2]], &[3])?)?;
    Ok(Records {
        rows,
        globals: group(alloc, &[&[4]], &[5])?,
    })
}

fn are_copied(alloc: Global, records: &Records) -> bool {
    match records.copy(alloc) {
        Ok(copied) => {
            same(&copied.rows, &records.rows) && same(&copied.globals, &records.globals)
        }
        Err(_) => false,
    }
}

fn two_are_copied(alloc: Global) -> bool {
    match two_records(alloc) {
        Ok(records) => are_copied(alloc, &records),
        Err(_) => false,
    }
}

#[test]
fn records_are_copied_with_their_globals(rt: HostRuntime) {
    assert!(rt; two_are_copied(rt.alloc()));
}

/// Whether a record's numbers are these in turn.
fn has_in_turn(record: &Rec, numbers: &[i128]) -> bool {
    let mut place = 0;
    for entry in record.flat() {
        let Variant::Int(number) = &entry.value else {
            return false;
        };
        if numbers.get(place) != Some(number) {
            return false;
        }
        place = place.wrapping_add(1);
    }
    place == numbers.len()
}

fn is_flat(alloc: Global) -> bool {
    match group(alloc, &[&[1, 2], &[3]], &[4, 5]) {
        Ok(record) => has_in_turn(&record, &[1, 2, 3, 4, 5]),
        Err(_) => false,
    }
}

#[test]
fn flattens_a_record(rt: HostRuntime) {
    assert!(rt; is_flat(rt.alloc()));
}
