//! A plain hash map of keys, to measure tables by.

use cal_snap::NumberedSnap;
use cal_value::{OutOfMemory, TryCopy, Variant};
use std::alloc::Global;
use std::collections::HashMap;
use std::hash::RandomState;

/// Nodes, and values by their attributes.
#[derive(Drop, PartialEq, Eq, Hash)]
pub struct PlainKey {
    nodes: Vec<u32>,
    imms: Vec<PlainEntry>,
}

#[derive(Drop, PartialEq, Eq, Hash)]
struct PlainEntry {
    attribute: u32,
    value: Variant,
}

/// How many snapshots there are, and of their numbers the sum and the ends.
#[derive(Clone, Copy)]
pub struct PlainRow {
    count: u64,
    sum: i128,
    least: i128,
    greatest: i128,
}

impl PlainKey {
    pub fn new(alloc: Global) -> PlainKey {
        PlainKey {
            nodes: Vec::new(alloc),
            imms: Vec::new(alloc),
        }
    }

    // Becomes the key of a snapshot: its nodes, and its entries of the first attribute.
    fn renew(&mut self, alloc: Global, snap: &NumberedSnap) -> Result<(), OutOfMemory> {
        self.nodes.clear();
        for node in &snap.refs {
            self.nodes.push(node.0)?;
        }
        self.imms.clear();
        for entry in &snap.imms {
            if entry.attribute == 0 {
                self.imms.push(copied(alloc, 0, &entry.value)?)?;
            }
        }
        Ok(())
    }

    fn copy(&self, alloc: Global) -> Result<PlainKey, OutOfMemory> {
        let mut imms = Vec::with_capacity(alloc, self.imms.len())?;
        for entry in &self.imms {
            imms.push(copied(alloc, entry.attribute, &entry.value)?)?;
        }
        Ok(PlainKey {
            nodes: Vec::from_slice(alloc, self.nodes.as_slice())?,
            imms,
        })
    }
}

impl PlainRow {
    fn add(&mut self, number: i128) {
        self.count = self.count.wrapping_add(1);
        self.sum = self.sum.wrapping_add(number);
        self.least = self.least.min(number);
        self.greatest = self.greatest.max(number);
    }
}

fn copied(alloc: Global, attribute: u32, value: &Variant) -> Result<PlainEntry, OutOfMemory> {
    Ok(PlainEntry {
        attribute,
        value: value.copy(alloc)?,
    })
}

// The number of a value, or 0.
fn number_in(value: &Variant) -> u64 {
    match value {
        Variant::Uint(n) => *n,
        _ => 0,
    }
}

// The last number of the second attribute, or 0.
fn last_number(snap: &NumberedSnap) -> i128 {
    let mut last = 0;
    for entry in &snap.imms {
        if entry.attribute == 1 {
            last = i128::from(number_in(&entry.value));
        }
    }
    last
}

/// Adds a snapshot to the row of its key, which `draft` becomes.
pub fn add_plain(
    alloc: Global,
    map: &mut HashMap<PlainKey, PlainRow, RandomState>,
    draft: &mut PlainKey,
    snap: &NumberedSnap,
) -> Result<(), OutOfMemory> {
    let number = last_number(snap);
    draft.renew(alloc, snap)?;
    if let Some(row) = map.get_mut(&*draft) {
        row.add(number);
        return Ok(());
    }
    let row = PlainRow {
        count: 1,
        sum: number,
        least: number,
        greatest: number,
    };
    map.insert(draft.copy(alloc)?, row)?;
    Ok(())
}
