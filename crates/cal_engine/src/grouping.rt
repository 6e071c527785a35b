ghost use Rattle.std.specs.Prelude.{◌≡◌, not, filter, codes, IfOk, true, false};
ghost use Rattle.cal_value.specs.Flat.{joined};
ghost use Rattle.cal_keys.specs.Groups.{group_of as group_by, has_entries, taken};
ghost use Rattle.cal_keys.specs.Groups.{takes as name_takes, takes_attribute};

use cal_rowset::is_of_hierarchy;
use cal_value::{Attribute, Entry, OutOfMemory, Rec, Seq, Text};
use std::alloc::Global;

/// The group of a record, whose entries move there.
pub(crate) fn group_of(
    alloc: Global,
    names: &Option<Seq<Text>>,
    rec: Rec,
) -> Result<Rec, OutOfMemory>
    ensures { IfOk result (λ group. group ≡ group_by names.now rec) }
{
    let Rec { paths, imms } = rec;
    match names {
        None => Ok(Rec {
            paths,
            imms: Seq::new(alloc),
        }),
        Some(names) => Ok(Rec {
            paths: taken_paths(alloc, names.as_slice(), entries_of(alloc, paths)?)?,
            imms: taken_imms(alloc, names.as_slice(), imms.into_vec())?,
        }),
    }
}

/// The entries of paths, path by path.
fn entries_of(alloc: Global, paths: Seq<Seq<Entry>>) -> Result<Vec<Entry>, OutOfMemory>
    ensures { IfOk result (λ entries. entries.items ≡ joined paths) }
{
    let mut entries = Vec::new(alloc);
    for path in paths.into_vec() {
        let mut path = path.into_vec();
        entries.append(&mut path)?;
    }
    Ok(entries)
}

/// What each name takes of the entries of paths, as paths.
fn taken_paths(
    alloc: Global,
    names: &[Text],
    entries: Vec<Entry>,
) -> Result<Seq<Seq<Entry>>, OutOfMemory>
    ensures { IfOk result (λ paths. paths
        ≡ filter has_entries (taken true names.now entries.items)) }
{
    let mut paths = Vec::new(alloc);
    let mut left = entries;
    for name in names {
        let Picked { took, rest } = pick(alloc, true, name, left)?;
        left = rest;
        if !took.is_empty() {
            paths.push(Seq::from_vec(took))?;
        }
    }
    Ok(Seq::from_vec(paths))
}

/// What each name takes of immediates.
fn taken_imms(alloc: Global, names: &[Text], entries: Vec<Entry>) -> Result<Seq<Entry>, OutOfMemory>
    ensures { IfOk result (λ imms. imms ≡ joined (taken false names.now entries.items)) }
{
    let mut imms = Vec::new(alloc);
    let mut left = entries;
    for name in names {
        let Picked { mut took, rest } = pick(alloc, false, name, left)?;
        left = rest;
        imms.append(&mut took)?;
    }
    Ok(Seq::from_vec(imms))
}

/// Entries that a name took, and those that it left.
#[derive(Drop)]
struct Picked {
    took: Vec<Entry>,
    rest: Vec<Entry>,
}

fn pick(
    alloc: Global,
    in_path: bool,
    name: &Text,
    entries: Vec<Entry>,
) -> Result<Picked, OutOfMemory>
    ensures took { IfOk result (λ s. s.took.items
        ≡ filter (name_takes in_path name.now) entries.items) }
    ensures rest { IfOk result (λ s. s.rest.items
        ≡ filter (λ e. not (name_takes in_path name.now e)) entries.items) }
{
    let mut took = Vec::new(alloc);
    let mut rest = Vec::new(alloc);
    for entry in entries {
        if takes(in_path, name, &entry.attr) {
            took.push(entry)?;
        } else {
            rest.push(entry)?;
        }
    }
    Ok(Picked { took, rest })
}

/// Whether a name of GROUP BY takes the entries of an attribute.
pub(crate) fn takes(in_path: bool, name: &Text, attribute: &Attribute) -> bool
    ensures { result ≡ takes_attribute in_path name.now attribute.now }
{
    if name.as_str() == "path" {
        in_path && is_of_hierarchy(attribute)
    } else {
        attribute.name.as_str() == name.as_str()
    }
}
