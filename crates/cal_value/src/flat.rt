ghost use Rattle.std.specs.Prelude.{◌≡◌, [], ◌++◌};
ghost use Rattle.std.specs.Iterator.{YieldsFirstRef, item_count};
ghost use Rattle.cal_value.specs.Flat.{flat, joined};

use crate::{Entry, Rec, Seq};
use std::marker::Model;

/// The entries of a record that are still to come, in the order of `flat`.
#[derive(Debug, Drop)]
pub struct Flat<'a> {
    path: &'a [Entry],
    paths: &'a [Seq<Entry>],
    imms: &'a [Entry],
}

impl<'a> Model for Flat<'a> {
    ghost use Rattle.std.specs.Prelude.{List, ◌++◌};
    ghost use Rattle.cal_value.specs.declared.attribute.Entry.{Entry};
    ghost use Rattle.cal_value.specs.Flat.{joined};

    ghost Value = { List Entry };

    ghost view = { λ f. f.path.now ++ (joined f.paths.now ++ f.imms.now) };
}

impl Rec {
    /// The entries in order: those of the paths, and then the immediates. Nothing is copied.
    pub fn flat(&self) -> Flat<'_>
        ensures { result ≡ flat self.now }
    {
        Flat {
            path: &[],
            paths: self.paths.as_slice(),
            imms: self.imms.as_slice(),
        }
    }
}

impl<'a> Iterator for Flat<'a> {
    type Item = &'a Entry;

    ghost next_gives = { YieldsFirstRef (λ left. left) };

    ghost remaining = { item_count (λ left. left) };

    fn next(&mut self) -> Option<&'a Entry> {
        if let Some((entry, rest)) = self.path.split_first() {
            self.path = rest;
            return Some(entry);
        }
        let (path, paths) = first_path(self.paths);
        self.paths = paths;
        if let Some((entry, rest)) = path.split_first() {
            self.path = rest;
            return Some(entry);
        }
        let (entry, rest) = self.imms.split_first()?;
        self.imms = rest;
        Some(entry)
    }
}

// The first path that isn't empty, and the paths behind it; nothing where there is none.
fn first_path(paths: &[Seq<Entry>]) -> (&[Entry], &[Seq<Entry>])
    ensures kept { joined paths.now ≡ result.0.now ++ joined result.1.now }
    ensures last { result.0.now ≡ [] → result.1.now ≡ [] }
{
    for (place, path) in paths.iter().enumerate() {
        if !path.is_empty() {
            return (path.as_slice(), &paths[place + 1..]);
        }
    }
    (&[], &[])
}
