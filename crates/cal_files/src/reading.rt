//! The reading of files by their names, one after another.
ghost use Rattle.std.specs.Prelude.{◌≡◌, ◌+◌, ◌-◌, ◌^◌, ◌<◌, ◌≤◌, [], length, map, vec_len};
ghost use Rattle.std.specs.Prelude.{IfOk, IfErr, OnOk};
ghost use Rattle.cal_files.specs.Files.{IsFile};
ghost use Rattle.cal_files.specs.FilesEnds.{ReadsFiles, StopsAt, StopsIn};
ghost use Rattle.cal_files.specs.OpenerChange.{opener_change};

use crate::taking::take_rest;
use crate::{FilesEnd, Opener};
use cal_base::ReadEnd;
use cal_value::Text;
use std::alloc::Global;

/// How many bytes are asked for at once.
const PIECE: usize = 65_536;

/// Opens and reads the files of these names, each to its end and one after another, where they have
/// at most `limit` bytes together. Time and memory are in the number of names and bytes, and 64 KiB
/// beside them.
pub fn read_files<O: Opener>(
    alloc: Global,
    opener: &mut O,
    names: &[Text],
    limit: u64,
) -> Result<Vec<Vec<u8>>, FilesEnd>
    requires few { length names.now < 2 ^ 32 }
    requires openings { O.openings opener.old + length names.now < 2 ^ 64 }

    // The files of all names, in their order.
    ensures files { IfOk result (λ files. ReadsFiles limit
        (opener_change O.content O.openings O.open_faults O.read_faults opener.old opener.new)
        names.now (map (λ file. file.items) files.items)) }

    // The first reason why they aren't given.
    ensures refused { IfErr result (λ end. StopsAt end limit
        (opener_change O.content O.openings O.open_faults O.read_faults opener.old opener.new)
        names.now) }

    // The counts never fall, and what names hold stays.
    ensures opens { O.open_faults opener.old ≤ O.open_faults opener.new }
    ensures reads { O.read_faults opener.old ≤ O.read_faults opener.new }
    ensures content { O.content opener.new ≡ O.content opener.old }
{
    let mut buffer = vec![in alloc; 0u8; PIECE]?;
    let mut files = Vec::new(alloc);
    take_files(
        alloc,
        opener,
        names,
        limit,
        buffer.as_mut_slice(),
        &mut files,
    )?;
    Ok(files)
}

/// The same, through a buffer, into a list with no file.
fn take_files<O: Opener>(
    alloc: Global,
    opener: &mut O,
    names: &[Text],
    limit: u64,
    buffer: &mut [u8],
    files: &mut Vec<Vec<u8>>,
) -> Result<(), FilesEnd>
    requires few { length names.now < 2 ^ 32 }
    requires openings { O.openings opener.old + length names.now < 2 ^ 64 }
    requires room { 0 < length buffer.old }
    requires none { files.old.items ≡ [] }
    ensures files { OnOk result (ReadsFiles limit
        (opener_change O.content O.openings O.open_faults O.read_faults opener.old opener.new)
        names.now (map (λ file. file.items) files.new.items)) }
    ensures refused { IfErr result (λ end. StopsAt end limit
        (opener_change O.content O.openings O.open_faults O.read_faults opener.old opener.new)
        names.now) }
    ensures opens { O.open_faults opener.old ≤ O.open_faults opener.new }
    ensures reads { O.read_faults opener.old ≤ O.read_faults opener.new }
    ensures content { O.content opener.new ≡ O.content opener.old }
{
    let mut allowed = limit;
    for (place, name) in names.iter().enumerate() {
        let bytes = read_file(alloc, opener, place as u32, name.as_str(), allowed, buffer)?;
        allowed -= bytes.len() as u64;
        files.push(bytes)?;
    }
    Ok(())
}

/// Opens and reads the file of the name at a place, where it has at most `allowed` bytes.
fn read_file<O: Opener>(
    alloc: Global,
    opener: &mut O,
    place: u32,
    name: &str,
    allowed: u64,
    buffer: &mut [u8],
) -> Result<Vec<u8>, FilesEnd>
    requires openings { O.openings opener.old < 2 ^ 64 - 1 }
    requires room { 0 < length buffer.old }
    ensures whole { IfOk result (λ bytes. IsFile (O.content opener.old name.now) bytes.items) }
    ensures within { IfOk result (λ bytes. vec_len bytes ≤ allowed) }
    ensures opened { OnOk result (O.openings opener.new ≡ O.openings opener.old + 1) }
    ensures refused { IfErr result (λ end. StopsIn end place allowed
        (opener_change O.content O.openings O.open_faults O.read_faults opener.old opener.new)
        name.now) }
    ensures opens { O.open_faults opener.old ≤ O.open_faults opener.new }
    ensures reads { O.read_faults opener.old ≤ O.read_faults opener.new }
    ensures content { O.content opener.new ≡ O.content opener.old }
{
    if opener.open(name).is_err() {
        return Err(FilesEnd::OpenFault { file: place });
    }
    match take_rest(alloc, opener, allowed, buffer) {
        Ok(bytes) => Ok(bytes),
        Err(ReadEnd::ReadFault) => Err(FilesEnd::ReadFault { file: place }),
        Err(ReadEnd::TooLong) => Err(FilesEnd::TooLong { file: place }),
        Err(ReadEnd::OutOfMemory) => Err(FilesEnd::OutOfMemory),
    }
}
