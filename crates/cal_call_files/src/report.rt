//! The line that tells of a fault of `files`.
ghost use Rattle.std.specs.Prelude.{◌≡◌, ◌+◌, ◌≤◌, ◌++◌, length, codes, decimal};
ghost use Rattle.arrayvec.specs.ArrayString.{array_string_len};
ghost use Rattle.cal_base.specs.Change.{change_of};
ghost use Rattle.cal_call.specs.Ends.{Tells};
ghost use Rattle.cal_call_files.specs.Faults.{fault_line, file_told, message_of};

use crate::FilesFault;
use arrayvec::ArrayString;
use cal_base::Sink;
use itoa::Buffer;

/// A line on standard error, of at most 160 bytes.
type Line = ArrayString<160>;

/// Puts the line that tells of a fault. It takes no memory, and a sink that fails changes nothing
/// else.
pub fn put_files_fault<E: Sink>(errors: &mut E, fault: &FilesFault)
    ensures { Tells (fault_line fault.now)
        (change_of E.written E.faults errors.old errors.new) }
{
    let line = fault_text(fault);
    let _ = errors.put(line.as_str().as_bytes());
}

/// The line that tells of a fault.
fn fault_text(fault: &FilesFault) -> Line
    ensures { result.bytes ≡ fault_line fault.now }
{
    let mut line = Line::new();
    add(&mut line, "caliper: ");
    add_message(&mut line, fault);
    add(&mut line, "\n");
    line
}

/// Adds what a fault is told as.
fn add_message(line: &mut Line, fault: &FilesFault)
    requires { array_string_len line.old ≤ 9 }
    ensures told { line.new.bytes ≡ line.old.bytes ++ message_of fault.now }
    ensures short { array_string_len line.new ≤ 159 }
{
    match fault {
        FilesFault::Usage { word } => {
            add(line, "usage: word ");
            add_number(line, u64::from(*word) + 1);
        }
        FilesFault::BadInput {
            file,
            line: number,
            kind,
        } => {
            add_file(line, *file);
            add(line, "line ");
            add_number(line, *number);
            add(line, ": ");
            add(line, kind.name());
        }
        FilesFault::BadQuery { place, kind } => {
            add(line, "query: byte ");
            add_number(line, *place);
            add(line, ": ");
            add(line, kind.name());
        }
        FilesFault::ReadFault { file } => {
            add_file(line, *file);
            add(line, "read failed");
        }
        FilesFault::WriteFault => add(line, "write failed"),
        FilesFault::OutOfMemory => add(line, "out of memory"),
        FilesFault::TooLong { file } => {
            add_file(line, *file);
            add(line, "input too long");
        }
        FilesFault::OpenFault { file } => {
            add_file(line, *file);
            add(line, "cannot open");
        }
    }
}

/// Adds which file it is.
fn add_file(line: &mut Line, file: u32)
    requires { array_string_len line.old ≤ 9 }
    ensures told { line.new.bytes ≡ line.old.bytes ++ file_told file }
    ensures short { array_string_len line.new ≤ 56 }
{
    add(line, "file ");
    add_number(line, u64::from(file) + 1);
    add(line, ": ");
}

/// Adds a number in digits, at most 40 of them.
fn add_number(line: &mut Line, number: u64)
    requires { array_string_len line.old + 40 ≤ 160 }
    ensures digits { line.new.bytes ≡ line.old.bytes ++ decimal number }
    ensures short { length (decimal number) ≤ 40 }
{
    add(line, Buffer::new().format(number));
}

/// Adds a piece that fits.
fn add(line: &mut Line, piece: &str)
    requires { array_string_len line.old + length piece.now ≤ 160 }
    ensures { line.new.bytes ≡ line.old.bytes ++ piece.now }
{
    line.push_str(piece);
}
