ghost use Rattle.std.specs.Prelude.{◌≡◌, ◌<◌, ◌^◌, ◌++◌, All, decimal, length};
ghost use Rattle.std.specs.Prelude.{IfOk, IfSome, OnOk};
ghost use Rattle.std.specs.List.{flat_map};
ghost use Rattle.cal_journal.specs.Printing.{journal_text, note_text, notes_text, op_text};
ghost use Rattle.cal_journal.specs.Printing.{reading_text, reply_text, spaced, thread_text};
ghost use Rattle.cal_journal.specs.Printing.{threads_text};
ghost use Rattle.cal_journal.specs.ReadBack.{HoldsJournal, HoldsNote, HoldsOp, HoldsReply};
ghost use Rattle.cal_journal.specs.ReadBack.{HoldsThread};

use cal_script::{Journal, LineNote, Placed, Reply, ThreadNote};
use cal_value::{OutOfMemory, Text};
use itoa::Buffer;
use std::alloc::Global;

fn push_number(out: &mut Text, number: u64) -> Result<(), OutOfMemory>
    ensures { OnOk result (out.new ≡ out.old ++ decimal number) }
{
    let mut buffer = Buffer::new();
    out.push_str(buffer.format(number))
}

fn push_spaced(out: &mut Text, number: u64) -> Result<(), OutOfMemory>
    ensures { OnOk result (out.new ≡ out.old ++ spaced number) }
{
    out.push_str(" ")?;
    push_number(out, number)
}

fn push_reading(out: &mut Text, reading: Option<u64>) -> Result<(), OutOfMemory>
    ensures text { OnOk result (out.new ≡ out.old ++ reading_text reading) }
    ensures held { IfSome reading (λ n. n < 2 ^ 64) }
{
    match reading {
        None => out.push_str(" -"),
        Some(number) => push_spaced(out, number),
    }
}

fn push_named(out: &mut Text, name: &str, number: u32) -> Result<(), OutOfMemory>
    ensures { OnOk result (out.new ≡ out.old ++ name.now ++ decimal number) }
{
    out.push_str(name)?;
    push_number(out, u64::from(number))
}

fn push_reply(out: &mut Text, reply: Reply) -> Result<(), OutOfMemory>
    ensures text { OnOk result (out.new ≡ out.old ++ reply_text reply) }
    ensures held { HoldsReply reply }
{
    match reply {
        Reply::Done => out.push_str(" done"),
        Reply::Mismatch { top } => push_named(out, " mismatch:", top),
        Reply::NotOpen => out.push_str(" notopen"),
        Reply::TooDeep => out.push_str(" toodeep"),
        Reply::SlotsFull => out.push_str(" slotsfull"),
        Reply::Merged => out.push_str(" merged"),
        Reply::Busy { holder } => push_named(out, " busy:", holder),
    }
}

fn push_op(out: &mut Text, op: Placed) -> Result<(), OutOfMemory>
    ensures text { OnOk result (out.new ≡ out.old ++ op_text op) }
    ensures held { HoldsOp op }
{
    out.push_str("op")?;
    push_spaced(out, u64::from(op.thread))?;
    push_spaced(out, u64::from(op.line))?;
    out.push_str("\n")
}

fn push_ops(out: &mut Text, ops: &[Placed]) -> Result<(), OutOfMemory>
    ensures text { OnOk result (out.new ≡ out.old ++ flat_map op_text ops.now) }
    ensures held { OnOk result (All HoldsOp ops.now) }
{
    for op in ops {
        push_op(out, *op)?;
    }
    Ok(())
}

fn push_note(out: &mut Text, thread: u64, line: u64, note: LineNote) -> Result<(), OutOfMemory>
    ensures text { OnOk result (out.new ≡ out.old ++ note_text thread line note) }
    ensures held { OnOk result (HoldsNote note) }
{
    out.push_str("line")?;
    push_spaced(out, thread)?;
    push_spaced(out, line)?;
    push_reply(out, note.reply)?;
    push_spaced(out, note.seen)?;
    push_reading(out, note.reading)?;
    out.push_str("\n")
}

fn push_notes(out: &mut Text, thread: u64, notes: &[LineNote]) -> Result<(), OutOfMemory>
    ensures text { OnOk result (out.new ≡ out.old ++ notes_text thread 1 notes.now) }
    ensures held { OnOk result (All HoldsNote notes.now) }
    ensures few { length notes.now < 2 ^ 63 }
{
    let mut line: u64 = 1;
    for note in notes {
        push_note(out, thread, line, *note)?;
        line += 1;
    }
    Ok(())
}

fn push_thread(out: &mut Text, thread: u64, note: &ThreadNote) -> Result<(), OutOfMemory>
    ensures text { OnOk result (out.new ≡ out.old ++ thread_text thread note.now) }
    ensures held { OnOk result (HoldsThread note.now) }
{
    out.push_str("start")?;
    push_spaced(out, thread)?;
    push_reading(out, note.start)?;
    out.push_str("\n")?;
    push_notes(out, thread, note.lines.as_slice())
}

fn push_threads(out: &mut Text, threads: &[ThreadNote]) -> Result<(), OutOfMemory>
    ensures text { OnOk result (out.new ≡ out.old ++ threads_text 0 threads.now) }
    ensures held { OnOk result (All HoldsThread threads.now) }
    ensures few { length threads.now < 2 ^ 63 }
{
    let mut thread: u64 = 0;
    for note in threads {
        push_thread(out, thread, note)?;
        thread += 1;
    }
    Ok(())
}

/// The text of a journal, which takes time in its length.
pub fn print_journal(alloc: Global, journal: &Journal) -> Result<Text, OutOfMemory>
    ensures text { IfOk result (λ text. text ≡ journal_text journal.now) }

    // What was printed reads back, by the laws of printed journals.
    ensures held { OnOk result (HoldsJournal journal.now) }
{
    let mut out = Text::new(alloc);
    out.push_str("journal ")?;
    out.push_str(if journal.real { "real" } else { "script" })?;
    out.push_str("\n")?;
    push_ops(&mut out, journal.ops.as_slice())?;
    push_threads(&mut out, journal.threads.as_slice())?;
    out.push_str("end\n")?;
    Ok(out)
}
