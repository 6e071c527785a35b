//! What a script and a journal say.

use cal_journal::read_both;
use cal_script::{Journal, JournalMarks, JournalText, LineNote, Placed, Reply, RowMark, Script};
use cal_valid::valid_script_law;
use std::alloc::Global;

const BOTH: &str = "attribute phase string 268\nthread\nbegin phase init\nthread\nend phase\n\
    journal real\nop 0 1\n\nop 1 1\nstart 0 100\nline 0 1 done 99999999999999999999 90\n\
    start 1 -\nline 1 1 mismatch:0 2 -\nend\n";

const OPS: [Placed; 2] = [Placed { thread: 0, line: 1 }, Placed { thread: 1, line: 1 }];

const NOTE: LineNote = LineNote {
    reply: Reply::Done,
    seen: 18_446_744_073_709_551_615,
    reading: Some(90),
};

fn has_first_thread(journal: &Journal) -> bool {
    match journal.threads.get(0) {
        Some(first) => first.start == Some(100) && first.lines.as_slice() == [NOTE].as_slice(),
        None => false,
    }
}

fn has_journal(journal: &Journal) -> bool {
    journal.real
        && journal.ops.as_slice() == OPS.as_slice()
        && journal.threads.len() == 2
        && has_first_thread(journal)
}

/// The lines of the input on which the rows stand: their line, their thread, and which of it.
const ROWS: [RowMark; 4] = [
    RowMark {
        line: 10,
        thread: 0,
        number: 0,
    },
    RowMark {
        line: 11,
        thread: 0,
        number: 1,
    },
    RowMark {
        line: 12,
        thread: 1,
        number: 0,
    },
    RowMark {
        line: 13,
        thread: 1,
        number: 1,
    },
];

fn has_marks(marks: &JournalMarks) -> bool {
    marks.ops.as_slice() == [7, 9].as_slice()
        && marks.end == 14
        && marks.rows.as_slice() == ROWS.as_slice()
}

fn is_both(script: &Script, text: &Option<JournalText>) -> bool {
    let Some(text) = text else {
        return false;
    };
    script.threads.len() == 2 && has_journal(&text.journal) && has_marks(&text.marks)
}

fn says_both(alloc: Global) -> bool {
    let Ok((script, text)) = read_both(alloc, BOTH.as_bytes()) else {
        return false;
    };
    let says = is_both(&script, &text);
    drop(text);
    drop(script);
    says
}

#[test]
fn a_journal_is_plain_data_with_its_lines(rt: HostRuntime) {
    valid_script_law();
    assert!(rt; says_both(rt.alloc()));
}

fn says_a_script_alone(alloc: Global) -> bool {
    let Ok((script, text)) = read_both(alloc, b"thread\nsnapshot\n") else {
        return false;
    };
    let alone = text.is_none();
    drop(text);
    drop(script);
    alone
}

#[test]
fn a_script_may_stand_alone(rt: HostRuntime) {
    assert!(rt; says_a_script_alone(rt.alloc()));
}
