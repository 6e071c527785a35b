//! A journal that is printed.

use cal_journal::{print_journal, printed_journal_law, read_both};
use cal_script::JournalText;
use cal_value::OutOfMemory;
use std::alloc::Global;

const PRINTED: &str = "journal script\nop 0 1\nop 1 2\nstart 0 -\nline 0 1 done 1 0\n\
    line 0 2 merged 2 -\nline 0 3 busy:1 2 -\nstart 1 5\n\
    line 1 1 mismatch:3 1 18446744073709551615\nline 1 2 notopen 2 -\nline 1 3 toodeep 2 -\n\
    line 1 4 slotsfull 18446744073709551615 -\nend\n";

fn is_printed(alloc: Global, text: &Option<JournalText>) -> Result<bool, OutOfMemory> {
    let Some(text) = text else {
        return Ok(false);
    };
    let printed = print_journal(alloc, &text.journal)?;
    let is_same = printed.as_str() == PRINTED;
    drop(printed);
    Ok(is_same)
}

fn is_printed_as_read(alloc: Global) -> Result<bool, OutOfMemory> {
    let Ok((script, text)) = read_both(alloc, PRINTED.as_bytes()) else {
        return Ok(false);
    };
    let printed = is_printed(alloc, &text);
    drop(text);
    drop(script);
    printed
}

#[test]
fn a_journal_is_printed_as_it_was_read(rt: HostRuntime) {
    printed_journal_law();
    assert!(rt; is_printed_as_read(rt.alloc()) == Ok(true));
}
