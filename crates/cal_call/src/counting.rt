//! How many lines of a journal were refused.
ghost use Rattle.std.specs.Prelude.{◌≡◌};
ghost use Rattle.cal_call.specs.Refusals.{HasFewLines, is_refusal, refused_lines, refused_of};

use cal_script::{Journal, Reply, ThreadNote};

/// How many lines of a journal were refused.
pub fn count_refused(journal: &Journal) -> u64
    requires { HasFewLines journal.now }
    ensures { result ≡ refused_lines journal.now }
{
    let mut refused = 0;
    for thread in journal.threads.as_slice() {
        refused += count_in(thread);
    }
    refused
}

/// How many lines of a thread were refused.
fn count_in(thread: &ThreadNote) -> u64
    ensures { result ≡ refused_of thread.now }
{
    let mut refused = 0;
    for note in thread.lines.as_slice() {
        if is_refusal(note.reply) {
            refused += 1;
        }
    }
    refused
}

/// Whether a line with this reply was refused.
fn is_refusal(reply: Reply) -> bool
    ensures { result ≡ is_refusal reply }
{
    match reply {
        Reply::Mismatch { .. } | Reply::NotOpen | Reply::TooDeep | Reply::SlotsFull => true,
        Reply::Done | Reply::Merged | Reply::Busy { .. } => false,
    }
}
