ghost use Rattle.std.specs.Prelude.{◌≡◌, Some};
ghost use Rattle.cal_journal.specs.Kinds.{kind_name};

use std::fmt;

/// Which rule a journal breaks: the first of these that is broken, at the first line that breaks
/// it.
#[derive(Clone, Copy, Debug, PartialEq, Eq)]
pub enum JournalKind {
    /// A line isn't one of the forms, or not in their order.
    Form = 1,
    /// The input ends before `end`. The line is one past the last.
    Cut = 2,
    /// A line that isn't blank follows `end`.
    After = 3,
    /// A `start` or `line` line isn't the next one of the script's threads and lines,
    /// or one is missing.
    Shape = 4,
    /// An `op` names no process line of the script.
    OpStranger = 5,
    /// An `op` isn't the next process line of its thread, or one is missing.
    OpOrder = 6,
    /// A line has seen less than the one before it in its thread.
    SeenFalls = 7,
    /// A line has seen more than the whole history.
    SeenPast = 8,
    /// A process line hasn't seen up to itself, or the line before it has seen it.
    SeenOwn = 9,
    /// A line that doesn't look has seen something new.
    SeenFixed = 10,
    /// A reading is there where none is taken, is missing, or isn't the script clock's.
    Reading = 11,
    /// The reply isn't the one that the line gets.
    Reply = 12,
}

impl JournalKind {
    /// Its name, as a fault's text has it.
    pub fn name(self) -> &'static str
        ensures { result.now ≡ kind_name self }
    {
        match self {
            JournalKind::Form => "Form",
            JournalKind::Cut => "Cut",
            JournalKind::After => "After",
            JournalKind::Shape => "Shape",
            JournalKind::OpStranger => "OpStranger",
            JournalKind::OpOrder => "OpOrder",
            JournalKind::SeenFalls => "SeenFalls",
            JournalKind::SeenPast => "SeenPast",
            JournalKind::SeenOwn => "SeenOwn",
            JournalKind::SeenFixed => "SeenFixed",
            JournalKind::Reading => "Reading",
            JournalKind::Reply => "Reply",
        }
    }
}

impl fmt::Display for JournalKind {
    ghost output = { λ kind. Some (kind_name kind) };

    fn fmt<W: fmt::Write>(&self, f: &mut fmt::Formatter<W>) -> fmt::Result {
        f.write_str(self.name())
    }
}
