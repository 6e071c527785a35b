ghost use Rattle.std.specs.Prelude.{◌≡◌, Some};
ghost use Rattle.cal_script.specs.Kinds.{kind_name};

use std::fmt;

/// What is wrong with a line of a script: the first of these that applies. Between BadName to
/// BadValue on different words of a line, the leftmost word decides.
#[derive(Clone, Copy, Debug, PartialEq, Eq)]
pub enum ScriptKind {
    /// The line isn't UTF-8.
    NotText = 1,
    /// No line begins with this word.
    UnknownWord = 2,
    /// A header line behind a `thread` line, a line of a thread before one, or a `key` or `value`
    /// line before a channel or a second time for it.
    Misplaced = 3,
    /// Words are missing or too many, or a word other than VALUE is empty.
    WrongArity = 4,
    /// `key`, `value` or `flush` of a channel that doesn't aggregate.
    NotAggregate = 5,
    /// A declared name that isn't allowed, or `path` as a key that isn't first.
    BadName = 6,
    /// A name that was declared, or stands twice in a `key` or `value` line, or a second `global`
    /// line of an attribute.
    DuplicateName = 7,
    /// The kind isn't allowed.
    BadKind = 8,
    /// The properties aren't allowed.
    BadProps = 9,
    /// A service is unknown or named twice, or neither `trace` nor `aggregate` is there.
    BadService = 10,
    /// No attribute or channel is declared by this name.
    UnknownName = 11,
    /// A VALUE ends with a lone backslash.
    BadEscape = 12,
    /// A VALUE or number that isn't of its kind and range, or a text that is too long.
    BadValue = 13,
    /// The line passes a limit.
    TooMany = 14,
    /// A `global` line of an attribute that is no global's. It is tested between UnknownName and
    /// BadEscape.
    NotGlobal = 15,
}

impl ScriptKind {
    /// Its name, as a fault's text has it.
    pub fn name(self) -> &'static str
        ensures { result.now ≡ kind_name self }
    {
        match self {
            ScriptKind::NotText => "NotText",
            ScriptKind::UnknownWord => "UnknownWord",
            ScriptKind::Misplaced => "Misplaced",
            ScriptKind::WrongArity => "WrongArity",
            ScriptKind::NotAggregate => "NotAggregate",
            ScriptKind::BadName => "BadName",
            ScriptKind::DuplicateName => "DuplicateName",
            ScriptKind::BadKind => "BadKind",
            ScriptKind::BadProps => "BadProps",
            ScriptKind::BadService => "BadService",
            ScriptKind::UnknownName => "UnknownName",
            ScriptKind::BadEscape => "BadEscape",
            ScriptKind::BadValue => "BadValue",
            ScriptKind::TooMany => "TooMany",
            ScriptKind::NotGlobal => "NotGlobal",
        }
    }
}

impl fmt::Display for ScriptKind {
    ghost output = { λ kind. Some (kind_name kind) };

    fn fmt<W: fmt::Write>(&self, f: &mut fmt::Formatter<W>) -> fmt::Result {
        f.write_str(self.name())
    }
}
