ghost use Rattle.std.specs.Prelude.{◌≡◌, Some};
ghost use Rattle.cal_read.specs.Kinds.{kind_name};

use std::fmt;

/// What is wrong with a line of a stream, in the order in which a line is tested (Giltmoth's rule).
#[derive(Clone, Copy, Debug, PartialEq, Eq)]
pub enum StreamKind {
    /// The line isn't UTF-8.
    NotText,
    /// The line isn't a list of fields, or a key comes twice.
    BadField,
    /// The first field isn't `__rec` with one of the three values.
    NoRecord,
    /// A `node` line without `id`, `attr` or `data`, or with several values in one of its fields.
    MissingField,
    /// The fields `attr` and `data` of a record have different numbers of values.
    Uneven,
    /// An id that isn't one.
    BadNumber,
    /// An id that no earlier line gave to a node.
    UnknownNode,
    /// An id in `attr` whose node isn't an attribute.
    NotAttribute,
    /// A value that isn't of its attribute's kind, or properties out of range.
    BadValue,
    /// A `node` line that would make an attribute without a kind above it.
    NoKind,
    /// A `node` line whose path would have more than 1,024 entries.
    TooDeep,
    /// A `node` line whose id has other content.
    Redefined,
}

impl StreamKind {
    /// Its name, as a fault's text has it.
    pub fn name(self) -> &'static str
        ensures { result.now ≡ kind_name self }
    {
        match self {
            StreamKind::NotText => "NotText",
            StreamKind::BadField => "BadField",
            StreamKind::NoRecord => "NoRecord",
            StreamKind::MissingField => "MissingField",
            StreamKind::Uneven => "Uneven",
            StreamKind::BadNumber => "BadNumber",
            StreamKind::UnknownNode => "UnknownNode",
            StreamKind::NotAttribute => "NotAttribute",
            StreamKind::BadValue => "BadValue",
            StreamKind::NoKind => "NoKind",
            StreamKind::TooDeep => "TooDeep",
            StreamKind::Redefined => "Redefined",
        }
    }
}

impl fmt::Display for StreamKind {
    ghost output = { λ kind. Some (kind_name kind) };

    fn fmt<W: fmt::Write>(&self, f: &mut fmt::Formatter<W>) -> fmt::Result {
        f.write_str(self.name())
    }
}
