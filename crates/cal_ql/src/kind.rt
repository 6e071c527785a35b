ghost use Rattle.std.specs.Prelude.{◌≡◌, Some};
ghost use Rattle.cal_ql.specs.Kinds.{kind_name};

use std::fmt;

/// What is wrong with a CalQL text.
#[derive(Clone, Copy, Debug, PartialEq, Eq)]
pub enum QueryKind {
    /// The next byte begins no token.
    BadToken = 1,
    /// A quoted text has no end. The place is its first quote.
    OpenQuote = 2,
    /// Something other than a clause's keyword stands between clauses.
    ExpectedClause = 3,
    /// Something other than a name stands where one must.
    ExpectedName = 4,
    /// An equals sign or a parenthesis is missing.
    ExpectedSign = 5,
    /// The keyword of a clause that came before.
    DuplicateClause = 6,
    /// The name is that of no kernel.
    UnknownKernel = 7,
    /// The name is that of no operator.
    UnknownOp = 8,
    /// A call has too few arguments or too many. The place is the kernel's or operator's name.
    BadArity = 9,
    /// What stands in a number's place is none, or is out of range.
    BadNumber = 10,
    /// The name is that of no format.
    UnknownFormat = 11,
    /// GROUP or ORDER has no BY.
    ExpectedBy = 12,
}

impl QueryKind {
    /// Its name, as a fault's text has it.
    pub fn name(self) -> &'static str
        ensures { result.now ≡ kind_name self }
    {
        match self {
            QueryKind::BadToken => "BadToken",
            QueryKind::OpenQuote => "OpenQuote",
            QueryKind::ExpectedClause => "ExpectedClause",
            QueryKind::ExpectedName => "ExpectedName",
            QueryKind::ExpectedSign => "ExpectedSign",
            QueryKind::DuplicateClause => "DuplicateClause",
            QueryKind::UnknownKernel => "UnknownKernel",
            QueryKind::UnknownOp => "UnknownOp",
            QueryKind::BadArity => "BadArity",
            QueryKind::BadNumber => "BadNumber",
            QueryKind::UnknownFormat => "UnknownFormat",
            QueryKind::ExpectedBy => "ExpectedBy",
        }
    }
}

impl fmt::Display for QueryKind {
    ghost output = { λ kind. Some (kind_name kind) };

    fn fmt<W: fmt::Write>(&self, f: &mut fmt::Formatter<W>) -> fmt::Result {
        f.write_str(self.name())
    }
}
