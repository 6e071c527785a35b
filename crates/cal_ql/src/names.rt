ghost use Rattle.std.specs.Prelude.{◌≡◌};
ghost use Rattle.cal_ql.specs.Names.{format_named, kernel_named, op_named};

/// The operators of LET.
#[derive(Clone, Copy, Debug, PartialEq, Eq)]
pub enum Op {
    Truncate,
    Scale,
    Ratio,
    First,
    Sum,
}

/// The kernels of SELECT and AGGREGATE.
#[derive(Clone, Copy, Debug, PartialEq, Eq)]
pub enum KernelName {
    Count,
    Sum,
    Min,
    Max,
    Avg,
    Inclusive,
    Percent,
}

/// The layouts of FORMAT.
#[derive(Clone, Copy, Debug, PartialEq, Eq)]
pub enum Format {
    Table,
    Tree,
    Json,
    Expand,
}

impl Op {
    /// The operator of this name, in lower case.
    pub fn from_name(name: &str) -> Option<Op>
        ensures { result ≡ op_named name.now }
    {
        match name {
            "truncate" => Some(Op::Truncate),
            "scale" => Some(Op::Scale),
            "ratio" => Some(Op::Ratio),
            "first" => Some(Op::First),
            "sum" => Some(Op::Sum),
            _ => None,
        }
    }
}

impl KernelName {
    /// The kernel of this name, in lower case.
    pub fn from_name(name: &str) -> Option<KernelName>
        ensures { result ≡ kernel_named name.now }
    {
        match name {
            "count" => Some(KernelName::Count),
            "sum" => Some(KernelName::Sum),
            "min" => Some(KernelName::Min),
            "max" => Some(KernelName::Max),
            "avg" => Some(KernelName::Avg),
            "inclusive_sum" => Some(KernelName::Inclusive),
            "percent_total" => Some(KernelName::Percent),
            _ => None,
        }
    }
}

impl Format {
    /// The format of this name, in lower case.
    pub fn from_name(name: &str) -> Option<Format>
        ensures { result ≡ format_named name.now }
    {
        match name {
            "table" => Some(Format::Table),
            "tree" => Some(Format::Tree),
            "json" => Some(Format::Json),
            "expand" => Some(Format::Expand),
            _ => None,
        }
    }
}
