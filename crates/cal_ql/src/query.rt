use crate::names::{Format, KernelName, Op};
use cal_value::{Seq, Text};

/// A query, as a CalQL text means it. Without FORMAT the format is expand.
#[derive(Debug, PartialEq, Eq, Drop)]
pub struct Query {
    pub lets: Seq<Let>,
    /// What SELECT lists. None where there is no SELECT, and for `*`.
    pub select: Option<Seq<Item>>,
    /// The kernels of SELECT, then those of AGGREGATE, each result name once.
    pub aggs: Seq<Agg>,
    pub conds: Seq<Cond>,
    pub group: Option<Seq<Text>>,
    pub order: Seq<OrderKey>,
    pub format: Format,
}

/// A definition of LET. Where no number is given, `n` is 1.
#[derive(Debug, PartialEq, Eq, Drop)]
pub struct Let {
    pub name: Text,
    pub op: Op,
    pub args: Seq<Text>,
    pub n: i64,
}

/// What SELECT lists: a column's name and its header. A kernel's item has its result name in both.
#[derive(Debug, PartialEq, Eq, Drop)]
pub struct Item {
    pub name: Text,
    pub header: Text,
}

/// A kernel over the numbers of an attribute, and the name of its result. `count` has no attribute.
#[derive(Debug, PartialEq, Eq, Drop)]
pub struct Agg {
    pub kernel: KernelName,
    pub attr: Text,
    pub name: Text,
}

/// A condition of WHERE.
#[derive(Debug, PartialEq, Eq, Drop)]
pub struct Cond {
    pub not: bool,
    pub name: Text,
    pub test: Test,
}

/// What a condition asks of the entries of its name: that there is one, or how a value compares.
#[derive(Debug, PartialEq, Eq, Drop)]
pub enum Test {
    Has,
    Eq(Text),
    Lt(Text),
    Gt(Text),
    Le(Text),
    Ge(Text),
}

/// A key of ORDER BY, upwards or downwards.
#[derive(Debug, PartialEq, Eq, Drop)]
pub struct OrderKey {
    pub name: Text,
    pub down: bool,
}
