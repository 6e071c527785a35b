//! How two values are to stand.
ghost use Rattle.std.specs.Prelude.{◌≡◌};
ghost use Rattle.cal_filter.specs.Sought.{stands};

use std::cmp::Ordering;

/// How a value is to stand to another.
#[derive(Clone, Copy, Debug)]
pub(crate) enum Relation {
    Equal,
    Less,
    Greater,
    AtMost,
    AtLeast,
}

impl Relation {
    /// Whether two values whose order is this one stand so.
    pub(crate) fn holds(self, ordering: Ordering) -> bool
        ensures { result ≡ stands self ordering }
    {
        match self {
            Relation::Equal => ordering.is_eq(),
            Relation::Less => ordering.is_lt(),
            Relation::Greater => ordering.is_gt(),
            Relation::AtMost => ordering.is_le(),
            Relation::AtLeast => ordering.is_ge(),
        }
    }
}
