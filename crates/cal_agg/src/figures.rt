//! The figures of numbers of one kind.
ghost use Rattle.std.specs.Prelude.{◌≡◌, ◌+ℤ◌};
ghost use Rattle.std.specs.Option.{ForSome};
ghost use Rattle.cal_agg.specs.Figures.{both_figures, figures_of, joined_figures};
ghost use Rattle.cal_agg.specs.Figures.{greatest_in, least_in, total_in};
ghost use Rattle.cal_agg.specs.Numbers.{IsWithin};
ghost use Rattle.cal_agg.specs.Results.{both};

/// What numbers of one kind come to, all whole or all fixed: their sum, and their ends.
#[derive(Clone, Copy, Debug)]
pub(crate) struct Figures {
    pub(crate) total: i128,
    pub(crate) least: i128,
    pub(crate) greatest: i128,
}

impl Figures {
    /// Those of one number.
    pub(crate) fn of(number: i128) -> Figures
        ensures { result ≡ figures_of number }
    {
        Figures {
            total: number,
            least: number,
            greatest: number,
        }
    }

    /// Those of both together.
    fn with(self, other: Figures) -> Figures
        requires { IsWithin 126 (self.total +ℤ other.total) }
        ensures { result ≡ joined_figures self other }
    {
        Figures {
            total: sum(self.total, other.total),
            least: self.least.min(other.least),
            greatest: self.greatest.max(other.greatest),
        }
    }
}

/// The sum of two numbers, where it is small.
fn sum(one: i128, other: i128) -> i128
    requires { IsWithin 126 (one +ℤ other) }
    ensures { result ≡ one +ℤ other }
{
    one + other
}

/// Both taken together, of which either may be missing.
pub(crate) fn joined(one: Option<Figures>, other: Option<Figures>) -> Option<Figures>
    requires { ForSome (both ◌+ℤ◌ (total_in one) (total_in other)) (IsWithin 126) }
    ensures { result ≡ both_figures one other }
{
    match (one, other) {
        (Some(one), Some(other)) => Some(one.with(other)),
        (Some(one), None) => Some(one),
        (None, other) => other,
    }
}

/// The sum, where there is a number.
pub(crate) fn total(figures: Option<Figures>) -> Option<i128>
    ensures { result ≡ total_in figures }
{
    match figures {
        Some(figures) => Some(figures.total),
        None => None,
    }
}

/// The least, where there is a number.
pub(crate) fn least(figures: Option<Figures>) -> Option<i128>
    ensures { result ≡ least_in figures }
{
    match figures {
        Some(figures) => Some(figures.least),
        None => None,
    }
}

/// The greatest, where there is a number.
pub(crate) fn greatest(figures: Option<Figures>) -> Option<i128>
    ensures { result ≡ greatest_in figures }
{
    match figures {
        Some(figures) => Some(figures.greatest),
        None => None,
    }
}
