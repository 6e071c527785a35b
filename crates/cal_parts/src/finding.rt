ghost use Rattle.std.specs.Prelude.{◌≡◌, map};
ghost use Rattle.std.specs.List.{All};
ghost use Rattle.cal_context.specs.Snapshots.{IsIn, meaning};
ghost use Rattle.cal_filter.specs.Known.{KnowsAll, sought};
ghost use Rattle.cal_filter.specs.Sought.{number_sought as sought_among};
ghost use Rattle.cal_value.specs.Flat.{flat};
ghost use Rattle.cal_parts.specs.Counters.{IsReadyFound, IsWithin, number_at as found_at};
ghost use Rattle.cal_parts.specs.Counters.{record_of, sought_in};

use cal_agg::Num;
use cal_context::{Context, Snapshot};
use cal_filter::{Seeker, number_in};

/// The numbers that seekers find in one record, each by its seeker's place.
#[derive(Drop)]
pub(crate) struct Found<'a> {
    pub seekers: &'a [Seeker],
    pub context: &'a Context,
    pub snapshot: &'a Snapshot,
    /// The place that most kernels ask for, and what is found there.
    pub usual: usize,
    pub number: Option<Num>,
}

impl Found<'_> {
    /// What the seeker at a place finds, if there is one and it finds something.
    #[inline(always)]
    pub(crate) fn at(&self, place: usize) -> Option<Num>
        requires { IsWithin self.now }
        ensures { IsReadyFound self.now
            → result ≡ found_at (sought_in self.now) (flat (record_of self.now)) place }
    {
        if place == self.usual {
            return self.number;
        }
        number_at(self.seekers, place, self.context, self.snapshot)
    }
}

/// What the seeker at a place finds in a record.
#[inline(always)]
pub(crate) fn number_at(
    seekers: &[Seeker],
    place: usize,
    context: &Context,
    snapshot: &Snapshot,
) -> Option<Num>
    requires { IsIn context.now snapshot.now }
    ensures { All (KnowsAll context.now) seekers.now → result ≡ found_at (map sought seekers.now)
        (flat (meaning context.now snapshot.now)) place }
{
    let count = seekers.len();
    if place >= count {
        return None;
    }
    number_found(&seekers[place], context, snapshot)
}

#[inline(always)]
fn number_found(seeker: &Seeker, context: &Context, snapshot: &Snapshot) -> Option<Num>
    requires { IsIn context.now snapshot.now }
    ensures { KnowsAll context.now seeker.now → result
        ≡ sought_among (sought seeker.now) (flat (meaning context.now snapshot.now)) }
{
    number_in(seeker.find(context, snapshot)?)
}
