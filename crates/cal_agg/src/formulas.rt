ghost use Rattle.std.specs.Prelude.{◌≡◌, List, length, None, Some, if◌then◌else◌};
ghost use Rattle.cal_agg.specs.declared.num.Num.{Num as Number};
ghost use Rattle.cal_agg.specs.Numbers.{IsWithin, measure};
ghost use Rattle.cal_agg.specs.Parts.{AreWithin, sum_over};
ghost use Rattle.cal_agg.specs.Results.{average_of, is_kept, percent, percent_total_of};

use crate::parts::{MOST, NANO};
use crate::{Kernel, Num, Sum};

/// `avg`: a sum divided by the number of its contributions, rounded towards 0.
pub fn average(sum: &Sum, contributions: u64) -> Option<Num>
    ensures { (ns : List Number) → sum.now ≡ sum_over ns → contributions ≡ length ns
        → result ≡ average_of ns }
{
    if contributions == 0 {
        return None;
    }
    Some(match sum.value()? {
        Num::Whole(whole) => Num::Whole(whole / contributions as i128),
        Num::Fixed(fixed) => Num::Fixed(fixed / contributions as i128),
    })
}

/// `percent_total`: a group's sum as a percentage of the sum of all groups, rounded towards 0.
pub fn percent_total(group: &Sum, all: &Sum) -> Option<Num>
    requires { AreWithin 118 group.now }
    ensures { (ns ms : List Number) → group.now ≡ sum_over ns → all.now ≡ sum_over ms
        → result ≡ percent_total_of ns ms }
{
    match (group.value()?, all.value()?) {
        (Num::Whole(group), Num::Whole(all)) => percentage(group, all),
        (group, all) => percentage(kept_measure(group)?, kept_measure(all)?),
    }
}

/// 100 * s / t, rounded towards 0, where t isn't 0.
fn percentage(s: i128, t: i128) -> Option<Num>
    requires { IsWithin 118 s }
    ensures { result ≡ percent s t }
{
    if t == 0 {
        None
    } else {
        Some(Num::Whole(100 * s / t))
    }
}

/// A number in nano-units, where it isn't too large for a fixed result.
fn kept_measure(n: Num) -> Option<i128>
    ensures { result ≡ (if is_kept (measure n) then Some (measure n) else None) }
{
    let measure = match n {
        Num::Whole(whole) => NANO.checked_mul(whole)?,
        Num::Fixed(fixed) => fixed,
    };
    if measure.unsigned_abs() <= MOST {
        Some(measure)
    } else {
        None
    }
}
