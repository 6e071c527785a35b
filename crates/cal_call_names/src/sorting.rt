//! The order of the list: byte by byte of the names.
ghost use Rattle.std.specs.Prelude.{IsPermutation, OnOk};
ghost use Rattle.std.specs.List.{IsDistinct};
ghost use Rattle.cal_naming.specs.Naming.{same_name};
ghost use Rattle.cal_call_names.specs.Listing.{AreInOrder};

use cal_value::{Attribute, OutOfMemory};
use rayon::prelude::*;
use std::alloc::Global;
use std::thread::Threads;

/// Sorts declarations of different names by these. An `Err` leaves them in some order.
pub(crate) fn sort_by_name<R: Threads + Sync>(
    rt: &R,
    alloc: Global,
    kept: &mut [Attribute],
) -> Result<(), OutOfMemory>
    requires { IsDistinct same_name kept.old }
    ensures same { IsPermutation kept.old kept.new }
    ensures sorted { OnOk result (AreInOrder kept.new) }
{
    par_sort(rt, alloc, kept)?;
    Ok(())
}
