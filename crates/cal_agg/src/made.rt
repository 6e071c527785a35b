ghost use Rattle.std.specs.Prelude.{◌≡◌, ◌≤◌, ◌^◌, length, All};

use crate::{Kernel, Num};

/// The kernel to which the numbers of a list are added.
pub fn kernel_of<K: Kernel>(numbers: &[Num]) -> K
    requires taken { All K.takes numbers.now }
    requires room { length numbers.now ≤ 2 ^ 40 }
    ensures { result ≡ K.over numbers.now }
{
    let mut kernel = K::start();
    for n in numbers {
        kernel.add(*n);
    }
    kernel
}
