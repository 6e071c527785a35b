ghost use Rattle.std.specs.Prelude.{◌≡◌, IfOk};

use crate::OutOfMemory;
use std::alloc::Global;

/// A value that can be copied, where memory is there for the copy.
pub trait TryCopy: Sized + Drop {
    /// The same value again. It takes memory and time in the size of the value.
    fn copy(&self, alloc: Global) -> Result<Self, OutOfMemory>
        ensures { IfOk result (λ copied. copied ≡ self.now) };
}
