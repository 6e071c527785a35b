//! Of which senders the last message came.
ghost use Rattle.std.specs.Prelude.{◌≡◌, ◌<◌, true, false, IfOk, All, length, replicate, slice_set};

use cal_value::OutOfMemory;
use std::alloc::Global;

/// Of which senders the last message came, by their numbers, and whether it came of all.
#[derive(Drop)]
pub(crate) struct Last {
    pub(crate) came: Vec<bool>,
    pub(crate) of_all: bool,
    ghost of_all_is: { of_all ≡ true → All (λ one. one ≡ true) came.items },
}

impl Last {
    /// None came of so many senders yet. It takes memory.
    pub fn new(alloc: Global, senders: u32) -> Result<Last, OutOfMemory>
        ensures { IfOk result (λ last. last.came.items ≡ replicate senders false) }
    {
        let came = vec![in alloc; false; senders as usize]?;
        Ok(Last {
            came,
            of_all: senders == 0,
        })
    }

    /// It came of this sender.
    pub fn note(&mut self, sender: usize)
        requires { sender < length self.old.came.items }
        ensures { self.new.came.items ≡ slice_set self.old.came.items sender true }
    {
        self.came[sender] = true;
        self.of_all = self.came.iter().all(|one| *one);
    }
}
