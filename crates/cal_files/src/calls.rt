//! Calls that are counted, some of which are to fail.
ghost use Rattle.std.specs.Prelude.{◌≡◌, ◌<◌, ◌^◌, ◌↔◌, IsErr, is_ok};
ghost use Rattle.cal_base.specs.Faults.{HasCause, counted_on, faults_after};
ghost use Rattle.cal_base.specs.InMemory.{NextFails};

use cal_base::Failed;
use cal_value::Seq;

/// Counts calls and faults, and knows which calls are to fail.
#[derive(Debug, Drop)]
pub(crate) struct Calls {
    pub(crate) failing: Seq<u64>,
    pub(crate) made: u64,
    pub(crate) faults: u64,
}

impl Calls {
    /// No call was made yet.
    pub(crate) fn new(failing: Seq<u64>) -> Self
        ensures { result ≡ record { failing = failing; made = 0; faults = 0 } }
    {
        Calls {
            failing,
            made: 0,
            faults: 0,
        }
    }

    /// Counts a call. It fails where its number is listed, and then counts a fault.
    pub(crate) fn begin(&mut self) -> Result<(), Failed>
        ensures listed { IsErr result ↔ NextFails self.old.failing self.old.made }
        ensures after { self.new ≡ record self.old {
          made = counted_on self.old.made;
          faults = faults_after (is_ok result) self.old.faults;
        } }
        ensures cause { HasCause self.old.faults self.new.faults result }
    {
        self.made = self.made.saturating_add(1);
        let listed = self.failing.as_slice().contains(&self.made);
        self.faults = self.faults.saturating_add(u64::from(listed));
        if listed { Err(Failed) } else { Ok(()) }
    }

    /// Counts a fault.
    pub(crate) fn fail(&mut self) -> Failed
        ensures counted { self.new ≡ record self.old { faults = counted_on self.old.faults } }
        ensures within { self.new.faults < 2 ^ 64 }
    {
        self.faults = self.faults.saturating_add(1);
        Failed
    }
}
