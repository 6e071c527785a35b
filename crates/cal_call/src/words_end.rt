//! A command line whose words can't be had.
ghost use Rattle.std.specs.Prelude.{◌≡◌};
ghost use Rattle.cal_call.specs.Ends.{fault_of};

use crate::Fault;

/// Why the words of a command line can't be had.
#[derive(Clone, Copy, Debug, PartialEq, Eq)]
pub enum WordsEnd {
    /// The system can't give them as text.
    NotText,
    OutOfMemory,
}

impl WordsEnd {
    /// What is answered then: words that are no text break the word rule at the first.
    pub(crate) fn fault(self) -> Fault
        ensures { result ≡ fault_of self }
    {
        match self {
            WordsEnd::NotText => Fault::Usage { word: 0 },
            WordsEnd::OutOfMemory => Fault::OutOfMemory,
        }
    }
}
