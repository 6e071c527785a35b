//! The journal that a run used.
ghost use Rattle.std.specs.Prelude.{◌≡◌, IfOk};
ghost use Rattle.cal_run.specs.Plain.{plain};
ghost use Rattle.cal_script.specs.Valid.{IsRunnable};
ghost use Rattle.cal_call.specs.Used.{CanBeMade, journal_of};

use cal_run::plain_journal;
use cal_script::{Journal, Script};
use cal_value::OutOfMemory;
use std::alloc::Global;
use std::marker::Model;

/// The journal that a run used. That of the threads one after another is only made where it is
/// asked for: what it says follows from the script.
#[derive(Debug, Drop)]
pub struct UsedJournal {
    kept: Kept,
}

/// What is kept of a journal: itself, or the script whose plain journal it is.
#[derive(Debug, Drop)]
enum Kept {
    Given(Journal),
    Plain(Script),
}

impl Model for UsedJournal {
    ghost use Rattle.cal_script.specs.declared.journal.Journal.{Journal};
    ghost use Rattle.cal_call.specs.Used.{CanBeMade, journal_of};

    ghost Value = { Journal };

    ghost view = { λ u. journal_of u.kept };

    ghost invariant = { λ u. CanBeMade u.kept };
}

impl UsedJournal {
    /// A journal that is there.
    pub fn given(journal: Journal) -> Self
        ensures { result ≡ journal }
    {
        UsedJournal {
            kept: Kept::Given(journal),
        }
    }

    /// The journal of a script's threads one after another.
    pub fn plain(script: Script) -> Self
        requires { IsRunnable script }
        ensures { result ≡ plain script }
    {
        UsedJournal {
            kept: Kept::Plain(script),
        }
    }

    /// The journal itself.
    pub fn into_journal(self, alloc: Global) -> Result<Journal, OutOfMemory>
        ensures { IfOk result (λ journal. journal ≡ self) }
    {
        match self.kept {
            Kept::Given(journal) => Ok(journal),
            Kept::Plain(script) => plain_journal(alloc, &script),
        }
    }
}
