//! Laws of threads that have ended. Nothing here is ever run.
ghost use Rattle.std.specs.Prelude.{◌≡◌, All, List, length};
ghost use Rattle.cal_ending.specs.Joining.{AreInOrder};
ghost use Rattle.cal_finish.specs.Ended.{HaveAllEnded, HaveAllRun, journal_of, notes_of};
ghost use Rattle.cal_finish.specs.Ended.{threads_of};
ghost use Rattle.cal_finish.specs.Threads.{IsWholeFor};
ghost use Rattle.cal_keeping.specs.declared.runner.Runner.{Runner};
ghost use Rattle.cal_replay.specs.Workers.{IsShared, script_of};
ghost use Rattle.cal_replay.specs.declared.shared.Shared.{Shared};
ghost use Rattle.cal_run.specs.Lawful.{IsKnown, Lawful};
ghost use Rattle.cal_script.specs.declared.journal.Journal.{Journal};
ghost use Rattle.cal_script.specs.declared.journal.Placed.{Placed};
ghost use Rattle.cal_thread.specs.Threads.{HasSomeState};

use cal_keeping::PartHand;

/// The law of a run: once all threads have ended, their notes with the whole history are a lawful
/// journal of the script.
pub fn lawful_run_law<P, H: PartHand>()
    ensures { (shared : Shared) (runners : List (Runner P H)) (history : List Placed)
        → IsShared shared → HaveAllEnded H.account H.takes shared runners history
        → Lawful (script_of shared) (journal_of shared runners history) }
{}

/// The law of runners that have run: their threads are what `end_threads` asks for.
pub fn ended_threads_law<P, H: PartHand>()
    ensures many { (shared : Shared) (runners : List (Runner P H))
        → HaveAllRun H.account H.takes shared runners
        → length (threads_of runners) ≡ length (script_of shared).threads }
    ensures states { (shared : Shared) (runners : List (Runner P H))
        → HaveAllRun H.account H.takes shared runners
        → All (HasSomeState shared.common) (threads_of runners) }
    ensures order { (shared : Shared) (runners : List (Runner P H))
        → HaveAllRun H.account H.takes shared runners
        → AreInOrder (threads_of runners) }
{}

/// The law of runners that have ended. Once all have run, with a history that is whole for their
/// threads they have all ended; and a journal of this history, with their notes, is lawful.
pub fn ended_runners_law<P, H: PartHand>()
    ensures ended { (shared : Shared) (runners : List (Runner P H)) (history : List Placed)
        → HaveAllRun H.account H.takes shared runners → All (IsKnown (script_of shared)) history
        → IsWholeFor shared.common (threads_of runners) history
        → HaveAllEnded H.account H.takes shared runners history }
    ensures lawful { (shared : Shared) (runners : List (Runner P H)) (journal : Journal)
        → IsShared shared → HaveAllEnded H.account H.takes shared runners journal.ops
        → journal.real ≡ shared.real → journal.threads ≡ notes_of runners
        → Lawful (script_of shared) journal }
{}
