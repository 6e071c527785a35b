//! The law of the rows of a run.
ghost use Rattle.std.specs.Prelude.{◌≡◌, ◌+◌, length};
ghost use Rattle.cal_counts.specs.Counts.{group_count, traced_count};
ghost use Rattle.cal_records.specs.Records.{run_rows};
ghost use Rattle.cal_script.specs.declared.journal.Journal.{Journal};
ghost use Rattle.cal_script.specs.declared.script.Script.{Script};

/// The law of a run's rows: they are the snapshots in traces and the records of groups, so that
/// these are as many as the rows without those.
pub fn run_rows_law()
    ensures { (script : Script) (journal : Journal)
        → length (run_rows script journal)
        ≡ traced_count script journal + group_count script journal }
{}
