ghost use Rattle.std.specs.Prelude.{ℕ, ◌*◌, ◌≤◌};
ghost use Rattle.cal_gen.specs.Generated.{generated};
ghost use Rattle.cal_gen.specs.Texts.{IsScriptText};

/// The law of generated scripts: what `generate` makes is a valid script, with at most 64 threads
/// and 1,048,576 lines in all.
pub fn generated_script_law()
    ensures { (seed threads lines : ℕ) → threads ≤ 64 → threads * lines ≤ 1048576
        → IsScriptText (generated seed threads lines) }
{}
