ghost use Rattle.cal_script.specs.declared.script.Script.{Script};
ghost use Rattle.cal_script.specs.Reading.{IsValidScript};
ghost use Rattle.cal_script.specs.Valid.{IsRunnable};

/// The law of valid scripts: each of them can be run without a test.
pub fn valid_script_law()
    ensures { (script : Script) → IsValidScript script → IsRunnable script }
{}
