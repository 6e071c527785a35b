//! What `--help` and `--version` tell.
ghost use Rattle.std.specs.Prelude.{◌≡◌, map, string_bytes};
ghost use Rattle.std.specs.Option.{option_copied};
ghost use Rattle.cal_call.specs.Words.{told_about};

/// What `--help` tells.
pub const HELP: &str = "\
caliper: runs annotation scripts and queries their .cali streams, in whole numbers

usage: caliper COMMAND < INPUT > OUTPUT

    serial      reads a script and a journal behind it, or none, and writes the .cali text of the
                run; without a journal its threads run one after another
    replay [--clock=script|real]
                reads a script, runs each of its threads as a thread, and writes the .cali text of
                the run; what its threads saw of one another may differ from run to run. Time is
                what the script's tick lines say, or with real what the machine's clock shows
    journal [--clock=script|real]
                the same, and writes the run's journal, by which serial writes that run again
    live [--clock=script|real] [--room=N]
                as replay, but what a thread flushes goes through a mailbox with room for N parts (1
                to 1024, else 16) to one thread more, which merges them while the others run. So no
                flush is busy. Where no thread can be made it may wait without end
    query [--q=TEXT] [--globals=off|join]
                reads a .cali stream, and writes the answer of the query TEXT over its rows, a line
                for each; with join the globals stand at the end of each row that the query sees
    watch --trigger=main|slow [--q=TEXT]
                the same over those rows that a stored trigger lets through: main those with
                function=main, slow those with time.duration.ns>=1000, as they were read
    files --in=NAME [--in=NAME ..] [--q=TEXT]
                reads up to 64 .cali streams, one for each process of a run, each from the file of
                its name, folds them side by side, and writes the answer of the query TEXT over the
                rows of all, in the order of the files
    names       reads what threads declare, has a thread for each declare its names, and writes
                what stands for each name, in byte order: the first declaration of it that came
    gen --seed=N --threads=N --lines=N [--print=script|summary]
                writes the script of a seed, with so many threads of so many lines, to try a program
                on, or with summary how large its run is; it reads no input. At most 64 threads and
                1048576 lines in all
    --help      this text
    --version   the version, and what it is proved with

A fault is told on standard error, and by the status. In the repository docs/GUIDE.md is the guide;
docs/FORMATS.md has the scripts, the journals, the streams and the faults, docs/RUNS.md the runs,
docs/CALQL.md the queries.
";

/// What `--version` tells: the version, and the logic by which the proofs were checked. Kits of the
/// toolchain with other names may share it.
pub const VERSION: &str = "\
caliper 0.1.0
proved with Rattle, logic dac8208d650f15bf
";

/// The text for people that the only word asks for, if it asks for one.
pub fn about(words: &[String]) -> Option<&'static str>
    ensures { option_copied result
        ≡ told_about HELP.now VERSION.now (map string_bytes words.now) }
{
    let [word] = words else {
        return None;
    };
    if word.as_str() == "--help" {
        return Some(HELP);
    }
    if word.as_str() == "--version" {
        return Some(VERSION);
    }
    None
}
