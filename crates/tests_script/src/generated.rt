ghost use Rattle.std.specs.Prelude.{◌*◌, ◌≤◌};

use cal_gen::generate_script;
use cal_script::{Line, Script, Ticks};
use cal_value::Variant;
use std::alloc::Global;

/// The lines of two threads by the draws of seed 38.
fn has_lines(script: &Script) -> bool {
    let lines = [
        Line::Snapshot,
        Line::Tick {
            n: Ticks::new(1_099),
        },
        Line::Begin { attr: 0, value: 0 },
        Line::Snapshot,
        Line::Begin { attr: 0, value: 1 },
        Line::End { attr: 0 },
    ];
    let behind = [
        Line::Set { attr: 1, value: 2 },
        Line::Begin { attr: 0, value: 3 },
        Line::Tick {
            n: Ticks::new(7_920),
        },
        Line::Begin { attr: 0, value: 4 },
        Line::Flush { channel: 0 },
        Line::Begin { attr: 0, value: 5 },
    ];
    let [first, second] = script.threads.as_slice() else {
        return false;
    };
    first.as_slice() == lines.as_slice() && second.as_slice() == behind.as_slice()
}

fn is_name(value: Option<&Variant>, name: &str) -> bool {
    let Some(Variant::Text(text)) = value else {
        return false;
    };
    text.as_str() == name
}

fn has_values(script: &Script) -> bool {
    let values = &script.values;
    let Some(Variant::Int(number)) = values.get(2) else {
        return false;
    };
    values.len() == 6
        && is_name(values.get(0), "f4")
        && is_name(values.get(1), "f0")
        && is_name(values.get(3), "f13")
        && is_name(values.get(5), "f4")
        && *number == 716
}

/// Whether the script is that of the draws, with what its header declares.
fn is_drawn(script: &Script) -> bool {
    has_lines(script)
        && has_values(script)
        && script.attributes.len() == 2
        && script.channels.len() == 1
}

/// Whether a script of these numbers is generated, and is the wanted one.
fn generates(alloc: Global, seed: u32, threads: u32, lines: u32) -> bool
    requires threads { threads ≤ 64 }
    requires lines { threads * lines ≤ 1048576 }
{
    match generate_script(alloc, seed, threads, lines) {
        Ok(script) => is_drawn(&script),
        Err(_) => false,
    }
}

#[test]
fn a_script_is_generated_without_its_text(rt: HostRuntime) {
    assert!(rt; generates(rt.alloc(), 38, 2, 6));
}
