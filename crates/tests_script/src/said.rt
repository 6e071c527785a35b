use crate::drawn::fault_of;
use cal_script::{
    Line, ProbeKind, Script, ScriptKind, Ticks, meaning_law, read_script, read_script_seeded,
};
use cal_seeds::Seeds;
use cal_value::{Kind, OutOfMemory, Props, Variant};
use std::alloc::Global;

const WHOLE: &str = "attribute f string 276\nattribute h string 512\nglobal h n\\n1\n\
    channel t region.count,trace,event,region.depth\nchannel p timer,aggregate\nkey path f\n\
    thread\nbegin f main\nset f  a b\nend f\nsnapshot\nflush p\ntick 007\nthread\n";

fn has_lines(script: &Script) -> bool {
    let lines = [
        Line::Begin { attr: 0, value: 0 },
        Line::Set { attr: 0, value: 1 },
        Line::End { attr: 0 },
        Line::Snapshot,
        Line::Flush { channel: 1 },
        Line::Tick { n: Ticks::new(7) },
    ];
    let [first, second] = script.threads.as_slice() else {
        return false;
    };
    first.as_slice() == lines.as_slice() && second.is_empty()
}

fn has_values(script: &Script) -> bool {
    let Some(Variant::Text(text)) = script.values.get(1) else {
        return false;
    };
    script.values.len() == 2 && text.as_str() == " a b"
}

fn has_attribute(script: &Script) -> bool {
    let Some(attribute) = script.attributes.get(0) else {
        return false;
    };
    attribute.name.as_str() == "f" && attribute.kind == Kind::Str && attribute.props == Props(276)
}

fn has_global(script: &Script) -> bool {
    let Some(global) = script.globals.get(0) else {
        return false;
    };
    let Variant::Text(text) = &global.value else {
        return false;
    };
    global.attr.name.as_str() == "h" && text.as_str() == "n\n1"
}

fn has_trace(script: &Script) -> bool {
    let Some(trace) = script.channels.get(0) else {
        return false;
    };
    trace.event
        && trace.trace
        && !trace.timer
        && !trace.aggregate
        && trace.probes.as_slice() == [ProbeKind::Count, ProbeKind::Depth].as_slice()
        && trace.query.by_default
        && trace.query.values.is_empty()
}

fn has_profile(script: &Script) -> bool {
    let Some(profile) = script.channels.get(1) else {
        return false;
    };
    let Some(value) = profile.query.values.get(0) else {
        return false;
    };
    !profile.query.by_default
        && profile.query.keys.len() == 2
        && value.as_str() == "time.duration.ns"
}

/// Whether bytes are the script above, which is plain data.
fn says_whole(alloc: Global) -> bool {
    match read_script(alloc, WHOLE.as_bytes()) {
        Ok(script) => is_whole(&script),
        Err(_) => false,
    }
}

fn is_whole(script: &Script) -> bool {
    has_lines(script)
        && has_values(script)
        && has_attribute(script)
        && has_global(script)
        && has_trace(script)
        && has_profile(script)
}

/// The same by other seeds.
fn says_whole_by(alloc: Global, seeds: Seeds) -> bool {
    match read_script_seeded(alloc, seeds, WHOLE.as_bytes()) {
        Ok(script) => is_whole(&script),
        Err(_) => false,
    }
}

#[test]
fn a_script_is_plain_data(rt: HostRuntime) {
    meaning_law();
    assert!(rt; says_whole(rt.alloc()));
}

#[test]
fn other_seeds_give_the_same_script(rt: HostRuntime) {
    let others = Seeds {
        start: 5,
        factor: 7,
    };
    assert!(rt; says_whole_by(rt.alloc(), others));
}

/// Kinds, values, and whether each is one of its kind.
const VALUES: [(&str, &str, bool); 16] = [
    ("int", "-9223372036854775808", true),
    ("int", "9223372036854775807", true),
    ("int", "-9223372036854775809", false),
    ("int", "9223372036854775808", false),
    ("int", "", false),
    ("uint", "18446744073709551615", true),
    ("uint", "18446744073709551616", false),
    ("addr", "0xFFFFFFFFFFFFFFFF", true),
    ("addr", "0x", false),
    ("bool", "true", true),
    ("bool", "yes", false),
    ("double", "9223372036.854775807", true),
    ("double", "9223372036.854775808", false),
    ("double", "77371252455336267.181195265", true),
    ("double", "", true),
    ("string", "", true),
];

fn values() -> &'static [(&'static str, &'static str, bool)] {
    &VALUES
}

fn fault_of_value(
    alloc: Global,
    kind: &str,
    value: &str,
) -> Result<Option<(u64, ScriptKind)>, OutOfMemory> {
    let text = format!(in alloc; "attribute a {kind} 0\nthread\nset a {value}\n")?;
    fault_of(alloc, text.as_bytes())
}

fn wrong_value(alloc: Global) -> Result<Option<usize>, OutOfMemory> {
    let rows = values();
    for row in 0..rows.len() {
        let (kind, value, fine) = rows[row];
        let wanted = (!fine).then_some((3, ScriptKind::BadValue));
        if fault_of_value(alloc, kind, value)? != wanted {
            return Ok(Some(row));
        }
    }
    Ok(None)
}

#[test]
fn values_are_of_their_kinds(rt: HostRuntime) {
    assert_eq!(rt; wrong_value(rt.alloc()), Ok(None), "the first wrong row");
}
