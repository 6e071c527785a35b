//! Runs whose text no schedule changes.

use crate::runs::{run, script_of};
use cal_base::OpenGate;
use std::alloc::Global;
use std::hash::RandomState;
use std::test::Fail;
use std::thread::Threads;

/// A script, and the text of its run.
struct Row {
    script: &'static str,
    text: &'static str,
}

/// Nothing; an attribute alone; one thread with a trace; and four threads that flush into one
/// profile whenever it comes.
const ROWS: [Row; 4] = [
    Row {
        script: "",
        text: "",
    },
    Row {
        script: "attribute function string 276\n",
        text: "",
    },
    Row {
        script: "attribute function string 276\nchannel t trace\nthread\nbegin function main\n\
            snapshot\nend function\n",
        text: "__rec=node,id=12,attr=10,data=276,parent=3\n\
            __rec=node,id=13,attr=8,data=function,parent=12\n\
            __rec=node,id=14,attr=13,data=main\n__rec=ctx,ref=14\n",
    },
    Row {
        script: FOUR,
        text: PROFILE,
    },
];

/// Four threads of the same lines, with every event a snapshot.
const FOUR: &str = "attribute function string 276\nattribute loop string 276\n\
    attribute iteration int 21\nchannel profile event,timer,aggregate\n\
    thread\nbegin function main\ntick 10\nbegin loop steps\nset iteration 0\ntick 5\n\
    begin function solve\ntick 20\nend function\nset iteration 1\ntick 5\n\
    begin function solve\ntick 30\nend function\nend loop\ntick 2\nend function\n\
    flush profile\n\
    thread\nbegin function main\ntick 10\nbegin loop steps\nset iteration 0\ntick 5\n\
    begin function solve\ntick 20\nend function\nset iteration 1\ntick 5\n\
    begin function solve\ntick 30\nend function\nend loop\ntick 2\nend function\n\
    flush profile\n\
    thread\nbegin function main\ntick 10\nbegin loop steps\nset iteration 0\ntick 5\n\
    begin function solve\ntick 20\nend function\nset iteration 1\ntick 5\n\
    begin function solve\ntick 30\nend function\nend loop\ntick 2\nend function\n\
    flush profile\n\
    thread\nbegin function main\ntick 10\nbegin loop steps\nset iteration 0\ntick 5\n\
    begin function solve\ntick 20\nend function\nset iteration 1\ntick 5\n\
    begin function solve\ntick 30\nend function\nend loop\ntick 2\nend function\n\
    flush profile\n";

/// Their profile.
const PROFILE: &str = "__rec=node,id=12,attr=10,data=65,parent=1\n\
    __rec=node,id=13,attr=8,data=count,parent=12\n\
    __rec=node,id=14,attr=8,data=sum#time.duration.ns,parent=12\n\
    __rec=node,id=15,attr=8,data=min#time.duration.ns,parent=12\n\
    __rec=node,id=16,attr=8,data=max#time.duration.ns,parent=12\n\
    __rec=ctx,attr=13=14=15=16,data=4=0=0=0\n\
    __rec=node,id=17,attr=10,data=276,parent=3\n\
    __rec=node,id=18,attr=8,data=function,parent=17\n\
    __rec=node,id=19,attr=18,data=main\n\
    __rec=ctx,ref=19,attr=13=14=15=16,data=8=48=2=10\n\
    __rec=node,id=20,attr=8,data=loop,parent=17\n\
    __rec=node,id=21,attr=20,data=steps,parent=19\n\
    __rec=ctx,ref=21,attr=13=14=15=16,data=20=40=0=5\n\
    __rec=node,id=22,attr=18,data=solve,parent=21\n\
    __rec=ctx,ref=22,attr=13=14=15=16,data=8=200=20=30\n";

fn rows() -> &'static [Row] {
    &ROWS
}

/// Whether a run of the script has the text.
fn holds<R: Threads + Sync>(
    rt: &R,
    alloc: Global,
    hashers: RandomState,
    row: &Row,
) -> Result<bool, Fail> {
    let script = script_of(alloc, row.script)?;
    let ran = run(rt, alloc, hashers, &script, &OpenGate);
    drop(script);
    match ran {
        Some(replayed) => Ok(replayed.text.as_str() == row.text),
        None => Ok(false),
    }
}

#[test]
fn each_script_has_its_text_in_every_run(rt: HostRuntime) -> Result<(), Fail> {
    let hashers = RandomState::new(&rt)?;
    let mut all = true;
    for row in rows() {
        let held = holds(&rt, rt.alloc(), hashers, row)?;
        all = all && held;
    }
    assert!(rt; all);
    Ok(())
}
