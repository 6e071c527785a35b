//! Runs whose text no schedule changes.
ghost use Rattle.std.specs.Prelude.{◌≤◌};

use crate::flushes::Flushes;
use crate::runs::{Left, run, script_of};
use std::alloc::Global;
use std::hash::RandomState;
use std::sync::Wait;
use std::test::Fail;
use std::thread::Threads;

/// A script, the text of its run, and how many flushes it has.
#[derive(Clone, Copy)]
struct Row {
    script: &'static str,
    text: &'static str,
    flushes: u32,
}

/// Nothing; one thread with a trace; two snapshots in one group, flushed again and again; and four
/// threads that flush one profile.
const ROWS: [Row; 4] = [
    Row {
        script: "",
        text: "",
        flushes: 0,
    },
    Row {
        script: "attribute function string 276\nchannel t trace\nthread\nbegin function main\n\
            snapshot\nend function\n",
        text: "__rec=node,id=12,attr=10,data=276,parent=3\n\
            __rec=node,id=13,attr=8,data=function,parent=12\n\
            __rec=node,id=14,attr=13,data=main\n__rec=ctx,ref=14\n",
        flushes: 0,
    },
    Row {
        script: "attribute function string 276\nchannel p aggregate\nthread\nflush p\n\
            begin function main\nsnapshot\nsnapshot\nflush p\nflush p\nend function\nflush p\n",
        text: "__rec=node,id=12,attr=10,data=276,parent=3\n\
            __rec=node,id=13,attr=8,data=function,parent=12\n\
            __rec=node,id=14,attr=13,data=main\n\
            __rec=node,id=15,attr=10,data=65,parent=1\n\
            __rec=node,id=16,attr=8,data=count,parent=15\n\
            __rec=ctx,ref=14,attr=16,data=2\n",
        flushes: 4,
    },
    Row {
        script: FOUR,
        text: PROFILE,
        flushes: 4,
    },
];

/// Four threads of the same lines, with every event a snapshot.
const FOUR: &str = "attribute function string 276\nattribute loop string 276\n\
    attribute iteration int 21\nchannel profile event,timer,aggregate\n\
    thread\nbegin function main\ntick 10\nbegin loop steps\nset iteration 0\ntick 5\n\
    begin function solve\ntick 20\nend function\nset iteration 1\ntick 5\n\
    begin function solve\ntick 30\nend function\nend loop\ntick 2\nend function\n\
    flush profile\n\
    thread\nbegin function main\ntick 10\nbegin loop steps\nset iteration 0\ntick 5\n\
    begin function solve\ntick 20\nend function\nset iteration 1\ntick 5\n\
    begin function solve\ntick 30\nend function\nend loop\ntick 2\nend function\n\
    flush profile\n\
    thread\nbegin function main\ntick 10\nbegin loop steps\nset iteration 0\ntick 5\n\
    begin function solve\ntick 20\nend function\nset iteration 1\ntick 5\n\
    begin function solve\ntick 30\nend function\nend loop\ntick 2\nend function\n\
    flush profile\n\
    thread\nbegin function main\ntick 10\nbegin loop steps\nset iteration 0\ntick 5\n\
    begin function solve\ntick 20\nend function\nset iteration 1\ntick 5\n\
    begin function solve\ntick 30\nend function\nend loop\ntick 2\nend function\n\
    flush profile\n";

/// Their profile.
const PROFILE: &str = "__rec=node,id=12,attr=10,data=65,parent=1\n\
    __rec=node,id=13,attr=8,data=count,parent=12\n\
    __rec=node,id=14,attr=8,data=sum#time.duration.ns,parent=12\n\
    __rec=node,id=15,attr=8,data=min#time.duration.ns,parent=12\n\
    __rec=node,id=16,attr=8,data=max#time.duration.ns,parent=12\n\
    __rec=ctx,attr=13=14=15=16,data=4=0=0=0\n\
    __rec=node,id=17,attr=10,data=276,parent=3\n\
    __rec=node,id=18,attr=8,data=function,parent=17\n\
    __rec=node,id=19,attr=18,data=main\n\
    __rec=ctx,ref=19,attr=13=14=15=16,data=8=48=2=10\n\
    __rec=node,id=20,attr=8,data=loop,parent=17\n\
    __rec=node,id=21,attr=20,data=steps,parent=19\n\
    __rec=ctx,ref=21,attr=13=14=15=16,data=20=40=0=5\n\
    __rec=node,id=22,attr=18,data=solve,parent=21\n\
    __rec=ctx,ref=22,attr=13=14=15=16,data=8=200=20=30\n";

fn rows() -> &'static [Row] {
    &ROWS
}

/// Whether a run left what its row says: all flushes came through, and none met another's turn.
fn is_left(left: &Left, row: &Row) -> bool {
    let wanted = Flushes {
        merged: row.flushes,
        busy: 0,
    };
    left.text.as_str() == row.text && left.flushes == wanted
}

/// Whether a run of the row's script with so much room leaves it.
fn holds<R: Threads + Wait + Sync>(
    rt: &R,
    alloc: Global,
    hashers: RandomState,
    row: &Row,
    room: u32,
) -> Result<bool, Fail>
    requires { (1 ≤ room) × (room ≤ 1024) }
{
    let script = script_of(alloc, row.script)?;
    let left = run(rt, alloc, hashers, &script, room);
    drop(script);
    match left {
        Some(left) => Ok(is_left(&left, row)),
        None => Ok(false),
    }
}

#[test]
fn runs_with_room_for_one_part_have_their_rows(rt: HostRuntime) -> Result<(), Fail> {
    let hashers = RandomState::new(&rt)?;
    for (place, row) in rows().iter().enumerate() {
        let held = holds(&rt, rt.alloc(), hashers, row, 1)?;
        assert!(rt; held, "row {place}");
    }
    Ok(())
}

#[test]
fn runs_with_room_for_many_have_them_too(rt: HostRuntime) -> Result<(), Fail> {
    let hashers = RandomState::new(&rt)?;
    for (place, row) in rows().iter().enumerate() {
        let held = holds(&rt, rt.alloc(), hashers, row, 1024)?;
        assert!(rt; held, "row {place}");
    }
    Ok(())
}
