//! Runs whose records no schedule changes.

use crate::runs::{has_journal, has_text, run};
use crate::scripts::runnable;
use cal_whole::Ran;
use std::alloc::Global;
use std::hash::RandomState;
use std::test::Fail;
use std::thread::Threads;

/// A script, and what its run leaves: the text of its records, its journal, and how many nodes,
/// snapshots and records of groups it has.
#[derive(Clone, Copy)]
struct Row {
    script: &'static str,
    text: &'static str,
    journal: &'static str,
    nodes: u64,
    snapshots: u64,
    groups: u64,
}

/// Nothing; an attribute alone; a trace; a refused line; values that are set; two snapshots in one
/// group, flushed again and again; and values that no path holds.
const ROWS: [Row; 7] = [
    Row {
        script: "",
        text: "",
        journal: "journal script\nend\n",
        nodes: 0,
        snapshots: 0,
        groups: 0,
    },
    Row {
        script: "attribute function string 276\n",
        text: "",
        journal: "journal script\nend\n",
        nodes: 0,
        snapshots: 0,
        groups: 0,
    },
    Row {
        script: "attribute function string 276\nchannel t trace\nthread\nbegin function main\n\
            snapshot\nend function\n",
        text: "__rec=node,id=12,attr=10,data=276,parent=3\n\
            __rec=node,id=13,attr=8,data=function,parent=12\n\
            __rec=node,id=14,attr=13,data=main\n__rec=ctx,ref=14\n",
        journal: "journal script\nstart 0 -\nline 0 1 done 0 -\nline 0 2 done 0 -\n\
            line 0 3 done 0 -\nend\n",
        nodes: 1,
        snapshots: 1,
        groups: 0,
    },
    Row {
        script: "attribute function string 276\nattribute loop string 276\nchannel t trace\n\
            thread\nbegin function main\nend loop\nsnapshot\n",
        text: "__rec=node,id=12,attr=10,data=276,parent=3\n\
            __rec=node,id=13,attr=8,data=function,parent=12\n\
            __rec=node,id=14,attr=13,data=main\n__rec=ctx,ref=14\n",
        journal: "journal script\nstart 0 -\nline 0 1 done 0 -\nline 0 2 mismatch:0 0 -\n\
            line 0 3 done 0 -\nend\n",
        nodes: 1,
        snapshots: 1,
        groups: 0,
    },
    Row {
        script: "attribute function string 276\nattribute phase string 276\nchannel t trace\n\
            thread\nset phase a\nsnapshot\nset phase b\nsnapshot\nset function f\nsnapshot\n",
        text: "__rec=node,id=12,attr=10,data=276,parent=3\n\
            __rec=node,id=13,attr=8,data=phase,parent=12\n\
            __rec=node,id=14,attr=13,data=a\n__rec=ctx,ref=14\n\
            __rec=node,id=15,attr=13,data=b\n__rec=ctx,ref=15\n\
            __rec=node,id=16,attr=8,data=function,parent=12\n\
            __rec=node,id=17,attr=16,data=f,parent=15\n__rec=ctx,ref=17\n",
        journal: "journal script\nstart 0 -\nline 0 1 done 0 -\nline 0 2 done 0 -\n\
            line 0 3 done 0 -\nline 0 4 done 0 -\nline 0 5 done 0 -\nline 0 6 done 0 -\nend\n",
        nodes: 3,
        snapshots: 3,
        groups: 0,
    },
    Row {
        script: "attribute function string 276\nchannel p aggregate\nthread\nflush p\n\
            begin function main\nsnapshot\nsnapshot\nflush p\nflush p\nend function\nflush p\n",
        text: "__rec=node,id=12,attr=10,data=276,parent=3\n\
            __rec=node,id=13,attr=8,data=function,parent=12\n\
            __rec=node,id=14,attr=13,data=main\n\
            __rec=node,id=15,attr=10,data=65,parent=1\n\
            __rec=node,id=16,attr=8,data=count,parent=15\n\
            __rec=ctx,ref=14,attr=16,data=2\n",
        journal: "journal script\nstart 0 -\nline 0 1 merged 0 -\nline 0 2 done 0 -\n\
            line 0 3 done 0 -\nline 0 4 done 0 -\nline 0 5 merged 0 -\nline 0 6 merged 0 -\n\
            line 0 7 done 0 -\nline 0 8 merged 0 -\nend\n",
        nodes: 1,
        snapshots: 2,
        groups: 1,
    },
    Row {
        script: "attribute lo int 21\nattribute hi uint 21\nchannel p aggregate\nvalue lo hi\n\
            thread\nset lo -9223372036854775808\nset hi 18446744073709551615\nsnapshot\n\
            snapshot\n",
        text: "__rec=node,id=12,attr=10,data=65,parent=1\n\
            __rec=node,id=13,attr=8,data=count,parent=12\n\
            __rec=node,id=14,attr=8,data=sum#lo,parent=12\n\
            __rec=node,id=15,attr=8,data=min#lo,parent=12\n\
            __rec=node,id=16,attr=8,data=max#lo,parent=12\n\
            __rec=node,id=17,attr=8,data=sum#hi,parent=12\n\
            __rec=node,id=18,attr=8,data=min#hi,parent=12\n\
            __rec=node,id=19,attr=8,data=max#hi,parent=12\n\
            __rec=ctx,attr=13=14=15=16=17=18=19,data=2=-18446744073709551616\
            =-9223372036854775808=-9223372036854775808=36893488147419103230\
            =18446744073709551615=18446744073709551615\n",
        journal: "journal script\nstart 0 -\nline 0 1 done 0 -\nline 0 2 done 0 -\n\
            line 0 3 done 0 -\nline 0 4 done 0 -\nend\n",
        nodes: 0,
        snapshots: 2,
        groups: 1,
    },
];

/// Four threads of the same lines, with every event a snapshot.
const FOUR: &str = "attribute function string 276\nattribute loop string 276\n\
    attribute iteration int 21\nchannel profile event,timer,aggregate\n\
    thread\nbegin function main\ntick 10\nbegin loop steps\nset iteration 0\ntick 5\n\
    begin function solve\ntick 20\nend function\nset iteration 1\ntick 5\n\
    begin function solve\ntick 30\nend function\nend loop\ntick 2\nend function\n\
    flush profile\n\
    thread\nbegin function main\ntick 10\nbegin loop steps\nset iteration 0\ntick 5\n\
    begin function solve\ntick 20\nend function\nset iteration 1\ntick 5\n\
    begin function solve\ntick 30\nend function\nend loop\ntick 2\nend function\n\
    flush profile\n\
    thread\nbegin function main\ntick 10\nbegin loop steps\nset iteration 0\ntick 5\n\
    begin function solve\ntick 20\nend function\nset iteration 1\ntick 5\n\
    begin function solve\ntick 30\nend function\nend loop\ntick 2\nend function\n\
    flush profile\n\
    thread\nbegin function main\ntick 10\nbegin loop steps\nset iteration 0\ntick 5\n\
    begin function solve\ntick 20\nend function\nset iteration 1\ntick 5\n\
    begin function solve\ntick 30\nend function\nend loop\ntick 2\nend function\n\
    flush profile\n";

/// Their profile.
const PROFILE: &str = "__rec=node,id=12,attr=10,data=65,parent=1\n\
    __rec=node,id=13,attr=8,data=count,parent=12\n\
    __rec=node,id=14,attr=8,data=sum#time.duration.ns,parent=12\n\
    __rec=node,id=15,attr=8,data=min#time.duration.ns,parent=12\n\
    __rec=node,id=16,attr=8,data=max#time.duration.ns,parent=12\n\
    __rec=ctx,attr=13=14=15=16,data=4=0=0=0\n\
    __rec=node,id=17,attr=10,data=276,parent=3\n\
    __rec=node,id=18,attr=8,data=function,parent=17\n\
    __rec=node,id=19,attr=18,data=main\n\
    __rec=ctx,ref=19,attr=13=14=15=16,data=8=48=2=10\n\
    __rec=node,id=20,attr=8,data=loop,parent=17\n\
    __rec=node,id=21,attr=20,data=steps,parent=19\n\
    __rec=ctx,ref=21,attr=13=14=15=16,data=20=40=0=5\n\
    __rec=node,id=22,attr=18,data=solve,parent=21\n\
    __rec=ctx,ref=22,attr=13=14=15=16,data=8=200=20=30\n";

fn rows() -> &'static [Row] {
    &ROWS
}

/// Whether a run has so many nodes, snapshots and records of groups.
fn has_counts(ran: &Ran, nodes: u64, snapshots: u64, groups: u64) -> bool {
    ran.nodes == nodes && ran.snapshots == snapshots && ran.groups == groups
}

/// Whether a run leaves what a row says.
fn leaves(alloc: Global, ran: &Ran, row: &Row) -> bool {
    has_counts(ran, row.nodes, row.snapshots, row.groups)
        && has_journal(alloc, &ran.journal, row.journal)
        && has_text(alloc, &ran.records, row.text)
}

/// Whether a run of the row's script does.
fn holds<R: Threads + Sync>(
    rt: &R,
    alloc: Global,
    hashers: RandomState,
    row: &Row,
) -> Result<bool, Fail> {
    let script = runnable(alloc, row.script)?;
    let ran = run(rt, alloc, hashers, &script);
    drop(script);
    match ran {
        Some(ran) => Ok(leaves(alloc, &ran, row)),
        None => Ok(false),
    }
}

#[test]
fn each_run_leaves_its_records_its_journal_and_its_counts(rt: HostRuntime) -> Result<(), Fail> {
    let hashers = RandomState::new(&rt)?;
    for (place, row) in rows().iter().enumerate() {
        let held = holds(&rt, rt.alloc(), hashers, row)?;
        assert!(rt; held, "row {place}");
    }
    Ok(())
}

/// Four threads flush into one profile, whenever it comes: their journal depends on the schedule,
/// and nothing else does.
#[test]
fn four_threads_leave_one_profile(rt: HostRuntime) -> Result<(), Fail> {
    let hashers = RandomState::new(&rt)?;
    let script = runnable(rt.alloc(), FOUR)?;
    let ran = run(&rt, rt.alloc(), hashers, &script);
    drop(script);
    let held = match ran {
        Some(ran) => { has_counts(&ran, 3, 40, 4) && has_text(rt.alloc(), &ran.records, PROFILE) }
        None => false,
    };
    assert!(rt; held);
    Ok(())
}
