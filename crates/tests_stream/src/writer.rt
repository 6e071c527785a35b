//! Canonical texts.
ghost use Rattle.std.specs.Prelude.{IfOk, OnOk};
ghost use Rattle.cal_context.specs.Snapshots.{IsBelowRoot, IsIn};

use crate::table::all_hold;
use cal_base::MemSink;
use cal_context::{Context, NodeNumber, Snapshot, Taker};
use cal_read::read_records;
use cal_value::{Attribute, Kind, OutOfMemory, Props, Records, Seq, Text, Variant};
use cal_write::{WriteEnd, Writer, cali_text, write_records};
use std::alloc::Global;

const DESCRIBED: &str = "\
__rec=node,id=12,attr=10,data=276,parent=3
__rec=node,id=13,attr=8,data=function,parent=12
__rec=node,id=14,attr=13,data=main
__rec=ctx,ref=14
__rec=node,id=15,attr=10,data=512,parent=3
__rec=node,id=16,attr=8,data=host,parent=15
__rec=node,id=17,attr=16,data=n1
__rec=node,id=18,attr=10,data=65,parent=1
__rec=node,id=19,attr=8,data=count,parent=18
__rec=globals,ref=17,attr=19,data=7
";

const OF_BUILT_IN: &str = "\
__rec=node,id=12,attr=10,data=276,parent=3
__rec=ctx,ref=12
__rec=node,id=13,attr=8,data=function,parent=12
__rec=node,id=14,attr=13,data=main
__rec=ctx,ref=14
__rec=ctx,ref=13
__rec=ctx,ref=3
";

const MAIN: &str = "\
__rec=node,id=12,attr=10,data=276,parent=3
__rec=node,id=13,attr=8,data=function,parent=12
__rec=node,id=14,attr=13,data=main
__rec=ctx,ref=14
";

const PROFILE: &str = "\
__rec=node,id=12,attr=10,data=65,parent=1
__rec=node,id=13,attr=8,data=count,parent=12
__rec=node,id=14,attr=8,data=sum#time.duration.ns,parent=12
__rec=node,id=15,attr=8,data=min#time.duration.ns,parent=12
__rec=node,id=16,attr=8,data=max#time.duration.ns,parent=12
__rec=ctx,attr=13=14=15=16,data=4=0=0=0
__rec=node,id=17,attr=10,data=276,parent=3
__rec=node,id=18,attr=8,data=function,parent=17
__rec=node,id=19,attr=18,data=main
__rec=ctx,ref=19,attr=13=14=15=16,data=8=48=2=10
__rec=node,id=20,attr=8,data=loop,parent=17
__rec=node,id=21,attr=20,data=steps,parent=19
__rec=ctx,ref=21,attr=13=14=15=16,data=20=40=0=5
__rec=node,id=22,attr=18,data=solve,parent=21
__rec=ctx,ref=22,attr=13=14=15=16,data=8=200=20=30
";

const PHASES: &str = "\
__rec=node,id=12,attr=10,data=276,parent=3
__rec=node,id=13,attr=8,data=phase,parent=12
__rec=node,id=14,attr=13,data=a
__rec=ctx,ref=14
__rec=node,id=15,attr=13,data=b
__rec=ctx,ref=15
__rec=node,id=16,attr=8,data=function,parent=12
__rec=node,id=17,attr=16,data=f,parent=15
__rec=ctx,ref=17
";

const LIMITS: &str = "\
__rec=node,id=12,attr=10,data=65,parent=1
__rec=node,id=13,attr=8,data=count,parent=12
__rec=node,id=14,attr=8,data=sum#lo,parent=12
__rec=node,id=15,attr=8,data=min#lo,parent=12
__rec=node,id=16,attr=8,data=sum#hi,parent=12
__rec=ctx,attr=13=14=15=16,data=2=-18446744073709551616=-9223372036854775808=36893488147419103230
";

const EVENTS: &str = "\
__rec=node,id=12,attr=10,data=65,parent=3
__rec=node,id=13,attr=8,data=event.begin#function,parent=12
__rec=node,id=14,attr=10,data=65,parent=2
__rec=node,id=15,attr=8,data=time.duration.ns,parent=14
__rec=ctx,attr=13=15,data=main=0
__rec=node,id=16,attr=10,data=276,parent=3
__rec=node,id=17,attr=8,data=function,parent=16
__rec=node,id=18,attr=17,data=main
__rec=node,id=19,attr=8,data=event.end#function,parent=12
__rec=node,id=20,attr=8,data=time.inclusive.duration.ns,parent=14
__rec=ctx,ref=18,attr=19=15=20,data=main=5=5
";

const KINDS: &str = "\
__rec=node,id=12,attr=10,data=65,parent=3
__rec=node,id=13,attr=8,data=event.begin#function,parent=12
__rec=node,id=14,attr=10,data=65,parent=2
__rec=node,id=15,attr=8,data=time.duration.ns,parent=14
__rec=node,id=16,attr=10,data=65,parent=1
__rec=node,id=17,attr=8,data=count,parent=16
__rec=ctx,attr=13=15=17,data=main=0=1
";

const MIXED: &str = "\
__rec=node,id=12,attr=8,data=x,parent=3
__rec=node,id=13,attr=12,data=a\\,b\\=c\\\\d\\ne
__rec=ctx,ref=13
__rec=ctx,ref=13
__rec=node,id=14,attr=10,data=1,parent=3
__rec=node,id=15,attr=8,data=x,parent=14
__rec=ctx,attr=15=12,data=v=w
__rec=ctx
";

const IN_TURN: &str = "\
__rec=node,id=12,attr=10,data=276,parent=3
__rec=node,id=13,attr=8,data=function,parent=12
__rec=node,id=14,attr=13,data=main
__rec=node,id=15,attr=13,data=solve,parent=14
__rec=node,id=16,attr=10,data=65,parent=1
__rec=node,id=17,attr=8,data=count,parent=16
__rec=node,id=18,attr=8,data=sum#x,parent=16
__rec=ctx,ref=15,attr=17=18,data=1=2
__rec=node,id=19,attr=13,data=write,parent=14
__rec=node,id=20,attr=8,data=writes,parent=16
__rec=ctx,ref=19,attr=20=18,data=3=4
__rec=ctx,ref=15,attr=17=18,data=5=6
__rec=ctx,ref=15,attr=18,data=7
";

/// Whether a text is the one that is written of these records.
fn is_written(alloc: Global, records: &Records, text: &str) -> bool {
    match cali_text(alloc, records) {
        Ok(written) => written.as_str() == text,
        Err(_) => false,
    }
}

/// Whether a text is the one that is written of the records that it means.
fn is_rewritten(alloc: Global, text: &str) -> bool {
    match read_records(alloc, text.as_bytes()) {
        Ok(records) => is_written(alloc, &records, text),
        Err(_) => false,
    }
}

/// Worked rows; kinds, escapes and records in turn; globals and built-in nodes.
const TEXTS: [&str; 10] = [
    MAIN,
    PROFILE,
    PHASES,
    LIMITS,
    EVENTS,
    KINDS,
    MIXED,
    IN_TURN,
    DESCRIBED,
    OF_BUILT_IN,
];

fn texts() -> &'static [&'static str] {
    &TEXTS
}

/// The first text that isn't the one that is written of the records that it means.
fn wrong_text(alloc: Global) -> Option<usize> {
    let texts = texts();
    for row in 0..texts.len() {
        if !is_rewritten(alloc, texts[row]) {
            return Some(row);
        }
    }
    None
}

#[test]
fn records_are_written_as_they_were_read(rt: HostRuntime) {
    all_hold(&rt, wrong_text(rt.alloc()));
}

fn function(alloc: Global) -> Result<Attribute, OutOfMemory> {
    Ok(Attribute {
        name: Text::from_str(alloc, "function")?,
        kind: Kind::Str,
        props: Props(276),
    })
}

/// The node of `main` below the root.
fn main_node(alloc: Global, context: &mut Context) -> Result<NodeNumber, OutOfMemory>
    ensures { IfOk result (IsBelowRoot context.new) }
{
    context.has_each_once();
    let attribute = context.attribute(&function(alloc)?)?;
    let main = Variant::Text(Text::from_str(alloc, "main")?);
    context.child(NodeNumber::ROOT, attribute, &main)
}

/// Makes the snapshot one of `main`.
fn fill(alloc: Global, context: &mut Context, snapshot: &mut Snapshot) -> Result<(), OutOfMemory>
    ensures { OnOk result (IsIn context.new snapshot.new) }
{
    snapshot.clear();
    snapshot.nodes.push(main_node(alloc, context)?)?;
    Ok(())
}

/// What is written of this snapshot, with no globals.
fn written(alloc: Global, context: &Context, snapshot: &mut Snapshot) -> Result<Text, OutOfMemory>
    requires { IsIn context.now snapshot.old }
{
    let mut writer = Writer::new(alloc)?;
    let taken = writer.take(context, snapshot);
    snapshot.clear();
    let text = writer.finish(context, snapshot)?;
    taken?;
    Ok(text)
}

fn is_by_number(
    alloc: Global,
    context: &mut Context,
    snapshot: &mut Snapshot,
) -> Result<bool, OutOfMemory> {
    fill(alloc, context, snapshot)?;
    Ok(written(alloc, context, snapshot)?.as_str() == MAIN)
}

#[test]
fn snapshots_by_number(rt: HostRuntime) {
    let mut context = Context::new(rt.alloc());
    let mut snapshot = Snapshot::new(rt.alloc());
    let held = is_by_number(rt.alloc(), &mut context, &mut snapshot);
    drop(snapshot);
    drop(context);
    assert!(rt; held == Ok(true));
}

/// Whether a sink ends so, and with this text.
fn is_put(
    alloc: Global,
    sink: &mut MemSink,
    records: &Records,
    end: Result<(), WriteEnd>,
    text: &str,
) -> bool {
    write_records(alloc, sink, records) == end && sink.bytes() == text.as_bytes()
}

/// The same of a sink of so much room.
fn is_put_into(
    alloc: Global,
    records: &Records,
    room: u64,
    end: Result<(), WriteEnd>,
    text: &str,
) -> bool {
    match MemSink::new(alloc, room, Seq::new(alloc)) {
        Ok(sink) => {
            let mut sink = sink;
            is_put(alloc, &mut sink, records, end, text)
        }
        Err(_) => false,
    }
}

fn is_put_whole_or_in_front(alloc: Global, records: &Records) -> bool {
    let end = Err(WriteEnd::WriteFault);
    is_put_into(alloc, records, 1000, Ok(()), MAIN)
        && is_put_into(alloc, records, 20, end, "__rec=node,id=12,att")
}

fn are_put(alloc: Global) -> bool {
    match read_records(alloc, MAIN.as_bytes()) {
        Ok(records) => is_put_whole_or_in_front(alloc, &records),
        Err(_) => false,
    }
}

#[test]
fn written_to_a_sink(rt: HostRuntime) {
    assert!(rt; are_put(rt.alloc()));
}
