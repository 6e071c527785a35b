//! Sixty-four threads that flush one channel, and two that flush sixteen.

use crate::calls::NONE;
use crate::rows::{Left, difference_of};
use cal_value::{OutOfMemory, Text};
use std::alloc::Global;
use std::random::RandomSource;
use std::sync::Wait;
use std::thread::Threads;

/// What a script declares of its functions.
const HEADER: &str = "attribute function string 276\n";

/// A thread with a snapshot before each of two flushes.
const THREAD: &str = "\
thread
begin function main
snapshot
flush p
snapshot
flush p
end function
";

/// A script of so many such threads.
fn script_of(alloc: Global, threads: u32) -> Result<Text, OutOfMemory> {
    let mut text = Text::from_str(alloc, HEADER)?;
    text.push_str("channel p aggregate\n")?;
    for _thread in 0..threads {
        text.push_str(THREAD)?;
    }
    Ok(text)
}

/// Puts a line for each of sixteen channels behind a text, with its name between two words.
fn put_channels(
    alloc: Global,
    before: &str,
    behind: &str,
    text: &mut Text,
) -> Result<(), OutOfMemory> {
    for number in 0..16u32 {
        let line = format!(in alloc; "{before} c{number}{behind}\n")?;
        text.push_str(line.as_str())?;
    }
    Ok(())
}

/// Puts a thread that flushes each of them behind a text.
fn put_thread(alloc: Global, text: &mut Text) -> Result<(), OutOfMemory> {
    text.push_str("thread\nbegin function main\nsnapshot\n")?;
    put_channels(alloc, "flush", "", text)
}

/// A script of two such threads.
fn sixteen_of(alloc: Global) -> Result<Text, OutOfMemory> {
    let mut text = Text::from_str(alloc, HEADER)?;
    put_channels(alloc, "channel", " aggregate", &mut text)?;
    put_thread(alloc, &mut text)?;
    put_thread(alloc, &mut text)?;
    Ok(text)
}

/// The profile of sixty-four threads.
const OF_MANY: &str = "\
__rec=node,id=12,attr=10,data=276,parent=3
__rec=node,id=13,attr=8,data=function,parent=12
__rec=node,id=14,attr=13,data=main
__rec=node,id=15,attr=10,data=65,parent=1
__rec=node,id=16,attr=8,data=count,parent=15
__rec=ctx,ref=14,attr=16,data=128
";

/// That of each of sixteen channels.
const OF_SIXTEEN: &str = "\
__rec=node,id=12,attr=10,data=276,parent=3
__rec=node,id=13,attr=8,data=function,parent=12
__rec=node,id=14,attr=13,data=main
__rec=node,id=15,attr=10,data=65,parent=1
__rec=node,id=16,attr=8,data=count,parent=15
__rec=ctx,ref=14,attr=16,data=2
__rec=ctx,ref=14,attr=16,data=2
__rec=ctx,ref=14,attr=16,data=2
__rec=ctx,ref=14,attr=16,data=2
__rec=ctx,ref=14,attr=16,data=2
__rec=ctx,ref=14,attr=16,data=2
__rec=ctx,ref=14,attr=16,data=2
__rec=ctx,ref=14,attr=16,data=2
__rec=ctx,ref=14,attr=16,data=2
__rec=ctx,ref=14,attr=16,data=2
__rec=ctx,ref=14,attr=16,data=2
__rec=ctx,ref=14,attr=16,data=2
__rec=ctx,ref=14,attr=16,data=2
__rec=ctx,ref=14,attr=16,data=2
__rec=ctx,ref=14,attr=16,data=2
__rec=ctx,ref=14,attr=16,data=2
";

/// What `live` with an option leaves otherwise than this text, or nothing.
fn difference_from<R: Threads + Wait + Sync + RandomSource>(
    rt: &R,
    alloc: Global,
    option: &str,
    script: Result<Text, OutOfMemory>,
    text: &str,
) -> Option<&'static str> {
    let script = script.ok()?;
    let left = Left {
        text,
        told: "",
        status: 0,
    };
    let found = difference_of(rt, alloc, &["live", option], script.as_str(), NONE, &left);
    drop(script);
    found
}

#[test]
fn many_threads_pass_their_parts_through_room_for_one(rt: HostRuntime) {
    let script = script_of(rt.alloc(), 64);
    let found = difference_from(&rt, rt.alloc(), "--room=1", script, OF_MANY);
    assert_eq!(rt; found, Some(""));
}

#[test]
fn many_threads_have_room_for_all_their_parts(rt: HostRuntime) {
    let script = script_of(rt.alloc(), 64);
    let found = difference_from(&rt, rt.alloc(), "--room=1024", script, OF_MANY);
    assert_eq!(rt; found, Some(""));
}

#[test]
fn each_of_sixteen_channels_has_its_parts(rt: HostRuntime) {
    let script = sixteen_of(rt.alloc());
    let found = difference_from(&rt, rt.alloc(), "--room=1", script, OF_SIXTEEN);
    assert_eq!(rt; found, Some(""));
}
