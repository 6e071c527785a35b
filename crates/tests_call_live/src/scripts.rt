//! Scripts, and the texts of their runs as the format has them.

/// One thread without a flush.
pub const FIRST: &str = "\
attribute function string 276
channel t trace
thread
begin function main
snapshot
end function
";

/// Its text.
pub const FIRST_TEXT: &str = "\
__rec=node,id=12,attr=10,data=276,parent=3
__rec=node,id=13,attr=8,data=function,parent=12
__rec=node,id=14,attr=13,data=main
__rec=ctx,ref=14
";

/// An `end` of another attribute; the rest is as in the first script.
pub const REFUSED: &str = "\
attribute function string 276
attribute loop string 276
channel t trace
thread
begin function main
end loop
snapshot
";

/// A thread whose two events are timed.
pub const TIMED: &str = "\
attribute function string 276
channel t event,timer,trace
thread
begin function main
end function
";

/// Its text by a clock that shows 100, 90 and 95.
pub const TIMED_TEXT: &str = "\
__rec=node,id=12,attr=10,data=65,parent=3
__rec=node,id=13,attr=8,data=event.begin#function,parent=12
__rec=node,id=14,attr=10,data=65,parent=2
__rec=node,id=15,attr=8,data=time.duration.ns,parent=14
__rec=ctx,attr=13=15,data=main=0
__rec=node,id=16,attr=10,data=276,parent=3
__rec=node,id=17,attr=8,data=function,parent=16
__rec=node,id=18,attr=17,data=main
__rec=node,id=19,attr=8,data=event.end#function,parent=12
__rec=node,id=20,attr=8,data=time.inclusive.duration.ns,parent=14
__rec=ctx,ref=18,attr=19=15=20,data=main=5=5
";

/// Four threads of the same lines with one profile, which each flushes at its end.
pub const FOUR: &str = "\
attribute function string 276
attribute loop string 276
attribute iteration int 21
channel profile event,timer,aggregate
thread
begin function main
tick 10
begin loop steps
set iteration 0
tick 5
begin function solve
tick 20
end function
set iteration 1
tick 5
begin function solve
tick 30
end function
end loop
tick 2
end function
flush profile
thread
begin function main
tick 10
begin loop steps
set iteration 0
tick 5
begin function solve
tick 20
end function
set iteration 1
tick 5
begin function solve
tick 30
end function
end loop
tick 2
end function
flush profile
thread
begin function main
tick 10
begin loop steps
set iteration 0
tick 5
begin function solve
tick 20
end function
set iteration 1
tick 5
begin function solve
tick 30
end function
end loop
tick 2
end function
flush profile
thread
begin function main
tick 10
begin loop steps
set iteration 0
tick 5
begin function solve
tick 20
end function
set iteration 1
tick 5
begin function solve
tick 30
end function
end loop
tick 2
end function
flush profile
";

/// Their profile, whatever the schedule is.
pub const FOUR_TEXT: &str = "\
__rec=node,id=12,attr=10,data=65,parent=1
__rec=node,id=13,attr=8,data=count,parent=12
__rec=node,id=14,attr=8,data=sum#time.duration.ns,parent=12
__rec=node,id=15,attr=8,data=min#time.duration.ns,parent=12
__rec=node,id=16,attr=8,data=max#time.duration.ns,parent=12
__rec=ctx,attr=13=14=15=16,data=4=0=0=0
__rec=node,id=17,attr=10,data=276,parent=3
__rec=node,id=18,attr=8,data=function,parent=17
__rec=node,id=19,attr=18,data=main
__rec=ctx,ref=19,attr=13=14=15=16,data=8=48=2=10
__rec=node,id=20,attr=8,data=loop,parent=17
__rec=node,id=21,attr=20,data=steps,parent=19
__rec=ctx,ref=21,attr=13=14=15=16,data=20=40=0=5
__rec=node,id=22,attr=18,data=solve,parent=21
__rec=ctx,ref=22,attr=13=14=15=16,data=8=200=20=30
";

/// Two threads of which each may close what the other opened, with a profile that both flush.
pub const CROSSED: &str = "\
attribute phase string 268
attribute function string 276
channel t event,timer,trace
channel p aggregate
key phase
thread
begin phase one
begin function main
snapshot
flush p
end phase
snapshot
thread
set phase two
tick 3
snapshot
flush p
end phase
flush p
snapshot
end phase
";

/// Three threads with two profiles, of which some flush both, again and again.
pub const THREE: &str = "\
attribute phase string 268
attribute function string 276
channel p event,timer,aggregate
channel q event,aggregate
key phase function
thread
begin function main
flush p
flush q
tick 5
begin phase one
flush q
end function
flush p
thread
begin phase two
begin function main
flush q
end phase
flush p
flush p
thread
set function other
flush q
begin phase three
flush q
end phase
end phase
flush p
";
