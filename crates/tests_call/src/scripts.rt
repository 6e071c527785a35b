//! Scripts, and the texts of their runs as the format has them.

pub const FIRST: &str = "\
attribute function string 276
channel t trace
thread
begin function main
snapshot
end function
";

pub const FIRST_TEXT: &str = "\
__rec=node,id=12,attr=10,data=276,parent=3
__rec=node,id=13,attr=8,data=function,parent=12
__rec=node,id=14,attr=13,data=main
__rec=ctx,ref=14
";

/// The journal of its run.
pub const FIRST_JOURNAL: &str = "\
journal script
start 0 -
line 0 1 done 0 -
line 0 2 done 0 -
line 0 3 done 0 -
end
";

pub const ESCAPES: &str = "\
attribute function string 276
channel t trace
thread
begin function a,b=c\\\\d\\ne
snapshot
end function
";

pub const ESCAPES_TEXT: &str = "\
__rec=node,id=12,attr=10,data=276,parent=3
__rec=node,id=13,attr=8,data=function,parent=12
__rec=node,id=14,attr=13,data=a\\,b\\=c\\\\d\\ne
__rec=ctx,ref=14
";

pub const NESTED: &str = "\
attribute a string 276
channel t trace
thread
begin a x
begin a y
snapshot
end a
begin a y
snapshot
end a
begin a x
snapshot
";

pub const NESTED_TEXT: &str = "\
__rec=node,id=12,attr=10,data=276,parent=3
__rec=node,id=13,attr=8,data=a,parent=12
__rec=node,id=14,attr=13,data=x
__rec=node,id=15,attr=13,data=y,parent=14
__rec=ctx,ref=15
__rec=ctx,ref=15
__rec=node,id=16,attr=13,data=x,parent=14
__rec=ctx,ref=16
";

/// Four threads of the same lines with one profile, and every event a snapshot.
pub const FOUR: &str = "\
attribute function string 276
attribute loop string 276
attribute iteration int 21
channel profile event,timer,aggregate
thread
begin function main
tick 10
begin loop steps
set iteration 0
tick 5
begin function solve
tick 20
end function
set iteration 1
tick 5
begin function solve
tick 30
end function
end loop
tick 2
end function
flush profile
thread
begin function main
tick 10
begin loop steps
set iteration 0
tick 5
begin function solve
tick 20
end function
set iteration 1
tick 5
begin function solve
tick 30
end function
end loop
tick 2
end function
flush profile
thread
begin function main
tick 10
begin loop steps
set iteration 0
tick 5
begin function solve
tick 20
end function
set iteration 1
tick 5
begin function solve
tick 30
end function
end loop
tick 2
end function
flush profile
thread
begin function main
tick 10
begin loop steps
set iteration 0
tick 5
begin function solve
tick 20
end function
set iteration 1
tick 5
begin function solve
tick 30
end function
end loop
tick 2
end function
flush profile
";

pub const FOUR_TEXT: &str = "\
__rec=node,id=12,attr=10,data=65,parent=1
__rec=node,id=13,attr=8,data=count,parent=12
__rec=node,id=14,attr=8,data=sum#time.duration.ns,parent=12
__rec=node,id=15,attr=8,data=min#time.duration.ns,parent=12
__rec=node,id=16,attr=8,data=max#time.duration.ns,parent=12
__rec=ctx,attr=13=14=15=16,data=4=0=0=0
__rec=node,id=17,attr=10,data=276,parent=3
__rec=node,id=18,attr=8,data=function,parent=17
__rec=node,id=19,attr=18,data=main
__rec=ctx,ref=19,attr=13=14=15=16,data=8=48=2=10
__rec=node,id=20,attr=8,data=loop,parent=17
__rec=node,id=21,attr=20,data=steps,parent=19
__rec=ctx,ref=21,attr=13=14=15=16,data=20=40=0=5
__rec=node,id=22,attr=18,data=solve,parent=21
__rec=ctx,ref=22,attr=13=14=15=16,data=8=200=20=30
";
