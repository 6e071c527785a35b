//! Scripts with journals, and the texts of their runs as the format has them.

/// Two threads share a phase: the second ends what the first began.
pub const SHARED: &str = "\
attribute phase string 268
channel t trace
thread
begin phase init
snapshot
thread
end phase
snapshot
journal script
op 0 1
op 1 1
start 0 -
line 0 1 done 1 -
line 0 2 done 1 -
start 1 -
line 1 1 done 2 -
line 1 2 done 2 -
end
";

/// The same threads where the second was first, so that its `end` found nothing open.
pub const EXCHANGED: &str = "\
attribute phase string 268
channel t trace
thread
begin phase init
snapshot
thread
end phase
snapshot
journal script
op 1 1
op 0 1
start 0 -
line 0 1 done 2 -
line 0 2 done 2 -
start 1 -
line 1 1 notopen 1 -
line 1 2 done 1 -
end
";

/// The text of both.
pub const SHARED_TEXT: &str = "\
__rec=node,id=12,attr=10,data=268,parent=3
__rec=node,id=13,attr=8,data=phase,parent=12
__rec=node,id=14,attr=13,data=init
__rec=ctx,ref=14
__rec=ctx
";

/// A line that has seen less than the one before it.
pub const FALLING: &str = "\
attribute phase string 268
channel t trace
thread
begin phase init
snapshot
journal script
op 0 1
start 0 -
line 0 1 done 1 -
line 0 2 done 0 -
end
";

/// A journal that doesn't end.
pub const CUT: &str = "thread\nsnapshot\njournal script\nstart 0 -\nline 0 1 done 0 -\n";

/// A flush that met the other thread's turn, and one that was merged.
pub const BUSY: &str = "\
channel p aggregate
thread
flush p
thread
flush p
journal script
start 0 -
line 0 1 busy:1 0 -
start 1 -
line 1 1 merged 0 -
end
";

/// An `end` of another attribute.
pub const REFUSED: &str = "\
attribute function string 276
attribute loop string 276
channel t trace
thread
begin function main
end loop
snapshot
";

pub const GLOBALS: &str = "\
attribute function string 276
attribute host string 512
global host n1
channel t trace
thread
begin function main
snapshot
end function
";

pub const GLOBALS_TEXT: &str = "\
__rec=node,id=12,attr=10,data=276,parent=3
__rec=node,id=13,attr=8,data=function,parent=12
__rec=node,id=14,attr=13,data=main
__rec=ctx,ref=14
__rec=node,id=15,attr=10,data=512,parent=3
__rec=node,id=16,attr=8,data=host,parent=15
__rec=node,id=17,attr=16,data=n1
__rec=globals,ref=17
";

pub const GROUPED: &str = "\
attribute function string 276
channel p aggregate
thread
begin function main
snapshot
snapshot
end function
";

pub const GROUPED_TEXT: &str = "\
__rec=node,id=12,attr=10,data=276,parent=3
__rec=node,id=13,attr=8,data=function,parent=12
__rec=node,id=14,attr=13,data=main
__rec=node,id=15,attr=10,data=65,parent=1
__rec=node,id=16,attr=8,data=count,parent=15
__rec=ctx,ref=14,attr=16,data=2
";
