//! Streams of which the triggers let some rows through.

/// Paths of functions, and a region.
pub const PATHS: &str = "\
__rec=node,id=12,attr=10,data=276,parent=3
__rec=node,id=13,attr=8,data=function,parent=12
__rec=node,id=14,attr=13,data=main
__rec=node,id=15,attr=13,data=b,parent=14
__rec=node,id=16,attr=13,data=a,parent=14
__rec=node,id=17,attr=8,data=region,parent=3
__rec=node,id=18,attr=17,data=x
__rec=ctx,ref=15
__rec=ctx,ref=16
__rec=ctx,ref=14
__rec=ctx,ref=16=18
__rec=ctx,ref=14
";

/// Durations, of which one is below a thousand.
pub const DURATIONS: &str = "\
__rec=node,id=12,attr=8,data=time.duration.ns,parent=2
__rec=ctx,attr=12,data=999
__rec=ctx,attr=12,data=1000
";

/// Functions in paths, beside them and nowhere; with durations of two kinds, in paths too.
pub const MIXED: &str = "\
__rec=node,id=12,attr=10,data=276,parent=3
__rec=node,id=13,attr=8,data=function,parent=12
__rec=node,id=14,attr=13,data=main
__rec=node,id=15,attr=13,data=solve
__rec=node,id=16,attr=8,data=time.duration.ns,parent=2
__rec=node,id=17,attr=8,data=time.duration.ns,parent=3
__rec=node,id=18,attr=16,data=5000
__rec=node,id=19,attr=13,data=solve,parent=18
__rec=ctx,ref=14,attr=16,data=1
__rec=ctx,ref=15,attr=16,data=1000
__rec=ctx,ref=15,attr=13=16,data=main=2
__rec=ctx,attr=16=16,data=1001=3
__rec=ctx,attr=17,data=999
__rec=ctx,attr=17,data=1
__rec=ctx,ref=19,attr=16,data=4
__rec=ctx
";
