//! Streams, and the layouts of their rows as the format has them.

/// A stream with an attribute that has a unit, in the form that Caliper writes, and its globals.
pub const TIMES: &str = "\
__rec=node,id=12,attr=10,data=276,parent=3
__rec=node,id=13,attr=8,data=function,parent=12
__rec=node,id=14,attr=13,data=main
__rec=node,id=15,attr=8,data=attribute.unit,parent=3
__rec=node,id=16,attr=15,data=sec,parent=5
__rec=node,id=20,attr=10,data=2113,parent=16
__rec=node,id=21,attr=8,data=time.duration,parent=20

__rec=ctx,ref=14,attr=21,data=0.250000
__rec=globals,ref=14
";

/// A stream whose globals stand before its rows.
pub const HOSTS: &str = "\
__rec=node,id=12,attr=10,data=276,parent=3
__rec=node,id=13,attr=8,data=function,parent=12
__rec=node,id=14,attr=13,data=main
__rec=node,id=15,attr=10,data=512,parent=3
__rec=node,id=16,attr=8,data=host,parent=15
__rec=node,id=17,attr=16,data=n1
__rec=node,id=18,attr=13,data=solve,parent=14
__rec=globals,ref=17,attr=16,data=n2
__rec=ctx,ref=14
__rec=ctx,ref=18,attr=16,data=n0
__rec=ctx
";

pub const ENTRIES: &str = "\
__rec=node,id=12,attr=10,data=276,parent=3
__rec=node,id=13,attr=8,data=function,parent=12
__rec=node,id=14,attr=13,data=main
__rec=node,id=15,attr=10,data=65,parent=2
__rec=node,id=16,attr=8,data=region.depth,parent=15
__rec=node,id=17,attr=8,data=region.count,parent=15
__rec=node,id=18,attr=10,data=21,parent=1
__rec=node,id=19,attr=8,data=iteration,parent=18
__rec=ctx,ref=14,attr=16=17=19,data=1=2=7
";
