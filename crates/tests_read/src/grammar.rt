//! Fields in any order, and nodes below others.

use crate::shown::{all_hold, fails_at, wrong_row};
use cal_read::StreamKind;

/// A stream, and its records: of each row its paths with a bar behind each, and its immediates; the
/// globals last.
const FIELDS: [(&str, &str); 8] = [
    ("", ";"),
    ("\n\n", ";"),
    ("__rec=ctx", ";;"),
    // a kind and a built-in attribute are nodes like any other
    (
        "__rec=ctx,ref=0=8\n",
        "cali.attribute.type=usr,|cali.attribute.type=string,\
         cali.attribute.name=cali.attribute.name,|;;",
    ),
    // fields in any order, unknown keys with any values
    (
        "__rec=node,data=a,parent=3,k=x=y,attr=8,id=12,ref=z\n\
         __rec=ctx,data=v,id=q,attr=12,parent=\n",
        "a=v,;;",
    ),
    // an id of 20 digits, and one with zeros before it, which is the same
    (
        "__rec=node,id=18446744073709551615,attr=8,data=a,parent=3\n\
         __rec=node,id=012,attr=18446744073709551615,data=x\n\
         __rec=node,id=12,attr=018446744073709551615,data=x\n__rec=ctx,ref=12\n",
        "a=x,|;;",
    ),
    // a node again with another text of its value
    (
        "__rec=node,id=12,attr=8,data=i,parent=1\n__rec=node,id=13,attr=12,data=01\n\
         __rec=node,id=13,attr=12,data=1\n__rec=ctx,ref=13\n",
        "i=1,|;;",
    ),
    // escapes in keys, values and ids
    (
        "\\__rec=node,id=\\1\\2,at\\tr=8,data=a\\,b\\=\\n,parent=3\n__rec=ctx,attr=12,data=\\\\\n",
        "a,b=\n=\\,;;",
    ),
];

const NODES: [(&str, &str); 5] = [
    // the kind is that of the nearest kind above, and so are the properties
    (
        "__rec=node,id=12,attr=9,data=int,parent=3\n__rec=node,id=13,attr=10,data=1,parent=12\n\
         __rec=node,id=14,attr=8,data=u,parent=13\n__rec=node,id=15,attr=14,data=7\n\
         __rec=node,id=16,attr=8,data=w,parent=14\n__rec=ctx,ref=15,attr=16=14,data=-2=-0\n",
        "u=7,|w=-2,u=0,;;",
    ),
    // a carriage return is a character like any other
    (
        "__rec=node,id=12,attr=8,data=a,parent=3\n__rec=ctx,attr=12,data=x\r\n",
        "a=x\r,;;",
    ),
    // an immediate of attribute 10 may be any int
    ("__rec=ctx,attr=10,data=-5\n", "cali.attribute.prop=-5,;;"),
    // globals come together, wherever they stand
    (
        "__rec=globals,ref=3\n__rec=node,id=12,attr=8,data=a,parent=3\n\
         __rec=globals,attr=12,data=x\n__rec=ctx\n__rec=globals,ref=12=3,attr=12,data=y\n",
        ";cali.attribute.type=string,|cali.attribute.type=string,cali.attribute.name=a,|\
         cali.attribute.type=string,|a=x,a=y,;",
    ),
    ("__rec=globals\n", ";"),
];

fn fields() -> &'static [(&'static str, &'static str)] {
    &FIELDS
}

fn nodes() -> &'static [(&'static str, &'static str)] {
    &NODES
}

#[test]
fn fields_come_in_any_order(rt: HostRuntime) {
    all_hold(&rt, wrong_row(rt.alloc(), "", fields(), ""));
}

#[test]
fn nodes_stand_below_others(rt: HostRuntime) {
    all_hold(&rt, wrong_row(rt.alloc(), "", nodes(), ""));
}

// a value that isn't of the kind above
const UNLIKE: &str =
    "__rec=node,id=12,attr=9,data=int,parent=3\n__rec=node,id=13,attr=10,data=1,parent=12\n\
         __rec=node,id=14,attr=8,data=u,parent=13\n__rec=node,id=15,attr=14,data=7\n\
         __rec=node,id=16,attr=8,data=w,parent=14\n__rec=ctx,ref=15,attr=16=14,data=-2=+\n";

#[test]
fn the_kind_above_decides(rt: HostRuntime) {
    let bytes = UNLIKE.as_bytes();
    assert!(rt; fails_at(rt.alloc(), bytes, 6, StreamKind::BadValue));
}
