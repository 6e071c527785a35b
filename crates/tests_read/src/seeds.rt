//! A stream whose ids and keys are hashed, by two seeds.
ghost use Rattle.cal_read.specs.Owned.{IsOwnedReady};

use crate::shown::{are_shown, is_true};
use cal_read::{Reader, StreamEnd};
use cal_seeds::Seeds;
use cal_value::{OutOfMemory, Rec, Seq};
use std::alloc::Global;

// ids that don't come in turn, and a line of more than 16 keys
const STREAM: &str = "__rec=node,id=900,attr=10,data=276,parent=3\n\
    __rec=node,id=70,attr=8,data=a,parent=900\n\
    __rec=node,id=4294967296,attr=70,data=x\n\
    __rec=node,id=50,attr=70,data=y,parent=4294967296\n\
    __rec=ctx,ref=50,a=1,b=1,c=1,d=1,e=1,f=1,g=1,h=1,i=1,j=1,k=1,l=1,m=1,n=1,o=1,p=1,q=1\n\
    __rec=ctx,ref=4294967296\n";

const RECORDS: &str = "a=x,a=y,|;a=x,|;;";

fn read_all(reader: &mut Reader, rows: &mut Seq<Rec>) -> Result<Rec, StreamEnd>
    requires { IsOwnedReady reader.old }
{
    reader.feed(STREAM.as_bytes(), rows)?;
    reader.finish(rows)
}

fn read_by(alloc: Global, seeds: Seeds, rows: &mut Seq<Rec>) -> Result<Rec, StreamEnd> {
    let mut reader = Reader::seeded(alloc, seeds)?;
    let read = read_all(&mut reader, rows);
    drop(reader);
    read
}

/// Whether the stream has its records by these seeds.
fn is_read_by(alloc: Global, seeds: Seeds) -> Result<bool, OutOfMemory> {
    let mut rows = Seq::new(alloc);
    match read_by(alloc, seeds, &mut rows) {
        Ok(globals) => are_shown(alloc, rows.as_slice(), &globals, RECORDS),
        Err(_) => Ok(false),
    }
}

#[test]
fn two_seeds_give_the_same_records(rt: HostRuntime) {
    let others = Seeds {
        start: 5,
        factor: 7,
    };
    is_true(&rt, is_read_by(rt.alloc(), Seeds::fixed()));
    is_true(&rt, is_read_by(rt.alloc(), others));
}
