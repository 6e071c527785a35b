//! What a look at an empty history sees.
ghost use Rattle.cal_script.specs.Valid.{IsRunnable};

use crate::scripts::runnable;
use cal_board::BoardReply;
use cal_process::{Common, Replica};
use cal_run::attr_ref;
use cal_script::Script;
use cal_value::OutOfMemory;
use cal_words::OpCode;
use std::alloc::Global;
use std::test::Fail;

// two threads that share a phase
const SHARED: &str = "attribute phase string 268\nthread\nbegin phase init\nthread\nend phase\n";

/// How many operations a look at an empty history sees, and the reply to an end behind it.
fn look_at_nothing(alloc: Global, script: &Script) -> Result<(u64, BoardReply), OutOfMemory>
    requires { IsRunnable script.now }
{
    let (common, mut tree, log) = Common::new(alloc, script)?;
    let mut replica = Replica::new(alloc, log);
    replica.take_all(alloc, &common, &mut tree)?;
    let reply = replica.board.check(OpCode::End, attr_ref(script, 0));
    Ok((replica.seen, reply))
}

#[test]
fn nothing_is_seen_of_an_empty_history(rt: HostRuntime) -> Result<(), Fail> {
    let script = runnable(rt.alloc(), SHARED)?;
    let seen = look_at_nothing(rt.alloc(), &script);
    assert_eq!(rt; seen, Ok((0, BoardReply::NotOpen)));
    Ok(())
}
