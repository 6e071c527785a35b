//! What the threads are replied: their answers, without places.
ghost use Rattle.std.specs.Prelude.{◌≡◌, IfOk};
ghost use Rattle.cal_naming.specs.Replies.{all_replies, replies_to, reply_of};

use crate::NameReply;
use cal_names::Declared;
use cal_value::{OutOfMemory, Seq};
use std::alloc::Global;

/// The replies to all threads.
pub(crate) fn reply_to_all(
    alloc: Global,
    answers: &[Seq<Declared>],
) -> Result<Seq<Seq<NameReply>>, OutOfMemory>
    ensures { IfOk result (λ replies. replies ≡ all_replies answers.now) }
{
    let mut replies = Vec::with_capacity(alloc, answers.len())?;
    for own in answers {
        let replied = reply_to(alloc, own.as_slice())?;
        replies.push(replied)?;
    }
    Ok(Seq::from_vec(replies))
}

fn reply_to(alloc: Global, answers: &[Declared]) -> Result<Seq<NameReply>, OutOfMemory>
    ensures { IfOk result (λ replies. replies ≡ replies_to answers.now) }
{
    let mut replies = Vec::with_capacity(alloc, answers.len())?;
    for answer in answers {
        replies.push(reply_of(*answer))?;
    }
    Ok(Seq::from_vec(replies))
}

fn reply_of(answer: Declared) -> NameReply
    ensures { result ≡ reply_of answer }
{
    match answer {
        Declared::Same { place: _ } => NameReply::Same,
        Declared::Different {
            place: _,
            kind,
            props,
        } => NameReply::Different { kind, props },
    }
}
