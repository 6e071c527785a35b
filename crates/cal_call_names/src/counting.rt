//! How many declarations were refused.
ghost use Rattle.std.specs.Prelude.{◌≡◌};
ghost use Rattle.cal_call_names.specs.Listing.{AreFew, is_refusal, refused_lines, refused_of};

use cal_naming::NameReply;
use cal_value::Seq;

/// How many declarations were refused.
pub fn count_refused(replies: &[Seq<NameReply>]) -> u64
    requires { AreFew replies.now }
    ensures { result ≡ refused_lines replies.now }
{
    let mut refused = 0;
    for thread in replies {
        refused += count_in(thread.as_slice());
    }
    refused
}

/// How many of a thread were refused.
fn count_in(replies: &[NameReply]) -> u64
    ensures { result ≡ refused_of replies.now }
{
    let mut refused = 0;
    for reply in replies {
        if is_refusal(*reply) {
            refused += 1;
        }
    }
    refused
}

/// Whether a declaration with this reply was refused.
fn is_refusal(reply: NameReply) -> bool
    ensures { result ≡ is_refusal reply }
{
    match reply {
        NameReply::Same => false,
        NameReply::Different { .. } => true,
    }
}
