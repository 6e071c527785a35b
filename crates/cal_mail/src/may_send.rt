//! What senders may send.
ghost use Rattle.std.specs.Prelude.{List, ⊤};

use std::marker::Brand;

/// What senders may send. It has ghost members alone, so a call may pick its law by passing
/// `Brand`, also with values that are known only as the program runs.
pub trait SendLaw<T> {
    /// A sender that has sent these parts may send this one.
    ghost may_send: { List T → T → Type 0 };
}

/// Any part may be sent.
pub struct AnyPart;

impl<T> SendLaw<T> for AnyPart {
    ghost may_send = { λ sent part. ⊤ };
}

impl<T> SendLaw<T> for Brand {
    ghost may_send = { λ sent part. ⊤ };
}
