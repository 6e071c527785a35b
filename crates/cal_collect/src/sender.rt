//! Who hands parts over.

use crate::{Part, PartLaw, Shapes};
use cal_mail::Sender;

/// Who hands parts over. Contracts see the parts that it sent.
#[derive(Drop)]
pub struct PartSender<'a, Q, S: Shapes> {
    pub(crate) sender: Sender<'a, Q, Part, PartLaw<S>>,
}
