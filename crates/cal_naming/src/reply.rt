//! What declarations are replied, and which of them are kept.

use cal_value::{Attribute, Kind, Seq};

/// What a declaration of a name is replied.
#[derive(Clone, Copy, Debug, PartialEq, Eq)]
pub enum NameReply {
    /// It is the kept declaration of its name.
    Same,
    /// Another one is kept, which says this of the name.
    Different { kind: Kind, props: u32 },
}

/// What declarations by threads came to.
#[derive(Debug, Drop)]
pub struct Named {
    /// The replies to the declarations of each thread, in their order.
    pub replies: Seq<Seq<NameReply>>,
    /// The kept declaration of each name, once, in no particular order.
    pub kept: Seq<Attribute>,
}
