//! How much of a context is known.
ghost use Rattle.std.specs.Prelude.{◌≡◌, length, IsTrue};
ghost use Rattle.cal_filter.specs.Known.{Covers};

use cal_context::Context;

/// Of how many attributes and nodes of a context something is known: of the first ones. So what is
/// known of a whole context needn't be looked through for each record of it.
#[derive(Clone, Copy)]
pub struct Counts {
    pub attributes: usize,
    pub nodes: usize,
}

impl Counts {
    /// Of nothing.
    pub const NONE: Counts = Counts {
        attributes: 0,
        nodes: 0,
    };

    /// Of all that a context has.
    pub fn of(context: &Context) -> Counts
        ensures attributes { result.attributes ≡ length context.now.attributes }
        ensures nodes { result.nodes ≡ length context.now.paths }
    {
        Counts {
            attributes: context.attribute_count(),
            nodes: context.node_count(),
        }
    }

    /// Whether a context has no more.
    #[inline(always)]
    pub fn covers(&self, context: &Context) -> bool
        ensures covers { IsTrue result → Covers context.now self.now }
        ensures only { Covers context.now self.now → IsTrue result }
    {
        context.attribute_count() <= self.attributes && context.node_count() <= self.nodes
    }
}
