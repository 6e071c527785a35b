ghost use Rattle.std.specs.Prelude.{⊤, ◌≡◌, ◌↔◌, IsTrue, refl};
ghost use Rattle.std.specs.Cmp.{partial_order_from_total};
ghost use Rattle.std.specs.Ordering.{as_partial_cmp, eq_by_cmp};
ghost use Rattle.cal_value.specs.Order.{props_cmp};
ghost use Rattle.cal_value.specs.OrderLaws.{props_exact};
ghost use Rattle.cal_value.specs.Props.{has_process_scope, is_as_value, is_global, is_nested};
ghost use Rattle.cal_value.specs.Props.{is_reference, named_props, skips_events};
ghost use Rattle.cal_value.specs.ExactOrder.{exact_equiv, exact_per};

use bitflags::{Flag, Flags};
use std::cmp::Ordering;

/// The properties of an attribute, a set of bits. Bits without a name are kept.
#[derive(Clone, Copy, Debug, Hash)]
pub struct Props(pub u32);

// the bits that name a scope
const SCOPE: u32 = 60;

// the names of Caliper's library, with Giltmoth's numbers
const NAMED: [Flag<Props>; 9] = [
    Flag {
        name: "AS_VALUE",
        value: Props::AS_VALUE,
    },
    Flag {
        name: "NOMERGE",
        value: Props::NOMERGE,
    },
    Flag {
        name: "SCOPE_PROCESS",
        value: Props::SCOPE_PROCESS,
    },
    Flag {
        name: "SCOPE_THREAD",
        value: Props::SCOPE_THREAD,
    },
    Flag {
        name: "SCOPE_TASK",
        value: Props::SCOPE_TASK,
    },
    Flag {
        name: "SKIP_EVENTS",
        value: Props::SKIP_EVENTS,
    },
    Flag {
        name: "HIDDEN",
        value: Props::HIDDEN,
    },
    Flag {
        name: "NESTED",
        value: Props::NESTED,
    },
    Flag {
        name: "GLOBAL",
        value: Props::GLOBAL,
    },
];

impl Props {
    /// Values stand in snapshots themselves, and not by a node.
    pub const AS_VALUE: Props = Props(1);

    /// Kept for streams; nothing here asks it.
    pub const NOMERGE: Props = Props(2);

    /// The values belong to the process.
    pub const SCOPE_PROCESS: Props = Props(12);

    /// The values belong to a thread.
    pub const SCOPE_THREAD: Props = Props(20);

    /// The values belong to a task, which is read as thread scope.
    pub const SCOPE_TASK: Props = Props(24);

    /// Begin, set and end are no events of channels.
    pub const SKIP_EVENTS: Props = Props(64);

    /// Kept for streams; nothing here asks it.
    pub const HIDDEN: Props = Props(128);

    /// Values share the slot of the hierarchy, where they go by nodes.
    pub const NESTED: Props = Props(256);

    /// The attribute of a global of the stream.
    pub const GLOBAL: Props = Props(512);

    /// Whether values stand in snapshots themselves.
    pub fn is_as_value(self) -> bool
        ensures { result ≡ is_as_value self }
    {
        self.contains(Props::AS_VALUE)
    }

    /// Whether values go by a node of the context tree: all that are not as value.
    pub fn is_reference(self) -> bool
        ensures { result ≡ is_reference self }
    {
        !self.is_as_value()
    }

    /// Whether values share the slot of the hierarchy.
    pub fn is_nested(self) -> bool
        ensures { result ≡ is_nested self }
    {
        self.contains(Props::NESTED) && self.is_reference()
    }

    /// Whether the scope is the process; it is the thread otherwise.
    pub fn has_process_scope(self) -> bool
        ensures { result ≡ has_process_scope self }
    {
        self.0 & SCOPE == Props::SCOPE_PROCESS.0
    }

    /// Whether begin, set and end are no events.
    pub fn skips_events(self) -> bool
        ensures { result ≡ skips_events self }
    {
        self.contains(Props::SKIP_EVENTS)
    }

    /// Whether the attribute is a global's.
    pub fn is_global(self) -> bool
        ensures { result ≡ is_global self }
    {
        self.contains(Props::GLOBAL)
    }
}

impl Flags for Props {
    type Bits = u32;

    ghost exact = { ⊤ };

    ghost table = { named_props };

    ghost set_of = { λ p. p.0 };

    fn flags<'a>() -> &'a [Flag<Props>] {
        &NAMED
    }

    fn bits(&self) -> u32 {
        self.0
    }

    fn from_bits_retain(bits: u32) -> Props {
        Props(bits)
    }
}

impl PartialEq for Props {
    ghost eq = { eq_by_cmp props_cmp };

    ghost laws = { exact_per props_exact };

    fn eq(&self, other: &Props) -> bool
        ensures value { result ≡ eq_by_cmp props_cmp self.now other.now }
        ensures same { IsTrue result ↔ (self.now ≡ other.now) }
    {
        self.0 == other.0
    }
}

impl Eq for Props {
    ghost laws = { exact_equiv props_exact };
}

impl PartialOrd for Props {
    ghost partial_cmp = { as_partial_cmp props_cmp };

    ghost laws = { partial_order_from_total props_exact.total };

    fn partial_cmp(&self, other: &Props) -> Option<Ordering> {
        Some(self.cmp(other))
    }
}

impl Ord for Props {
    ghost cmp = { props_cmp };

    ghost total = { props_exact.total };

    ghost matches_partial_cmp = { λ _ _. refl };

    ghost matches_eq = { λ _ _. refl };

    fn cmp(&self, other: &Props) -> Ordering {
        self.0.cmp(&other.0)
    }
}
