ghost use Rattle.std.specs.Prelude.{◌≡◌, ◌<◌, length};
ghost use Rattle.cal_context.specs.Tree.{Grows, value_at};
ghost use Rattle.cal_board.specs.ContextGrowth.{NodeStands-Grows};
ghost use Rattle.cal_board.specs.Contexts.{AddsNode, NodeStands};
ghost use Rattle.cal_context.proofs.CallerLemmas.{Grows-refl};

use cal_context::{AttributeNumber, Context, Link, NodeNumber, ValueNumber};
use cal_value::{OutOfMemory, TryCopy, Variant};
use std::alloc::Global;

/// Whoever makes nodes for the open values of reference slots. `V` is how a value is handed in, and
/// `N` what is made for it. A maker only grows: a node stands for the same values for good.
pub trait NodeMaker<V: Drop, N> {
    ghost use Rattle.std.specs.Prelude.{◌≡◌, ◌<◌, ℕ, List, Option, IfOk, IsOk, OnErr, length};
    ghost use Rattle.std.specs.Prelude.{option_copied};
    ghost use Rattle.cal_board.specs.Blackboard.{most_values, opened_more};
    ghost use Rattle.cal_board.specs.Standing.{IsParent};
    ghost use Rattle.cal_board.specs.declared.opened.Opened.{Opened};
    ghost use Rattle.cal_value.specs.declared.variant.Variant.{Variant};

    // the value that is meant
    ghost value_of: { Self → V → Variant };

    // whether a node may be asked for by this attribute and value
    ghost knows: { Self → ℕ → V → Type 0 };

    // whether there is room for the node of a value
    ghost has_room: { Self → V → Type 0 };

    // whether a node stands for these open values, the outermost first
    ghost is_node: { Self → N → List (Opened Variant) → Type 0 };

    // whether it has grown from one to the other
    ghost grows: { Self → Self → Type 0 };

    // whether this node is all that it has more, if it is new
    ghost adds: { Self → Self → N → Type 0 };

    // what is true where it refuses a node below a parent, by an attribute and a value
    ghost refuses: { Self → Self → Option N → ℕ → V → Type 0 };

    // whether a value is copied without memory
    ghost is_plain: { Self → V → Type 0 };

    /// The node of a value that is opened below the values of another node, or below none: fewer
    /// than a slot may hold. No other node is made.
    fn child(&mut self, parent: Option<&N>, attribute: u32, value: V) -> Result<N, OutOfMemory>
        requires known { knows self.old attribute value }
        requires room { has_room self.old value }
        requires parent { (path : List (Opened Variant))
            × IsParent (is_node self.old) (option_copied parent) path
            × (length path < most_values) }
        ensures made { IfOk result (λ n. (path : List (Opened Variant))
            → IsParent (is_node self.old) (option_copied parent.entry) path
            → is_node self.new n (opened_more attribute (value_of self.old value) path)) }
        ensures added { IfOk result (λ n. adds self.old self.new n) }
        ensures refused { OnErr result
            (refuses self.old self.new (option_copied parent.entry) attribute value) }
        ensures onward { grows self.old self.new };

    /// The value itself.
    fn copy(&self, alloc: Global, value: V) -> Result<Variant, OutOfMemory>
        requires { (attribute : ℕ) × knows self.now attribute value }
        ensures copied { IfOk result (λ v. v ≡ value_of self.now value) }
        ensures plain { is_plain self.now value → IsOk result };

    ghost same: { (m : Self) → grows m m };

    ghost stays: { (old new : Self) (n : N) (path : List (Opened Variant)) → grows old new
        → is_node old n path → is_node new n path };
}

/// A context makes a node by one look-up. Its attributes have the numbers that boards know.
impl NodeMaker<ValueNumber, NodeNumber> for Context {
    ghost value_of = { λ t v. value_at t v };

    ghost knows = { λ t a v. (a < length t.attributes) × (v.0 < length t.values) };

    ghost has_room = { λ _ _. Unit {0} };

    ghost is_node = { NodeStands };

    ghost grows = { Grows };

    ghost adds = { AddsNode };

    ghost refuses = { λ old new _ _ _. new ≡ old };

    ghost is_plain = { λ _ _. ⊥ };

    ghost same = { Grows-refl };

    ghost stays = { λ old new n path grows is. NodeStands-Grows grows n path is };

    fn child(
        &mut self,
        parent: Option<&NodeNumber>,
        attribute: u32,
        value: ValueNumber,
    ) -> Result<NodeNumber, OutOfMemory> {
        self.has_each_once();
        let parent = match parent {
            Some(node) => *node,
            None => NodeNumber::ROOT,
        };
        self.child_by_number(Link {
            parent,
            attribute: AttributeNumber(attribute),
            value,
        })
    }

    fn copy(&self, alloc: Global, value: ValueNumber) -> Result<Variant, OutOfMemory> {
        self.value_at(value).copy(alloc)
    }
}
