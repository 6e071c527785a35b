ghost use Rattle.std.specs.Prelude.{◌≡◌, ℕ, ◌+◌, ◌≤◌, ◌^◌, IfOk, OnOk, IfErr};

use cal_value::OutOfMemory;
use std::alloc::Global;

/// What tables of one shape come to. A table may keep its rows in any order, so what holds of
/// merging holds up to `same`.
pub trait Merging<Q> {
    /// The table was made for the shape.
    ghost made_for: { Q → Self → Type 0 };

    /// How many snapshots a table stands for.
    ghost size: { Self → ℕ };

    /// The table of a shape that stands for nothing.
    ghost empty: { Q → Self };

    /// What two tables come to.
    ghost merged: { Self → Self → Self };

    /// The two stand for the same.
    ghost same: { Self → Self → Type 0 };

    ghost same_refl: { (a : Self) → same a a };

    ghost same_sym: { (a b : Self) → same a b → same b a };

    ghost same_trans: { (a b c : Self) → same a b → same b c → same a c };

    ghost same_made: { (q : Q) (a b : Self) → same a b → made_for q a → made_for q b };

    ghost same_size: { (a b : Self) → same a b → size a ≡ size b };

    ghost same_merged: { (a b c d : Self) → same a b → same c d
        → same (merged a c) (merged b d) };

    ghost empty_made: { (q : Q) → made_for q (empty q) };

    ghost empty_size: { (q : Q) → size (empty q) ≡ 0 };

    ghost merged_made: { (q : Q) (a b : Self) → made_for q a → made_for q b
        → made_for q (merged a b) };

    ghost merged_size: { (a b : Self) → size (merged a b) ≡ size a + size b };

    /// Nothing merged is as it was.
    ghost unit: { (q : Q) (a : Self) → made_for q a → same (merged (empty q) a) a };

    /// Either of two may be merged into the other.
    ghost commutative: { (q : Q) (a b : Self) → made_for q a → made_for q b
        → same (merged a b) (merged b a) };

    /// Tables may be merged in any order.
    ghost associative: { (q : Q) (a b c : Self) → made_for q a → made_for q b → made_for q c
        → same (merged (merged a b) c) (merged a (merged b c)) };
}

/// A table that takes another one in.
pub trait Merge<Q>: Merging<Q> + Sized {
    /// A table of the shape that stands for nothing. It takes memory.
    fn start(alloc: Global, shape: &Q) -> Result<Self, OutOfMemory>
        ensures { IfOk result (λ table. Self.same table (Self.empty shape.now)) };

    /// Takes the other table in. A refusal is want of memory: the other one comes back, and this
    /// one is as it was.
    fn merge(&mut self, other: Self) -> Result<(), Self>
        requires made { (q : Q) × Self.made_for q self.old × Self.made_for q other }
        requires room { Self.size self.old + Self.size other ≤ 2 ^ 26 }
        ensures merged { OnOk result (Self.same self.new (Self.merged self.old other)) }
        ensures refused { IfErr result (λ back. (back ≡ other) × (self.new ≡ self.old)) };

    /// How many snapshots the table stands for.
    fn snapshots(&self) -> u64
        requires { Self.size self.now ≤ 2 ^ 26 }
        ensures { result ≡ Self.size self.now };
}
