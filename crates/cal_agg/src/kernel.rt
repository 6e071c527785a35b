ghost use Rattle.std.specs.Prelude.{◌≡◌, ◌≤◌, ◌^◌, List, [], ◌∷◌, ◌++◌, length, All, Option};
ghost use Rattle.cal_agg.specs.declared.num.Num.{Num as Number};

use crate::Num;

/// What a list of numbers comes to, kept so that lists can be added up in parts.
pub trait Kernel: Sized {
    /// The kernel to which the numbers of a list were added.
    ghost over: { List Number → Self };

    /// What two kernels come to.
    ghost merged: { Self → Self → Self };

    /// What a kernel comes to.
    ghost shown: { Self → Option Number };

    /// What the numbers of a list come to.
    ghost meaning: { List Number → Option Number };

    /// What may be added.
    ghost takes: { Number → Type 0 };

    /// What it holds is within its limits.
    ghost has_room: { Self → Type 0 };

    /// The kernel to which nothing was added.
    fn start() -> Self
        ensures { result ≡ over [] };

    /// Adds a number.
    fn add(&mut self, n: Num)
        requires taken { takes n }
        requires room { has_room (merged self.old (over (n ∷ []))) }
        ensures { self.new ≡ merged self.old (over (n ∷ [])) };

    /// Adds what was added to another kernel.
    fn merge(&mut self, other: &Self)
        requires { has_room (merged self.old other.now) }
        ensures { self.new ≡ merged self.old other.now };

    /// What the numbers that were added come to.
    fn value(&self) -> Option<Num>
        ensures held { result ≡ shown self.now }
        ensures added { (ns : List Number) → self.now ≡ over ns → result ≡ meaning ns };

    /// Nothing added is the unit of merging.
    ghost unit: { (k : Self) → merged (over []) k ≡ k };

    /// Either of two may be merged into the other.
    ghost commutative: { (k l : Self) → merged k l ≡ merged l k };

    /// Kernels may be merged in any order.
    ghost associative: { (k l m : Self) → merged (merged k l) m ≡ merged k (merged l m) };

    /// Adding a concatenation is merging.
    ghost concatenation: { (ns ms : List Number) → over (ns ++ ms) ≡ merged (over ns) (over ms) };

    /// A trillion numbers that may be added stay within the limits.
    ghost room: { (ns : List Number) → All takes ns → length ns ≤ 2 ^ 40 → has_room (over ns) };
}
