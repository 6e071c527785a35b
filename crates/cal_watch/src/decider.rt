//! Whoever decides one condition on every record.
ghost use Rattle.std.specs.Prelude.{◌≡◌, [], ◌∷◌, false};
ghost use Rattle.cal_filter.specs.Conditions.{where_holds};
ghost use Rattle.cal_watch.specs.Asking.{has_name};

use cal_value::{Attribute, Rec};

/// Whoever decides one condition of WHERE, which has no `not`, on every record.
pub(crate) trait Decider {
    ghost use Rattle.cal_ql.specs.declared.query.Cond.{Cond};

    // the condition
    ghost condition: { Cond };

    /// Whether an attribute has the condition's name.
    fn is_of(&self, attribute: &Attribute) -> bool
        ensures { result ≡ has_name condition attribute.now };

    /// Whether the condition holds of a record. It takes no memory.
    fn holds(&self, rec: &Rec) -> bool
        ensures { result ≡ where_holds (condition ∷ []) rec.now };

    // it has no `not`
    ghost plain: { condition.not ≡ false };
}
