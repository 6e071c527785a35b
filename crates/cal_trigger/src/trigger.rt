//! A function that decides conditions, kept beside the fact that it does.
ghost use Rattle.std.specs.Prelude.{◌≡◌};
ghost use Rattle.cal_filter.specs.Conditions.{where_holds};
ghost use Rattle.cal_trigger.specs.Deciding.{Decides};

use cal_ql::Cond;
use cal_value::{Rec, Seq};

/// Conditions, and a function that decides them on every record.
#[derive(Drop)]
pub struct Trigger {
    pub conds: Seq<Cond>,
    call: fn(&Rec) -> bool,
    ghost decides: { Decides conds (pre call) (post call) },
}

impl Trigger {
    /// A trigger that calls this function. It takes no memory.
    pub fn new(conds: Seq<Cond>, call: fn(&Rec) -> bool) -> Trigger
        requires { Decides conds (pre call) (post call) }
        ensures { result.conds ≡ conds }
    {
        Trigger { conds, call }
    }

    /// The conditions that it decides.
    pub fn conds(&self) -> &Seq<Cond>
        ensures { result.now ≡ self.now.conds }
    {
        &self.conds
    }

    /// Whether its conditions hold of a record, which its function decides. It takes no memory.
    pub fn holds(&self, rec: &Rec) -> bool
        ensures { result ≡ where_holds self.now.conds rec.now }
    {
        (self.call)(rec)
    }
}
