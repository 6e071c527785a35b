//! A query over those records that triggers let through.
ghost use Rattle.std.specs.Prelude.{◌≡◌, [], ◌∷◌, ◌++◌, List, IfOk, OnOk, OnErr};
ghost use Rattle.cal_filter.specs.Conditions.{where_holds};
ghost use Rattle.cal_ql.specs.Valid.{IsValidQuery};
ghost use Rattle.cal_ql.specs.declared.query.Query.{Query as AQuery};
ghost use Rattle.cal_value.specs.declared.record.Rec.{Rec as ARecord};
ghost use Rattle.cal_engine.specs.Answers.{answer_of};
ghost use Rattle.cal_engine.specs.Folding.{StandsFor};
ghost use Rattle.cal_trigger.specs.Watching.{let_through};

use crate::Trigger;
use cal_engine::Fold;
use cal_ql::Query;
use cal_rowset::Rowset;
use cal_value::{OutOfMemory, Rec};
use std::alloc::Global;
use std::marker::Model;

/// A query on those records that triggers let through. Contracts see the fold of these.
#[derive(Drop)]
pub struct Watch {
    fold: Fold,
}

impl Model for Watch {
    ghost use Rattle.cal_engine.specs.Folding.{Folded};

    ghost Value = { Folded };

    ghost view = { λ w. w.fold };
}

impl Watch {
    /// The watch that has let no record through. The query is copied.
    pub fn new(alloc: Global, query: &Query) -> Result<Watch, OutOfMemory>
        requires { IsValidQuery query.now }
        ensures { IfOk result (λ watch. StandsFor query.now [] watch) }
    {
        let fold = Fold::new(alloc, query)?;
        Ok(Watch { fold })
    }

    /// Adds a record where the trigger lets it through, and answers whether it does. The trigger is
    /// asked before LET. A number above 2^86 in magnitude, or a 2^32nd one in a group, is answered
    /// as want of memory is.
    pub fn add(&mut self, trigger: &Trigger, rec: Rec) -> Result<bool, OutOfMemory>
        ensures answer { IfOk result (λ through. through ≡ where_holds trigger.now.conds rec) }
        ensures ok { OnOk result ((q : AQuery) (rs : List ARecord) → StandsFor q rs self.old
            → StandsFor q (rs ++ let_through trigger.now.conds (rec ∷ [])) self.new) }
        ensures err { OnErr result (self.new ≡ self.old) }
    {
        let through = trigger.holds(&rec);
        if through {
            self.fold.add(rec)?;
        }
        Ok(through)
    }

    /// The answer over the records that were let through. It takes memory and time in what the
    /// watch holds, and n log n comparisons where rows are ordered.
    pub fn finish(self) -> Result<Rowset, OutOfMemory>
        ensures { IfOk result (λ answer. (q : AQuery) (rs : List ARecord)
            → StandsFor q rs self → answer ≡ answer_of q rs) }
    {
        self.fold.finish()
    }
}
