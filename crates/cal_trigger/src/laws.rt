ghost use Rattle.std.specs.Prelude.{◌≡◌, [], List};
ghost use Rattle.cal_engine.specs.Answers.{answer_of};
ghost use Rattle.cal_ql.specs.declared.query.Cond.{Cond};
ghost use Rattle.cal_ql.specs.declared.query.Query.{Query};
ghost use Rattle.cal_trigger.specs.Watching.{let_through, with_conditions};
ghost use Rattle.cal_value.specs.declared.record.Rec.{Rec};

/// Without LET, the answer over the rows that a trigger lets through is the answer over all rows
/// of the query with the trigger's conditions in front of those of its WHERE.
pub fn conditions_in_front_law()
    ensures { (conds : List Cond) (q : Query) (rows : List Rec) → q.lets ≡ []
        → answer_of q (let_through conds rows) ≡ answer_of (with_conditions conds q) rows }
{}
