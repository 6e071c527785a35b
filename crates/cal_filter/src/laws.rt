//! What stays so while the context grows, and while LET adds entries.
ghost use Rattle.cal_context.specs.Tree.{Grows, Tree};
ghost use Rattle.cal_filter.specs.Kept.{with_lets};
ghost use Rattle.cal_filter.specs.Named.{HasSmallNumbers};
ghost use Rattle.cal_filter.specs.Ready.{IsFilter};
ghost use Rattle.cal_filter.specs.declared.filter.Filter.{Filter};
ghost use Rattle.cal_ql.specs.declared.query.Query.{Query};
ghost use Rattle.cal_value.specs.declared.record.Rec.{Rec};

/// A filter for a query stays one while the context grows.
pub fn filters_stay()
    ensures { (old new : Tree) (q : Query) (f : Filter)
        → Grows old new → IsFilter old q f → IsFilter new q f }
{}

/// The numbers that LET adds to a record are no larger than the record's may be.
pub fn numbers_stay_small()
    ensures { (q : Query) (r : Rec) → HasSmallNumbers r → HasSmallNumbers (with_lets q.lets r) }
{}
