ghost use Rattle.std.specs.Prelude.{◌≡◌, ◌↔◌, ℕ, List, Ok};
ghost use Rattle.cal_ql.specs.declared.query.Query.{Query};
ghost use Rattle.cal_ql.specs.Clauses.{reading};
ghost use Rattle.cal_ql.specs.FirstFault.{HasFault};
ghost use Rattle.cal_ql.specs.Grammar.{Means};
ghost use Rattle.cal_ql.specs.Tokens.{Fault};
ghost use Rattle.cal_ql.specs.Valid.{IsSaid, IsValidQuery};
ghost use Rattle.cal_ql.specs.Writing.{query_text};

/// The law of meaning: the grammar and the reading from left to right agree, no text means two
/// queries or has two faults, a text has a fault exactly where it means no query, and what it means
/// is valid.
pub fn meaning_law()
    ensures read { (text : List ℕ) (query : Query)
        → (Means text query ↔ (reading text ≡ Ok query)) }
    ensures one { (text : List ℕ) (query other : Query)
        → Means text query → Means text other → query ≡ other }
    ensures one_fault { (text : List ℕ) (fault other : Fault)
        → HasFault text fault → HasFault text other → fault ≡ other }
    ensures fault { (text : List ℕ)
        → (((fault : Fault) × HasFault text fault) ↔ ((query : Query) → ¬ Means text query)) }
    ensures valid { (text : List ℕ) (query : Query) → Means text query → IsValidQuery query }
{}

/// The law of writing: the canonical text of a query that is valid, and that a text can say, means
/// this query; and what a text means is such a query.
pub fn writing_law()
    ensures written { (query : Query) → IsValidQuery query → IsSaid query
        → Means (query_text query) query }
    ensures said { (text : List ℕ) (query : Query) → Means text query → IsSaid query }
{}
