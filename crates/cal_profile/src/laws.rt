//! Laws of answers. Nothing here is ever run.

ghost use Rattle.std.specs.Prelude.{◌≡◌, List, [], map, true};
ghost use Rattle.std.specs.List.{AllZip, filter_map};
ghost use Rattle.cal_engine.specs.Answers.{answer_of};
ghost use Rattle.cal_engine.specs.Rows.{is_aggregated};
ghost use Rattle.cal_filter.specs.Kept.{kept};
ghost use Rattle.cal_profile.specs.Answers.{AnswerAlike, AnswersFor, SameRows};
ghost use Rattle.cal_profile.specs.Coarser.{IsCoarser};
ghost use Rattle.cal_profile.specs.Declared.{IsTrace};
ghost use Rattle.cal_profile.specs.Groups.{HasPlainGroups, channel_query, group_records};
ghost use Rattle.cal_profile.specs.StandIns.{IsAddable, StandsFor, all_of};
ghost use Rattle.cal_profile.specs.TableRows.{AreRowsOf, KeyedRow, row_record};
ghost use Rattle.cal_ql.specs.declared.query.Query.{Query};
ghost use Rattle.cal_script.specs.declared.script.ChannelQuery.{ChannelQuery};
ghost use Rattle.cal_value.specs.declared.attribute.Attribute.{Attribute};
ghost use Rattle.cal_value.specs.declared.record.Rec.{Rec};

/// Records that stand for the parts of a list answer as the list does.
pub fn stand_ins_answer_alike()
    ensures { (q : Query) (rs : List Rec) (parts : List (List Rec))
        → IsAddable q → AllZip (StandsFor q) rs parts → AnswerAlike q rs (all_of parts) }
{}

/// Lists that answer alike have the same rows, in whatever order.
pub fn alike_answers_have_the_same_rows()
    ensures { (q : Query) (rs ss : List Rec) → is_aggregated q ≡ true → AnswerAlike q rs ss
        → SameRows (answer_of q rs).rows.rows (answer_of q ss).rows.rows }
{}

/// Lists that answer alike have the same records of groups, in the order of groups.
pub fn alike_answers_have_one_profile()
    ensures { (q : Query) (rs ss : List Rec) → is_aggregated q ≡ true → q.order ≡ []
        → AnswerAlike q rs ss → HasPlainGroups q (filter_map (kept q) ss)
        → group_records q rs ≡ group_records q ss }
{}

/// A query that asks no more than a channel keeps has the same answer on the records of the
/// channel's groups as on its trace, but for the order of rows.
pub fn profiles_answer_for_traces()
    ensures { (attributes : List Attribute) (channel : ChannelQuery) (trace : List Rec) (q : Query)
        → IsTrace attributes channel trace → IsCoarser attributes channel q
        → AnswersFor q (group_records (channel_query channel) trace) trace }
{}

/// The records in place of a table's rows have the same records of groups as the snapshots that the
/// table stands for: the same list.
pub fn tables_have_the_groups_of_traces()
    ensures { (attributes : List Attribute) (channel : ChannelQuery) (trace : List Rec)
        (rows : List KeyedRow)
        → IsTrace attributes channel trace → AreRowsOf channel trace rows
        → group_records (channel_query channel) (map (row_record channel) rows)
        ≡ group_records (channel_query channel) trace }
{}
