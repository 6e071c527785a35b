//! Laws of the traces of runs. Nothing here is ever run.

ghost use Rattle.std.specs.Prelude.{◌≤◌, ◌^◌, All, Contains, IsPermutation, List, ◌++◌, length};
ghost use Rattle.std.specs.List.{IsDistinct};
ghost use Rattle.cal_context.specs.Lists.{AreApart};
ghost use Rattle.cal_filter.specs.Named.{HasSmallNumbers};
ghost use Rattle.cal_profile.specs.Answers.{AnswersFor};
ghost use Rattle.cal_profile.specs.Coarser.{IsCoarser};
ghost use Rattle.cal_profile.specs.Declared.{HasSums, IsTrace};
ghost use Rattle.cal_profile.specs.Groups.{channel_query, group_records};
ghost use Rattle.cal_ql.specs.declared.query.Query.{Query};
ghost use Rattle.cal_rowset.specs.Texts.{is_same};
ghost use Rattle.cal_run.specs.RunAttributes.{AreOfRun, run_attributes};
ghost use Rattle.cal_run.specs.Runs.{snapshots};
ghost use Rattle.cal_script.specs.Parts.{attribute_names};
ghost use Rattle.cal_script.specs.Reading.{IsValidScript};
ghost use Rattle.cal_script.specs.declared.journal.Journal.{Journal};
ghost use Rattle.cal_script.specs.declared.script.Channel.{Channel};
ghost use Rattle.cal_script.specs.declared.script.Script.{Script};
ghost use Rattle.cal_value.specs.declared.attribute.Attribute.{Attribute};
ghost use Rattle.cal_value.specs.declared.record.Rec.{Rec};

/// The law of traces: what a channel of a valid script takes in a run, by whatever journal, are
/// snapshots of the attributes of the run, under names that go together, and no sum over them is
/// too large.
pub fn traces_law()
    ensures { (script : Script) (journal : Journal) (channel : Channel)
        → IsValidScript script → Contains script.channels channel
        → IsTrace (run_attributes script) channel.query (snapshots script journal channel) }
{}

/// The law of profiles: the records of a channel's groups answer for its trace, in each query that
/// asks no more than the channel keeps.
pub fn profiles_law()
    ensures { (script : Script) (journal : Journal) (channel : Channel) (q : Query)
        → IsValidScript script → Contains script.channels channel
        → IsCoarser script.attributes channel.query q
        → AnswersFor q
        (group_records (channel_query channel.query) (snapshots script journal channel))
        (snapshots script journal channel) }
{}

/// The law of names: no two attributes that a valid script declares have one name, and no two that
/// its run has. So where each of some attributes of a run stands once, their names are apart.
pub fn names_law()
    ensures declared { (script : Script) → IsValidScript script
        → IsDistinct is_same (attribute_names script.attributes) }
    ensures all { (script : Script) (attributes : List Attribute) → IsValidScript script
        → AreOfRun script attributes → AreApart attributes
        → IsDistinct is_same (attribute_names attributes) }
{}

/// The law of limits: a channel takes at most 2^20 snapshots in a run of a valid script, no number
/// in them is above 2^86 in magnitude, and no sum over a part of them is too large.
pub fn limits_law()
    ensures few { (script : Script) (journal : Journal) (channel : Channel) → IsValidScript script
        → length (snapshots script journal channel) ≤ 2 ^ 20 }
    ensures small { (script : Script) (journal : Journal) (channel : Channel)
        → IsValidScript script → All HasSmallNumbers (snapshots script journal channel) }
    ensures sums { (script : Script) (journal : Journal) (channel : Channel)
        → IsValidScript script → Contains script.channels channel → (part rest : List Rec)
        → IsPermutation (part ++ rest) (snapshots script journal channel)
        → HasSums channel.query part }
{}
