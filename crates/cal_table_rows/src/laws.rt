//! Laws of tables that count records. Nothing here is ever run.

ghost use Rattle.std.specs.Prelude.{◌≡◌, List, flat_map, map};
ghost use Rattle.std.specs.Prelude.{IsPermutation};
ghost use Rattle.std.specs.List.{AllZip, IsDistinct};
ghost use Rattle.std.specs.declared.random_state.RandomState.{RandomState as Hashers};
ghost use Rattle.cal_agg.specs.declared.row.AggRow.{AggRow};
ghost use Rattle.cal_channel.specs.Channels.{Counts};
ghost use Rattle.cal_context.specs.Lists.{IsFront};
ghost use Rattle.cal_once.specs.declared.seat.RowSeat.{RowSeat};
ghost use Rattle.cal_profile.specs.Declared.{IsTrace};
ghost use Rattle.cal_profile.specs.Groups.{channel_query, group_records};
ghost use Rattle.cal_profile.specs.TableRows.{AreRowsOf, KeyedRow, row_record};
ghost use Rattle.cal_rowset.specs.Texts.{is_same};
ghost use Rattle.cal_script.specs.Parts.{attribute_names};
ghost use Rattle.cal_script.specs.declared.script.ChannelQuery.{ChannelQuery};
ghost use Rattle.cal_script.specs.declared.script.Script.{Script};
ghost use Rattle.cal_table.specs.Rows.{Row};
ghost use Rattle.cal_table.specs.Shapes.{shape_of};
ghost use Rattle.cal_table.specs.Tables.{TableValue};
ghost use Rattle.cal_table.specs.declared.key.TableKey.{TableKey};
ghost use Rattle.cal_table_rows.specs.Meanings.{HasRows, MeanRowsOf, NamesAreApart, RowMeans};
ghost use Rattle.cal_table_rows.specs.PartSums.{HasPartSums};
ghost use Rattle.cal_tree.specs.Seats.{IsTreeSeat};
ghost use Rattle.cal_tree.specs.declared.tree.Tree.{Tree};
ghost use Rattle.cal_value.specs.declared.attribute.Attribute.{Attribute};
ghost use Rattle.cal_value.specs.declared.record.Rec.{Rec};
ghost use Rattle.cal_words.specs.declared.sort.NodeSort.{NodeSort};

/// The rows of a table of a channel's shape that counts records mean the rows of the channel's
/// table of these records: each key once, and each record's.
pub fn tables_have_the_rows_of_records()
    ensures { (attributes : List Attribute) (script : Script) (tree : Tree)
        (seat : RowSeat NodeSort) (channel : ChannelQuery) (hashers : Hashers)
        (table : TableValue) (keys : List TableKey) (held : List AggRow) (recs : List Rec)
        → IsTreeSeat tree seat → NamesAreApart attributes script
        → table.shape ≡ shape_of hashers channel.keys channel.values attributes
        → HasRows table keys held → Counts attributes script tree seat table recs
        → MeanRowsOf attributes script tree seat channel recs table.rows }
{}

/// Rows mean one list of rows: who reads what each row means has read that list.
pub fn rows_have_one_meaning()
    ensures { (attributes : List Attribute) (script : Script) (tree : Tree)
        (seat : RowSeat NodeSort) (rows : List Row) (one other : List KeyedRow)
        → IsTreeSeat tree seat → NamesAreApart attributes script
        → AllZip (RowMeans attributes script tree seat) rows one
        → AllZip (RowMeans attributes script tree seat) rows other → one ≡ other }
{}

/// Where all names of a run are apart, so are those of its script, whose attributes stand in front.
pub fn names_of_runs_are_apart()
    ensures { (attributes : List Attribute) (script : Script)
        → IsFront script.attributes attributes → IsDistinct is_same (attribute_names attributes)
        → NamesAreApart attributes script }
{}

/// The records in place of the rows of several tables have, together, the records of groups that
/// all snapshots have which the tables stand for, where no sum over a part of these is too large: a
/// group may stand in several of the tables.
pub fn tables_together_have_the_groups_of_traces()
    ensures { (attributes : List Attribute) (channel : ChannelQuery) (trace : List Rec)
        (parts : List (List Rec)) (keyed : List (List KeyedRow))
        → IsTrace attributes channel trace → HasPartSums channel trace
        → IsPermutation (flat_map (λ (part : List Rec). part) parts) trace
        → AllZip (AreRowsOf channel) parts keyed
        → group_records (channel_query channel)
        (flat_map (λ (rows : List KeyedRow). map (row_record channel) rows) keyed)
        ≡ group_records (channel_query channel) trace }
{}
