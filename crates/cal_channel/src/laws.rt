ghost use Rattle.std.specs.Prelude.{◌≡◌, ℕ, ◌<◌, ◌^◌, Bool, List, [], length, All};
ghost use Rattle.std.specs.Prelude.{Option, Some};
ghost use Rattle.cal_channel.specs.Channels.{Counts, HasSmallNumber, HasTaken};
ghost use Rattle.cal_channel.specs.Values.{ChannelValue, HasRoom, new_channel, started_at};
ghost use Rattle.cal_channel.specs.Values.{with_table};
ghost use Rattle.cal_once.specs.Seats.{view};
ghost use Rattle.cal_once.specs.Views.{KnowsMore};
ghost use Rattle.cal_once.specs.declared.seat.RowSeat.{RowSeat};
ghost use Rattle.cal_run.proofs.FitLemmas.{FitsBoard, MayBeGood};
ghost use Rattle.cal_run.specs.Snapshots.{Sight, snapshot_of};
ghost use Rattle.cal_run.specs.declared.operation.Operation.{Operation as AnOperation};
ghost use Rattle.cal_script.specs.declared.script.Channel.{Channel as AChannel};
ghost use Rattle.cal_script.specs.declared.script.Script.{Script};
ghost use Rattle.cal_table.specs.Tables.{TableValue, empty_table};
ghost use Rattle.cal_table.specs.declared.shape.TableShape.{TableShape as AShape};
ghost use Rattle.cal_tree.specs.declared.tree.Tree.{Tree};
ghost use Rattle.cal_value.specs.declared.attribute.Attribute.{Attribute};
ghost use Rattle.cal_value.specs.declared.record.Rec.{Rec};
ghost use Rattle.cal_words.specs.declared.sort.NodeSort.{NodeSort};

/// What a channel has taken it has taken for good, however much its thread's seat learns of the
/// tree; and so it is with a part of its table.
pub fn taken_for_good()
    ensures channel { (attributes : List Attribute) (script : Script) (tree : Tree)
        (old new : RowSeat NodeSort) (c : ChannelValue) (taken unflushed : List Rec)
        → KnowsMore (view old) (view new)
        → HasTaken attributes script tree old c taken unflushed
        → HasTaken attributes script tree new c taken unflushed }
    ensures part { (attributes : List Attribute) (script : Script) (tree : Tree)
        (old new : RowSeat NodeSort) (part : TableValue) (recs : List Rec)
        → KnowsMore (view old) (view new)
        → Counts attributes script tree old part recs
        → Counts attributes script tree new part recs }
{}

/// A channel that was made has taken nothing, and its start reading changes nothing of what it has
/// taken.
pub fn taken_at_start()
    ensures made { (attributes : List Attribute) (script : Script) (tree : Tree)
        (seat : RowSeat NodeSort) (has_trace : Bool) (shape : Option AShape)
        → HasTaken attributes script tree seat (new_channel has_trace shape) [] [] }
    ensures started { (attributes : List Attribute) (script : Script) (tree : Tree)
        (seat : RowSeat NodeSort) (c : ChannelValue) (reading : ℕ) (taken unflushed : List Rec)
        → HasTaken attributes script tree seat c taken unflushed
        → HasTaken attributes script tree seat (started_at c reading) taken unflushed }
{}

/// A part of a channel stands for exactly what wasn't flushed yet. Behind it nothing is unflushed;
/// put back, all is again.
pub fn parts_of_channels()
    ensures part { (attributes : List Attribute) (script : Script) (tree : Tree)
        (seat : RowSeat NodeSort) (c : ChannelValue) (part : TableValue)
        (taken unflushed : List Rec) → c.table ≡ Some part
        → HasTaken attributes script tree seat c taken unflushed
        → Counts attributes script tree seat part unflushed }
    ensures left { (attributes : List Attribute) (script : Script) (tree : Tree)
        (seat : RowSeat NodeSort) (c : ChannelValue) (shape : AShape) (taken unflushed : List Rec)
        → HasTaken attributes script tree seat c taken unflushed
        → HasTaken attributes script tree seat (with_table c (empty_table shape)) taken [] }
    ensures back { (attributes : List Attribute) (script : Script) (tree : Tree)
        (seat : RowSeat NodeSort) (c : ChannelValue) (part : TableValue)
        (taken unflushed recs : List Rec)
        → HasTaken attributes script tree seat c taken unflushed
        → Counts attributes script tree seat part recs
        → HasTaken attributes script tree seat (with_table c part) taken recs }
{}

/// A channel has room for a snapshot where fewer than 2^20 records are unflushed, as in any run.
pub fn room_for_snapshots()
    ensures { (attributes : List Attribute) (script : Script) (tree : Tree)
        (seat : RowSeat NodeSort) (c : ChannelValue) (taken unflushed : List Rec)
        → HasTaken attributes script tree seat c taken unflushed
        → length unflushed < 2 ^ 20 → HasRoom c }
{}

/// The numbers that a snapshot shows are of 64 bits, where its boards fit a script, its reading has
/// 64 bits, and its operation is one of a line of the script. So it can be taken (`CanTake`).
pub fn numbers_of_snapshots()
    ensures { (script : Script) (s : Sight) (channel : AChannel) (op : Option AnOperation)
        → FitsBoard script s.mine → FitsBoard script s.process → s.reading < 2 ^ 64
        → MayBeGood script op
        → All HasSmallNumber (snapshot_of script s channel op).imms }
{}
