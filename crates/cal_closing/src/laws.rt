//! What the tables that a channel leaves stand for.
ghost use Rattle.std.specs.Prelude.{◌≡◌, ℕ, List, Some};
ghost use Rattle.cal_book.specs.declared.view.Account.{Account as AnAccount};
ghost use Rattle.cal_channel.specs.Channels.{CountTogether};
ghost use Rattle.cal_channel.specs.Values.{ChannelValue};
ghost use Rattle.cal_closing.specs.Parts.{AreOfShape, AreTablesOf};
ghost use Rattle.cal_closing.specs.Seats.{given_by};
ghost use Rattle.cal_closing.specs.Shares.{AreShares, IsShare};
ghost use Rattle.cal_once.specs.Seats.{view};
ghost use Rattle.cal_once.specs.Views.{KnowsMore};
ghost use Rattle.cal_once.specs.declared.seat.RowSeat.{RowSeat};
ghost use Rattle.cal_process.specs.declared.common.Common.{Common};
ghost use Rattle.cal_replay.specs.Channels.{HasShown, joined};
ghost use Rattle.cal_script.specs.declared.script.Script.{Script};
ghost use Rattle.cal_table.specs.Tables.{TableValue};
ghost use Rattle.cal_table.specs.declared.shape.TableShape.{TableShape as AShape};
ghost use Rattle.cal_tree.specs.declared.tree.Tree.{Tree};
ghost use Rattle.cal_value.specs.declared.attribute.Attribute.{Attribute};
ghost use Rattle.cal_value.specs.declared.record.Rec.{Rec};
ghost use Rattle.cal_words.specs.declared.sort.NodeSort.{NodeSort};

/// A thread's share of a channel is what the channel has taken on the thread's lines, as the
/// thread's own seat at the tree knew it, and as any seat knows it that knows more.
pub fn thread_share_law()
    ensures { (common : Common) (attributes : List Attribute) (own seat : RowSeat NodeSort)
        (shape : AShape) (kept : ChannelValue) (given : List TableValue) (left : TableValue)
        (taken : List Rec) (last : ℕ) → KnowsMore (view own) (view seat)
        → HasShown common attributes own kept given taken last → kept.table ≡ Some left
        → AreOfShape shape given → left.shape ≡ shape
        → IsShare attributes common.script.now common.tree seat shape given left taken }
{}

/// The tables that `close_channel` gives count, together, the records that all threads have taken:
/// those of the first one, then those of the second one, and so on.
pub fn closed_channel_law()
    ensures { (attributes : List Attribute) (script : Script) (tree : Tree)
        (seat : RowSeat NodeSort) (shape : AShape) (accounts : List (AnAccount TableValue))
        (lefts : List TableValue) (takens : List (List Rec)) (tables : List TableValue)
        → AreShares attributes script tree seat shape accounts lefts takens
        → AreTablesOf shape (given_by accounts) lefts tables
        → CountTogether attributes script tree seat tables (joined takens) }
{}
