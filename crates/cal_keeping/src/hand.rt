//! Where a thread's flushed parts go.
use cal_channel::ThreadChannel;
use cal_script::Reply;
use cal_value::OutOfMemory;

/// Where a thread's flushed parts go: into the books of a run, say. Contracts see what the thread
/// has done for each channel, by the channels' numbers.
pub trait PartHand {
    ghost use Rattle.std.specs.Prelude.{◌≡◌, ◌≢◌, ℕ, List, IfOk, OnOk, Some};
    ghost use Rattle.cal_keeping.specs.Hands.{AccountOf, Hands, MayHand};
    ghost use Rattle.cal_table.specs.Tables.{TableValue};
    ghost use Rattle.cal_table.specs.declared.shape.TableShape.{TableShape};

    // what the thread has done for the channel at a place
    ghost account: { Self → ℕ → AccountOf };

    // it is the hand of the thread of a number, and takes tables of these shapes, one for each
    // channel
    ghost takes: { Self → ℕ → List TableShape → Type 0 };

    // parts go where they went before
    ghost stays: { Self → Self → Type 0 };

    // and so they do however often
    ghost same: { (hand : Self) → stays hand hand };

    ghost later: { (one two three : Self) → stays one two → stays two three → stays one three };

    /// Gives what a channel has taken since its last flush, by the channel's number. It says
    /// whether that was merged, or with which other thread's turn it met. An `Err` is want of
    /// memory.
    fn flush(&mut self, channel: u32, kept: &mut ThreadChannel) -> Result<Reply, OutOfMemory>
        requires { MayHand account takes self.old channel kept.old }
        ensures takes { OnOk result ((thread : ℕ) (shapes : List TableShape)
            → takes self.old thread shapes → takes self.new thread shapes) }
        ensures handed { IfOk result (λ reply. (thread : ℕ) (shapes : List TableShape)
            (part : TableValue) → takes self.old thread shapes → kept.old.table ≡ Some part
            → Hands thread (account self.old channel) (account self.new channel)
            kept.old kept.new part reply) }
        ensures others { OnOk result ((place : ℕ) → place ≢ channel
            → account self.new place ≡ account self.old place) }
        ensures stays { OnOk result (stays self.old self.new) };
}
