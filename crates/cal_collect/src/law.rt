//! What senders may hand over.
ghost use Rattle.std.specs.Prelude.{List, []};
ghost use Rattle.cal_table.specs.declared.shape.TableShape.{TableShape as Shape};

use crate::Part;
use cal_mail::SendLaw;
use std::marker::{Brand, PhantomData};

/// The shapes of the channels' tables, by the channels' numbers. It has a ghost member alone, so a
/// call may pick them by passing `Brand`, as a program does that knows them only as it runs.
pub trait Shapes {
    ghost shapes: { List Shape };
}

impl Shapes for Brand {
    ghost shapes = { [] };
}

/// What may be sent: tables of the channels' shapes, and of each sender for each channel those of
/// 2^20 snapshots together.
pub struct PartLaw<S> {
    shapes: PhantomData<S>,
}

impl<S: Shapes> SendLaw<Part> for PartLaw<S> {
    ghost use Rattle.cal_collect.specs.Parts.{MaySend};

    ghost may_send = { MaySend S.shapes };
}
