ghost use Rattle.std.specs.Prelude.{◌≡◌, IfOk};
ghost use Rattle.cal_snap.specs.Numbered.{taken};

use crate::parts::{joined, nodes};
use cal_value::{Attribute, Entry, OutOfMemory, Seq};
use cal_words::NodeId;
use std::alloc::Global;

/// What a channel sees at one moment: the last node of each path, and the entries that stand at no
/// node. Its order is Giltmoth's rule: the thread's nodes before the process's, and the entries of
/// the services before the last values of the slots.
#[derive(Debug, Drop)]
pub struct Snap {
    pub refs: Seq<NodeId>,
    pub imms: Seq<Entry>,
}

/// The snapshot of these parts: the nodes of the thread's slots and of the process's, and the
/// entries of the services (`head`) and of the slots (`tops`). It takes time and memory in the
/// number of nodes and of `tops`.
pub fn take_snap(
    alloc: Global,
    _attrs: &Seq<Attribute>,
    head: Seq<Entry>,
    mine: &Seq<NodeId>,
    process: &Seq<NodeId>,
    tops: Seq<Entry>,
) -> Result<Snap, OutOfMemory>
    ensures { IfOk result (λ snap. snap ≡ taken head mine.now process.now tops) }
{
    let refs = nodes(alloc, mine, process)?;
    Ok(Snap {
        refs: Seq::from_vec(refs),
        imms: Seq::from_vec(joined(head.into_vec(), tops.into_vec())?),
    })
}
