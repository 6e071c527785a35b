ghost use Rattle.std.specs.Prelude.{◌≡◌, ◌<◌, ◌++◌, [], ◌∷◌, length, map, IfOk, OnOk};
ghost use Rattle.std.specs.List.{All};
ghost use Rattle.cal_value.specs.Flat.{flat};
ghost use Rattle.cal_context.specs.Snapshots.{IsIn, entry_of, meaning};
ghost use Rattle.cal_context.specs.Taking.{TakesMore};
ghost use Rattle.cal_context.specs.Tree.{Tree, path_at};
ghost use Rattle.cal_query.specs.Joining.{with_entries};
ghost use Rattle.cal_query.specs.Keeping.{HasKept};

use cal_context::{Context, Immediate, NodeNumber, Snapshot, Taker};
use cal_value::{OutOfMemory, TryCopy};
use std::alloc::Global;

/// Rows by number, kept until the globals are known for whoever waits for them.
#[derive(Drop)]
pub(crate) struct Kept<T: Drop> {
    pub alloc: Global,
    pub snapshots: Vec<Snapshot>,
    pub waiting: T,
}

impl<T: Taker + Drop> Kept<T> {
    /// No row, for a taker that has taken none. It takes no memory.
    pub fn new(alloc: Global, waiting: T) -> Kept<T>
        ensures taken { (t : Tree) → T.has_taken waiting t [] → HasKept T.has_taken result t [] }
        ensures about { T.about result.waiting ≡ T.about waiting }
    {
        Kept {
            alloc,
            snapshots: Vec::new(alloc),
            waiting,
        }
    }
}

impl<T: Taker + Drop> Taker for Kept<T> {
    ghost use Rattle.cal_query.specs.Keeping.{HasKept, HasKept-stays};

    ghost About = { T.About };

    ghost about = { λ kept. T.about kept.waiting };

    ghost has_taken = { HasKept T.has_taken };

    ghost stays = { HasKept-stays T.has_taken T.stays };

    fn take(&mut self, context: &Context, snapshot: &Snapshot) -> Result<(), OutOfMemory> {
        let _ = context;
        self.snapshots.push(copy_of(self.alloc, snapshot)?)?;
        Ok(())
    }
}

fn copy_of(alloc: Global, snapshot: &Snapshot) -> Result<Snapshot, OutOfMemory>
    ensures nodes { IfOk result (λ copy. copy.nodes.items ≡ snapshot.now.nodes.items) }
    ensures imms { IfOk result (λ copy. copy.imms.items ≡ snapshot.now.imms.items) }
{
    let nodes = Vec::from_slice(alloc, &snapshot.nodes)?;
    let imms = copies(alloc, &snapshot.imms)?;
    Ok(Snapshot { nodes, imms })
}

/// Copies of immediates.
fn copies(alloc: Global, others: &[Immediate]) -> Result<Vec<Immediate>, OutOfMemory>
    ensures { IfOk result (λ imms. imms.items ≡ others.now) }
{
    let mut imms = Vec::with_capacity(alloc, others.len())?;
    add_copies(alloc, &mut imms, others)?;
    Ok(imms)
}

/// Adds copies of immediates.
fn add_copies(
    alloc: Global,
    imms: &mut Vec<Immediate>,
    others: &[Immediate],
) -> Result<(), OutOfMemory>
    ensures { OnOk result (imms.new.items ≡ imms.old.items ++ others.now) }
{
    for imm in others {
        imms.push(Immediate {
            attribute: imm.attribute,
            value: imm.value.copy(alloc)?,
        })?;
    }
    Ok(())
}

/// All entries of a snapshot as immediates, those of its paths first.
pub(crate) fn all_immediates(
    alloc: Global,
    context: &Context,
    snapshot: &Snapshot,
) -> Result<Vec<Immediate>, OutOfMemory>
    requires { IsIn context.now snapshot.now }
    ensures within { IfOk result (λ imms.
        All (λ i. i.attribute.0 < length context.now.attributes) imms.items) }
    ensures entries { IfOk result (λ imms.
        map (entry_of context.now) imms.items ≡ flat (meaning context.now snapshot.now)) }
{
    let mut imms = Vec::new(alloc);
    for node in &snapshot.nodes {
        add_path(alloc, context, &mut imms, *node)?;
    }
    add_copies(alloc, &mut imms, &snapshot.imms)?;
    Ok(imms)
}

/// Adds the entries of a node's path.
fn add_path(
    alloc: Global,
    context: &Context,
    imms: &mut Vec<Immediate>,
    node: NodeNumber,
) -> Result<(), OutOfMemory>
    requires node { node.0 < length context.now.paths }
    requires within { All (λ i. i.attribute.0 < length context.now.attributes) imms.old.items }
    ensures within { OnOk result
        (All (λ i. i.attribute.0 < length context.now.attributes) imms.new.items) }
    ensures entries { OnOk result (map (entry_of context.now) imms.new.items
        ≡ map (entry_of context.now) imms.old.items ++ path_at context.now node) }
{
    let mut path = path_of(alloc, context, node)?;
    imms.append(&mut path)?;
    Ok(())
}

/// The entries of a node's path, gathered on the way up to the root, and then turned round.
fn path_of(
    alloc: Global,
    context: &Context,
    node: NodeNumber,
) -> Result<Vec<Immediate>, OutOfMemory>
    requires { node.0 < length context.now.paths }
    ensures within { IfOk result (λ path.
        All (λ i. i.attribute.0 < length context.now.attributes) path.items) }
    ensures entries { IfOk result (λ path.
        map (entry_of context.now) path.items ≡ path_at context.now node) }
{
    let mut path = Vec::new(alloc);
    let mut node = node;
    while let Some(link) = context.link(node) {
        path.push(Immediate {
            attribute: link.attribute,
            value: context.value_at(link.value).copy(alloc)?,
        })?;
        node = link.parent;
    }
    path.reverse();
    Ok(path)
}

/// Hands each row that was kept to a taker, with the entries of these immediates at its end.
pub(crate) fn hand_on<T: Taker>(
    context: &Context,
    kept: Vec<Snapshot>,
    mut globals: Vec<Immediate>,
    taker: &mut T,
) -> Result<(), OutOfMemory>
    requires kept { All (IsIn context.now) kept.items }
    requires globals { All (λ i. i.attribute.0 < length context.now.attributes) globals.items }
    ensures taken { OnOk result (TakesMore
        (T.has_taken taker.old context.now)
        (T.has_taken taker.new context.now)
        (map (with_entries (map (entry_of context.now) globals.items))
        (map (meaning context.now) kept.items))) }
    ensures about { OnOk result (T.about taker.new ≡ T.about taker.old) }
{
    for snapshot in kept {
        hand_on_one(context, snapshot, &mut globals, taker)?;
    }
    Ok(())
}

/// Hands on one row. The immediates are lent to it, so that none is copied.
fn hand_on_one<T: Taker>(
    context: &Context,
    mut snapshot: Snapshot,
    globals: &mut Vec<Immediate>,
    taker: &mut T,
) -> Result<(), OutOfMemory>
    requires row { IsIn context.now snapshot }
    requires globals { All (λ i. i.attribute.0 < length context.now.attributes) globals.old.items }
    ensures globals { OnOk result (globals.new.items ≡ globals.old.items) }
    ensures taken { OnOk result (TakesMore
        (T.has_taken taker.old context.now)
        (T.has_taken taker.new context.now)
        (with_entries (map (entry_of context.now) globals.old.items)
        (meaning context.now snapshot) ∷ [])) }
    ensures about { OnOk result (T.about taker.new ≡ T.about taker.old) }
{
    hand_on_lent(context, &mut snapshot, globals, taker)
}

/// The same of a row that is lent.
fn hand_on_lent<T: Taker>(
    context: &Context,
    snapshot: &mut Snapshot,
    globals: &mut Vec<Immediate>,
    taker: &mut T,
) -> Result<(), OutOfMemory>
    requires row { IsIn context.now snapshot.old }
    requires globals { All (λ i. i.attribute.0 < length context.now.attributes) globals.old.items }
    ensures globals { OnOk result (globals.new.items ≡ globals.old.items) }
    ensures taken { OnOk result (TakesMore
        (T.has_taken taker.old context.now)
        (T.has_taken taker.new context.now)
        (with_entries (map (entry_of context.now) globals.old.items)
        (meaning context.now snapshot.old) ∷ [])) }
    ensures about { OnOk result (T.about taker.new ≡ T.about taker.old) }
{
    let own = snapshot.imms.len();
    snapshot.imms.append(globals)?;
    taker.take(context, snapshot)?;
    *globals = snapshot.imms.split_off(own)?;
    Ok(())
}
