ghost use Rattle.cal_context.specs.Tree.{Tree, Grows};
ghost use Rattle.cal_context.specs.Snapshots.{KeepsMeanings};

/// A context grows from itself, and what has grown twice has grown.
pub fn growth_is_an_order()
    ensures same { (t : Tree) → Grows t t }
    ensures onward { (a b c : Tree) → Grows a b → Grows b c → Grows a c }
{}

/// What a number means never changes while the context grows.
pub fn numbers_stay()
    ensures { (old new : Tree) → Grows old new → KeepsMeanings old new }
{}
