ghost use Rattle.std.specs.Prelude.{◌≡◌, IfOk};

use crate::query::{Agg, Cond, Item, Let, OrderKey, Query, Test};
use cal_value::{OutOfMemory, Seq, TryCopy};
use std::alloc::Global;

impl TryCopy for Let {
    fn copy(&self, alloc: Global) -> Result<Self, OutOfMemory> {
        Ok(Let {
            name: self.name.copy(alloc)?,
            op: self.op,
            args: self.args.copy(alloc)?,
            n: self.n,
        })
    }
}

impl TryCopy for Item {
    fn copy(&self, alloc: Global) -> Result<Self, OutOfMemory> {
        Ok(Item {
            name: self.name.copy(alloc)?,
            header: self.header.copy(alloc)?,
        })
    }
}

impl TryCopy for Agg {
    fn copy(&self, alloc: Global) -> Result<Self, OutOfMemory> {
        Ok(Agg {
            kernel: self.kernel,
            attr: self.attr.copy(alloc)?,
            name: self.name.copy(alloc)?,
        })
    }
}

impl TryCopy for Test {
    fn copy(&self, alloc: Global) -> Result<Self, OutOfMemory> {
        Ok(match self {
            Test::Has => Test::Has,
            Test::Eq(value) => Test::Eq(value.copy(alloc)?),
            Test::Lt(value) => Test::Lt(value.copy(alloc)?),
            Test::Gt(value) => Test::Gt(value.copy(alloc)?),
            Test::Le(value) => Test::Le(value.copy(alloc)?),
            Test::Ge(value) => Test::Ge(value.copy(alloc)?),
        })
    }
}

impl TryCopy for Cond {
    fn copy(&self, alloc: Global) -> Result<Self, OutOfMemory> {
        Ok(Cond {
            not: self.not,
            name: self.name.copy(alloc)?,
            test: self.test.copy(alloc)?,
        })
    }
}

impl TryCopy for OrderKey {
    fn copy(&self, alloc: Global) -> Result<Self, OutOfMemory> {
        Ok(OrderKey {
            name: self.name.copy(alloc)?,
            down: self.down,
        })
    }
}

fn copy_list<T: TryCopy>(
    alloc: Global,
    list: &Option<Seq<T>>,
) -> Result<Option<Seq<T>>, OutOfMemory>
    ensures { IfOk result (λ copied. copied ≡ list.now) }
{
    match list {
        Some(items) => Ok(Some(items.copy(alloc)?)),
        None => Ok(None),
    }
}

impl TryCopy for Query {
    fn copy(&self, alloc: Global) -> Result<Self, OutOfMemory> {
        Ok(Query {
            lets: self.lets.copy(alloc)?,
            select: copy_list(alloc, &self.select)?,
            aggs: self.aggs.copy(alloc)?,
            conds: self.conds.copy(alloc)?,
            group: copy_list(alloc, &self.group)?,
            order: self.order.copy(alloc)?,
            format: self.format,
        })
    }
}
