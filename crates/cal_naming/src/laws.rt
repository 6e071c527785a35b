ghost use Rattle.std.specs.Prelude.{List, IsPermutation};
ghost use Rattle.cal_naming.specs.Naming.{IsNaming};
ghost use Rattle.cal_naming.specs.declared.reply.NameReply.{NameReply};
ghost use Rattle.cal_value.specs.declared.attribute.Attribute.{Attribute};

/// The law of any order: kept declarations in another order are those of the same naming.
pub fn any_order_law()
    ensures { (threads : List (List Attribute)) (kept other : List Attribute)
        (replies : List (List NameReply)) → IsPermutation kept other →
        IsNaming threads kept replies → IsNaming threads other replies }
{}
