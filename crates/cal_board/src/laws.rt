ghost use Rattle.cal_board.specs.Blackboard.{Blackboard, IsTableReply, reply_to};
ghost use Rattle.cal_board.specs.declared.attr.AttrRef.{AttrRef};
ghost use Rattle.cal_words.specs.declared.op.OpCode.{OpCode};

/// By the table of boards no reply tells of a shared tree.
pub fn table_reply_law<N>()
    ensures { (b : Blackboard N) (c : OpCode) (a : AttrRef) → IsTableReply (reply_to b c a) }
{}
