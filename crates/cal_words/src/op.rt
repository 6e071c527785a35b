ghost use Rattle.std.specs.Prelude.{◌≡◌, ◌<◌};
ghost use Rattle.cal_words.specs.Records.{IsOpRec};
ghost use Rattle.cal_words.specs.Words.{code_number, op_words};
ghost use Rattle.cal_words.specs.declared.op.OpRec.{OpRec};

use crate::{OpSort, Packed};

/// What an operation does to a blackboard.
#[derive(Clone, Copy, Debug, PartialEq, Eq)]
pub enum OpCode {
    Begin,
    End,
    Set,
}

/// An operation of a script's process line. `value` is a place in the script's list of values, and
/// 0 for an end.
#[derive(Clone, Copy, Debug, PartialEq, Eq)]
pub struct OpRec {
    pub thread: u32,
    pub line: u32,
    pub code: OpCode,
    pub attr: u32,
    pub value: u32,
}

fn code_word(code: OpCode) -> u64
    ensures { result ≡ code_number code }
{
    match code {
        OpCode::Begin => 0,
        OpCode::End => 1,
        OpCode::Set => 2,
    }
}

/// The operation whose words these are.
pub fn read_op(words: &[u64; 7]) -> OpRec
    requires { (op : OpRec) × IsOpRec op × (words.now ≡ op_words op) }
    ensures { words.now ≡ op_words result }
{
    OpRec {
        thread: words[2] as u32,
        line: words[3] as u32,
        code: read_code(words[4]),
        attr: words[5] as u32,
        value: words[6] as u32,
    }
}

fn read_code(word: u64) -> OpCode
    requires { word < 3 }
    ensures { code_number result ≡ word }
{
    match word {
        0 => OpCode::Begin,
        1 => OpCode::End,
        _ => OpCode::Set,
    }
}

/// The words of one of these operations are a record of `OpSort`. It costs nothing.
pub fn know_op(op: &OpRec)
    ensures { IsOpRec op.now }
{
    let OpRec {
        thread: _thread,
        line: _line,
        code: _code,
        attr: _attr,
        value: _value,
    } = *op;
}

impl Packed<OpSort> for OpRec {
    ghost words = { op_words };

    fn len(&self) -> u64 {
        7
    }

    fn word(&self, i: u64) -> u64 {
        match i {
            0 => 0,
            1 => 1,
            2 => u64::from(self.thread),
            3 => u64::from(self.line),
            4 => code_word(self.code),
            5 => u64::from(self.attr),
            _ => u64::from(self.value),
        }
    }

    fn matches(&self, i: u64, w: u64) -> bool {
        Packed::<OpSort>::word(self, i) == w
    }

    fn home(&self, _homes: u64) -> u64 {
        0
    }
}
