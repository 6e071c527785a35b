ghost use Rattle.std.specs.Prelude.{◌≡◌, min};
ghost use Rattle.std.specs.Char.{is_digit};
ghost use Rattle.std.specs.List.{list_all};
ghost use Rattle.cal_value.specs.Numerals.{is_numeral};
ghost use Rattle.cal_script.specs.Lines.{pieces};
ghost use Rattle.cal_journal.specs.Pending.{Finds};
ghost use Rattle.cal_journal.specs.Words.{long_number, numbered_reply, plain_reply, reading_said};
ghost use Rattle.cal_journal.specs.Words.{reply_said, short_number};

use crate::ends::LineFault;
use cal_script::{Reply, cut, read_decimal};
use std::alloc::Global;

fn is_digit(byte: u8) -> bool
    ensures { result ≡ is_digit byte 10 }
{
    char::from(byte).is_digit(10)
}

fn has_digits(word: &str) -> bool
    ensures { result ≡ list_all (λ byte. is_digit byte 10) word.now }
{
    word.as_bytes().iter().all(|byte| is_digit(*byte))
}

fn is_decimal(word: &str) -> bool
    ensures { result ≡ is_numeral 10 word.now }
{
    !word.is_empty() && has_digits(word)
}

/// A number of 64 bits. A greater one is the greatest.
#[tactic(auto, using(crate::proofs::Decimals::long_read, crate::proofs::Decimals::long_great, crate::proofs::Decimals::long_none))]
pub(crate) fn read_long(alloc: Global, word: &str) -> Result<u64, LineFault>
    ensures { Finds (λ number. number) result (long_number word.now) }
{
    if !is_decimal(word) {
        return Err(LineFault::Form);
    }
    match read_decimal(alloc, word)? {
        Some(number) => Ok(number),
        None => Ok(u64::MAX),
    }
}

fn shortened(number: u64) -> u32
    ensures { result ≡ min number 4294967295 }
{
    if number < 4_294_967_295 {
        number as u32
    } else {
        u32::MAX
    }
}

/// A number of 32 bits. A greater one is the greatest.
#[tactic(auto, using(crate::proofs::Decimals::short_long, crate::proofs::Decimals::short_none))]
pub(crate) fn read_short(alloc: Global, word: &str) -> Result<u32, LineFault>
    ensures { Finds (λ number. number) result (short_number word.now) }
{
    let number = read_long(alloc, word)?;
    Ok(shortened(number))
}

/// A reading, or none.
pub(crate) fn read_reading(alloc: Global, word: &str) -> Result<Option<u64>, LineFault>
    ensures { Finds (λ reading. reading) result (reading_said word.now) }
{
    if word == "-" {
        return Ok(None);
    }
    match read_decimal(alloc, word)? {
        Some(number) => Ok(Some(number)),
        None => Err(LineFault::Form),
    }
}

fn plain_reply(name: &str) -> Result<Reply, LineFault>
    ensures { Finds (λ reply. reply) result (plain_reply name.now) }
{
    match name {
        "done" => Ok(Reply::Done),
        "notopen" => Ok(Reply::NotOpen),
        "toodeep" => Ok(Reply::TooDeep),
        "slotsfull" => Ok(Reply::SlotsFull),
        "merged" => Ok(Reply::Merged),
        _ => Err(LineFault::Form),
    }
}

fn numbered_reply(alloc: Global, name: &str, number: &str) -> Result<Reply, LineFault>
    ensures { Finds (λ reply. reply) result (numbered_reply name.now number.now) }
{
    match name {
        "mismatch" => {
            let top = read_short(alloc, number)?;
            Ok(Reply::Mismatch { top })
        }
        "busy" => {
            let holder = read_short(alloc, number)?;
            Ok(Reply::Busy { holder })
        }
        _ => Err(LineFault::Form),
    }
}

/// A reply.
#[tactic(auto, using(crate::proofs::Decimals::reply_more))]
pub(crate) fn read_reply(alloc: Global, word: &str) -> Result<Reply, LineFault>
    ensures { Finds (λ reply. reply) result (reply_said word.now) }
{
    let (name, behind) = cut(word, ':');
    let Some(behind) = behind else {
        return plain_reply(name);
    };
    let (number, more) = cut(behind, ':');
    if more.is_some() {
        return Err(LineFault::Form);
    }
    numbered_reply(alloc, name, number)
}
