ghost use Rattle.std.specs.Prelude.{◌≡◌, [], ◌++◌, codes, decimal, length, IfOk, OnOk};
ghost use Rattle.std.specs.Prelude.{if◌then◌else◌};
ghost use Rattle.cal_line.specs.Escapes.{escaped};

use crate::placing::{make_room, put_bytes, put_equals, put_plain};
use cal_line::escape;
use cal_value::{OutOfMemory, Text};
use std::alloc::Global;
use std::marker::Model;

/// A text that grows at its end, which contracts see as the list of its bytes. The block has room
/// behind the text, so that short pieces are put where they belong, each with one test.
#[derive(Drop)]
pub(crate) struct Page {
    bytes: Vec<u8>,
    used: usize,
}

impl Model for Page {
    ghost use Rattle.std.specs.Prelude.{ℕ, List, take};
    ghost use Rattle.cal_write.specs.Page.{IsPage};

    ghost Value = { List ℕ };

    ghost view = { λ p. take p.used p.bytes.items };

    ghost invariant = { λ p. IsPage p.used p.bytes.items };
}

impl Page {
    /// The empty text. It takes no memory.
    pub(crate) fn new(alloc: Global) -> Page
        ensures { result ≡ [] }
    {
        Page {
            bytes: Vec::new(alloc),
            used: 0,
        }
    }

    pub(crate) fn len(&self) -> usize
        ensures { result ≡ length self.now }
    {
        self.used
    }

    /// Drops the text, and keeps the block.
    pub(crate) fn clear(&mut self)
        ensures { self.new ≡ [] }
    {
        self.used = 0;
    }

    /// The text, in the same block.
    pub(crate) fn into_text(self) -> Text
        ensures { result ≡ self }
    {
        let mut bytes = self.bytes;
        bytes.truncate(self.used);
        Text::from_string(String::from_utf8(bytes).unwrap())
    }

    /// Adds a text at the end.
    #[inline(always)]
    pub(crate) fn put(&mut self, text: &str) -> Result<(), OutOfMemory>
        ensures { OnOk result (self.new ≡ self.old ++ text.now) }
    {
        make_room(&mut self.bytes, self.used, text.len())?;
        put_bytes(&mut self.bytes, self.used, text.as_bytes());
        self.used += text.len();
        Ok(())
    }

    /// Adds the text of another page at the end.
    #[inline(always)]
    pub(crate) fn put_page(&mut self, page: &Page) -> Result<(), OutOfMemory>
        ensures { OnOk result (self.new ≡ self.old ++ page.now) }
    {
        make_room(&mut self.bytes, self.used, page.used)?;
        put_bytes(&mut self.bytes, self.used, &page.bytes[..page.used]);
        self.used += page.used;
        Ok(())
    }

    /// Adds an `=` and a number at the end.
    #[inline(always)]
    pub(crate) fn put_equals(&mut self, number: u32) -> Result<(), OutOfMemory>
        ensures { OnOk result (self.new ≡ self.old ++ codes "=" ++ decimal number) }
    {
        make_room(&mut self.bytes, self.used, 11)?;
        self.used = put_equals(&mut self.bytes, self.used, number);
        Ok(())
    }

    /// Adds a text at the end as it is written in a stream.
    #[inline(always)]
    pub(crate) fn put_escaped(&mut self, text: &str) -> Result<(), OutOfMemory>
        ensures { OnOk result (self.new ≡ self.old ++ escaped text.now) }
    {
        if self.put_plain(text)? {
            return Ok(());
        }
        let mut aside = Text::new(self.allocator());
        escape(text, &mut aside)?;
        self.put(aside.as_str())
    }

    /// Adds a text at the end if it holds nothing to escape, and tells whether it did.
    #[inline(always)]
    fn put_plain(&mut self, text: &str) -> Result<bool, OutOfMemory>
        ensures { IfOk result (λ put. self.new
            ≡ (if put then self.old ++ escaped text.now else self.old)) }
    {
        make_room(&mut self.bytes, self.used, text.len())?;
        let is_plain = put_plain(&mut self.bytes, self.used, text.as_bytes());
        if is_plain {
            self.used += text.len();
        }
        Ok(is_plain)
    }

    /// The allocator of the text, for what is made beside it.
    pub(crate) fn allocator(&self) -> Global {
        *self.bytes.allocator()
    }
}
