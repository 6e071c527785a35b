ghost use Rattle.std.specs.Prelude.{◌≡◌, IfOk};
ghost use Rattle.cal_treefmt.specs.Tree.{header_texts};

use cal_rowset::Column;
use cal_tabfmt::push_headers;
use cal_value::{OutOfMemory, Seq, Text};
use std::alloc::Global;

/// The texts of the headers.
pub(crate) fn header_texts(alloc: Global, columns: &[Column]) -> Result<Seq<Text>, OutOfMemory>
    ensures { IfOk result (λ texts. texts ≡ header_texts columns.now) }
{
    let mut texts = Seq::new(alloc);
    texts.push(Text::from_str(alloc, "Path")?)?;
    push_headers(alloc, &mut texts, columns)?;
    Ok(texts)
}
