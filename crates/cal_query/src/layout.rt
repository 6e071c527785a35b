ghost use Rattle.std.specs.Prelude.{◌≡◌, IfOk};
ghost use Rattle.cal_rowset.specs.Numbers.{rowset_of};
ghost use Rattle.cal_query.specs.Layout.{layout};

use cal_jsonfmt::json_text;
use cal_ql::Format;
use cal_rowset::SnapshotRowset;
use cal_tabfmt::{expand_text, table_text};
use cal_treefmt::tree_text;
use cal_value::{OutOfMemory, Text};
use std::alloc::Global;

/// The layout of an answer in a format. Time and memory are in the text and in what the answer
/// holds.
pub fn lay_out(alloc: Global, format: Format, answer: &SnapshotRowset) -> Result<Text, OutOfMemory>
    ensures { IfOk result (λ text. text ≡ layout format (rowset_of answer.now)) }
{
    match format {
        Format::Table => table_text(alloc, answer),
        Format::Json => json_text(alloc, answer),
        Format::Expand => expand_text(alloc, answer),
        Format::Tree => tree_text(alloc, answer),
    }
}
