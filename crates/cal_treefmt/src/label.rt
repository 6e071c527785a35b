ghost use Rattle.std.specs.Prelude.{◌≡◌, ◌<◌, ◌++◌, length, OnOk};
ghost use Rattle.cal_context.specs.Tree.{path_at};
ghost use Rattle.cal_treefmt.specs.Lines.{indent as indent_of, label as label_of};

use cal_context::{Context, NodeNumber};
use cal_value::{OutOfMemory, Text, print_value};

/// Writes the label of a node, in place of what stood there.
pub(crate) fn write_label(
    label: &mut Text,
    context: &Context,
    node: NodeNumber,
) -> Result<(), OutOfMemory>
    requires { node.0 < length context.now.paths }
    ensures { OnOk result (label.new ≡ label_of (path_at context.now node)) }
{
    label.truncate(0);
    let Some(link) = context.link(node) else {
        return Ok(());
    };
    indent(label, context, link.parent)?;
    print_value(context.value_at(link.value), label)
}

/// Adds two spaces for each entry of a node.
fn indent(label: &mut Text, context: &Context, node: NodeNumber) -> Result<(), OutOfMemory>
    requires { node.0 < length context.now.paths }
    ensures { OnOk result (label.new ≡ label.old ++ indent_of (path_at context.now node)) }
{
    let mut node = node;
    while let Some(link) = context.link(node) {
        label.push_str("  ")?;
        node = link.parent;
    }
    Ok(())
}
