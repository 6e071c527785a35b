ghost use Rattle.std.specs.Prelude.{◌≡◌, ◌<◌, length, OnOk};
ghost use Rattle.cal_rowset.specs.Links.{AreLinksOf};

use cal_context::{Context, Link, NodeNumber};
use cal_value::OutOfMemory;

/// The links of a node's path, from the root down, in place of what `links` had.
pub fn find_links(
    context: &Context,
    node: NodeNumber,
    links: &mut Vec<Link>,
) -> Result<(), OutOfMemory>
    requires { node.0 < length context.now.paths }
    ensures { OnOk result (AreLinksOf context.now node links.new.items) }
{
    links.clear();
    let mut node = node;
    while let Some(link) = context.link(node) {
        links.push(link)?;
        node = link.parent;
    }
    links.reverse();
    Ok(())
}
