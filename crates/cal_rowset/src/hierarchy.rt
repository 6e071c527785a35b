ghost use Rattle.std.specs.Prelude.{◌≡◌};
ghost use Rattle.cal_rowset.specs.Hierarchy.{is_of_hierarchy};

use bitflags::Flags;
use cal_value::{Attribute, Props};

/// Whether entries of an attribute belong to the hierarchy where they stand in a path: bit 256 is
/// set, whatever other bits are.
pub fn is_of_hierarchy(attribute: &Attribute) -> bool
    ensures { result ≡ is_of_hierarchy attribute.now }
{
    attribute.props.contains(Props::NESTED)
}
