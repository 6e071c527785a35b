//! What a text of declarations says.

use cal_value::{Attribute, Seq};
use cal_words::Shape;

/// The declarations of each thread in order, and the shape of a table that has room for their
/// names.
#[derive(Debug, Drop)]
pub struct Declarations {
    pub threads: Seq<Seq<Attribute>>,
    pub shape: Shape,
}
