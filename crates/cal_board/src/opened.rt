use crate::Stack;

/// An open value, with the number of its attribute. `value` is what stands for the value: itself,
/// or a node.
#[derive(Debug, Drop)]
pub struct Opened<V> {
    pub attribute: u32,
    pub value: V,
}

/// A slot with its open values, the outermost first. The slot of all nested attributes has the
/// number 0, and that of any other attribute one more than the attribute.
#[derive(Debug, Drop)]
pub struct Slot<V> {
    pub number: u64,
    pub opened: Stack<Opened<V>>,
}
