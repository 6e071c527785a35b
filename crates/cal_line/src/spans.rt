/// Where a key or a value stands in its line, and whether a backslash stands in it.
#[derive(Clone, Copy, Debug)]
pub(crate) struct Span {
    pub(crate) start: usize,
    pub(crate) end: usize,
    pub(crate) has_escape: bool,
}

/// Where a field stands in its line: its key, and which of the line's values are its own.
#[derive(Clone, Copy, Debug)]
pub(crate) struct FieldSpans {
    pub(crate) key: Span,
    pub(crate) first: usize,
    pub(crate) after: usize,
}
