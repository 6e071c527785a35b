//! Where an opener in memory reads.

/// Where an opener in memory reads: the place of the file that is open, and that of the next byte.
#[derive(Clone, Copy, Debug)]
pub(crate) struct Place {
    pub(crate) file: usize,
    pub(crate) byte: usize,
}
