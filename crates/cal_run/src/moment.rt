use cal_board::{Board, Readings};

/// What a snapshot sees: the boards of its thread and of the process, the readings by which the
/// thread's values were put there, the line's reading, and that of the thread's snapshot before it.
/// The readings are only kept where `timed` says so.
#[derive(Drop)]
pub struct Moment<'a, N> {
    pub board: &'a Board<N>,
    pub readings: &'a Readings,
    pub process: &'a Board<N>,
    pub reading: u64,
    pub previous: u64,
    pub timed: bool,
}
