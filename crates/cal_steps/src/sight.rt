use cal_board::{PathBoard, Readings};

/// What a snapshot sees: the boards of its thread and of the process, the readings by which the
/// thread's values were put there, the line's reading, and that of the snapshot before it.
#[derive(Drop)]
pub struct Sight<'a> {
    pub mine: &'a PathBoard,
    pub process: &'a PathBoard,
    pub readings: &'a Readings,
    pub reading: u64,
    pub previous: u64,
}
