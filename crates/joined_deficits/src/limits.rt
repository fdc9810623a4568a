/// The most joined moves that the blocks of a timetable have. There is a move for each of 4,096 trips, and one between each two
/// neighbours where all are in one block.
pub const MOST_MOVES: u16 = 8191;
