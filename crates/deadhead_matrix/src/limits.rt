/// The most minutes of a least walk: it goes on from each of 512 places but its last at most once.
pub const LONGEST_WALK: u32 = 735_840;
