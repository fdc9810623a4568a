/// The most minutes of an entry, and of a way out of the depot or home.
pub const MOST_DEADHEAD: u16 = 1440;

/// What one vehicle weighs against minutes: more than all empty minutes of a day together.
pub const VEHICLE_WEIGHT: u64 = 67_108_864;

/// The most that a link may be liked, 2^38 less one.
pub const MOST_LIKING: u64 = 274_877_906_943;

/// What a trip that has to be linked counts for against likings: more than all likings of a day together, 2^50.
pub const PRICED: u64 = 1_125_899_906_842_624;
