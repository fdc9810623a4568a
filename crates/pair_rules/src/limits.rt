/// The most rules of pairs that are kept at a time. They name at most twice as many trips, so a name's number is a `u16`.
pub const MOST_RULES: u16 = 32_768;
