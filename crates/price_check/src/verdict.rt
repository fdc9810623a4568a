use gtfs_tables::Paper;

/// Why a claim is no certificate. Records are numbered from 1. The seven are judged in this order, each of the first three in
/// `blocks.csv` before `prices.csv`, and each at its least record or slot.
#[derive(Clone, Copy)]
pub enum Reason {
    /// A record names no trip that runs.
    UnknownTrip(Paper, u32),
    /// An earlier record of the file names the trip of the record.
    TripTwice(Paper, u32),
    /// No record of the file names the trip of a slot, which runs.
    TripMissing(Paper, u16),
    /// The trip of a record of `blocks.csv` does not fit after the one before it in its block.
    NotFit(u32),
    /// A record of `blocks.csv`, the minutes that it shows, and the empty minutes before its trip.
    MinutesDiffer(u32, u32, u32),
    /// The second trip fits after the first. The prices of leaving the one and of entering the other do not reach the weight of
    /// the pair.
    PriceLow(u16, u16),
    /// All prices together, and the weights of the links together, which differ.
    SumsDiffer(u64, u64),
}

/// The verdict on a claim: its blocks are least, with their vehicles and empty minutes, or the first reason why this is not
/// proved.
#[derive(Clone, Copy)]
pub enum Verdict {
    Yes { vehicles: u32, minutes: u32 },
    No(Reason),
}
