ghost use Rattle.std.specs.Prelude.{◌≡◌};

use desk_io::Text;
use std::marker::Model;

/// The greatest price that a record may have, of 12 digits.
pub const MOST_PRICE: u64 = 999_999_999_999;

/// A record of `blocks.csv`: a trip of a block. Blocks are numbered from 0 in the order of the file. `slot` is the slot of the
/// trip of that name, if one runs. `deadhead` is the empty minutes that are shown before it.
#[derive(Drop)]
pub struct BlockRow {
    pub block: u32,
    pub trip: Text,
    pub slot: Option<u16>,
    pub deadhead: u32,
}

/// A record of `prices.csv`: the prices of leaving a trip and of entering it. `slot` is that of the trip of that name, if one
/// runs.
#[derive(Drop)]
pub struct PriceRow {
    pub trip: Text,
    pub slot: Option<u16>,
    pub leave: u64,
    pub enter: u64,
}

/// A record that names a trip.
pub trait Record {
    ghost slot_of: { Self → Option ℕ };

    ghost use Rattle.std.specs.Prelude.{Option, ℕ};

    /// The slot of the trip that it names, if one of that name runs.
    fn slot(&self) -> Option<u16>
        ensures { result ≡ slot_of self.now };
}

impl Record for BlockRow {
    ghost slot_of = { λ r. r.slot };

    fn slot(&self) -> Option<u16> {
        self.slot
    }
}

impl Record for PriceRow {
    ghost slot_of = { λ r. r.slot };

    fn slot(&self) -> Option<u16> {
        self.slot
    }
}

/// What is claimed of a timetable: the records of both files, each in its order.
pub struct Claimed {
    blocks: Vec<BlockRow>,
    prices: Vec<PriceRow>,
}

impl Drop for Claimed {
    fn drop(self) {
        let Self {
            blocks: _,
            prices: _,
        } = self;
    }
}

impl Model for Claimed {
    ghost use Rattle.price_check.specs.Claim.{ClaimedView};

    ghost Value = { ClaimedView };

    ghost view = { λ c. record { blocks = c.blocks.items; prices = c.prices.items } };
}

impl Claimed {
    /// The claim of these records. It takes no memory.
    pub fn of(blocks: Vec<BlockRow>, prices: Vec<PriceRow>) -> Claimed
        ensures { result ≡ record { blocks = blocks.items; prices = prices.items } }
    {
        Claimed { blocks, prices }
    }

    /// The records of `blocks.csv`.
    pub fn blocks(&self) -> &[BlockRow]
        ensures { result.now ≡ self.now.blocks }
    {
        &self.blocks
    }

    /// The records of `prices.csv`.
    pub fn prices(&self) -> &[PriceRow]
        ensures { result.now ≡ self.now.prices }
    {
        &self.prices
    }
}
