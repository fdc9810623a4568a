ghost use Rattle.std.specs.Prelude.{◌≡◌, length, OnOk};
ghost use Rattle.std.specs.Result.{result_err};
ghost use Rattle.trip_model.specs.Blocking.{IsLeast};
ghost use Rattle.deadhead_matrix.specs.Fitting.{network_of};
ghost use Rattle.price_check.specs.Claim.{AreBlockRows, AreKnown, ArePriceRows, block_slots, blocks_in};
ghost use Rattle.price_check.specs.Reasons.{OnYes, misnamed, reason_of, unequal, unproved, verdict_of};

use crate::blocks::{accepted, all_fit, all_shown, weight_sum};
use crate::claim::{BlockRow, Claimed, PriceRow};
use crate::prices::{all_reached, price_sum};
use crate::trips::{all_known, all_once, none_missing};
use crate::verdict::{Reason, Verdict};
use deadhead_matrix::Matrix;
use gtfs_tables::Paper;
use trip_model::Timetable;

// The prices together are the weights of the links together.
fn sums_agree(prices: u64, weights: u64) -> Result<(), Reason>
    ensures { result_err result ≡ unequal prices weights }
{
    if prices != weights {
        return Err(Reason::SumsDiffer(prices, weights));
    }
    Ok(())
}

// The records of each file name each trip that runs once and nothing else, or the first of the three reasons why not.
fn all_named(timetable: &Timetable, blocks: &[BlockRow], prices: &[PriceRow]) -> Result<(), Reason>
    requires blocks { AreBlockRows timetable.now blocks.now }
    requires prices { ArePriceRows timetable.now prices.now }
    ensures first { result_err result ≡ misnamed timetable.now (record { blocks = blocks.now; prices = prices.now }) }
    ensures known { OnOk result (AreKnown (block_slots blocks.now)) }
{
    all_known(Paper::Blocks, blocks)?;
    all_known(Paper::Prices, prices)?;
    all_once(Paper::Blocks, blocks)?;
    all_once(Paper::Prices, prices)?;
    none_missing(Paper::Blocks, blocks, timetable)?;
    none_missing(Paper::Prices, prices, timetable)
}

// The blocks are proved by what the records show, or the first of the four reasons why not.
fn all_proved(
    timetable: &Timetable,
    matrix: &Matrix,
    blocks: &[BlockRow],
    prices: &[PriceRow],
) -> Result<(), Reason>
    requires places { length timetable.now.places ≡ length matrix.now.walks }
    requires blocks { AreBlockRows timetable.now blocks.now }
    requires prices { ArePriceRows timetable.now prices.now }
    ensures { result_err result ≡ unproved (network_of timetable.now matrix.now) (record { blocks = blocks.now; prices = prices.now }) }
{
    all_fit(timetable, matrix, blocks)?;
    all_shown(timetable, matrix, blocks)?;
    all_reached(timetable, matrix, prices)?;
    sums_agree(price_sum(prices), weight_sum(timetable, matrix, blocks))
}

// No reason holds, or the first that does.
fn judge(timetable: &Timetable, matrix: &Matrix, claimed: &Claimed) -> Result<(), Reason>
    requires places { length timetable.now.places ≡ length matrix.now.walks }
    requires blocks { AreBlockRows timetable.now claimed.now.blocks }
    requires prices { ArePriceRows timetable.now claimed.now.prices }
    ensures first { result_err result ≡ reason_of timetable.now matrix.now claimed.now }
    ensures known { OnOk result (AreKnown (block_slots claimed.now.blocks)) }
{
    let (blocks, prices) = (claimed.blocks(), claimed.prices());
    all_named(timetable, blocks, prices)?;
    all_proved(timetable, matrix, blocks, prices)
}

/// Judges a claim. It is yes, with the vehicles and the empty minutes of its blocks, exactly where none of the seven reasons
/// holds. Else it is no, with the first that holds. Every two records of `prices.csv` are looked at once. It takes no memory.
pub fn check(timetable: &Timetable, matrix: &Matrix, claimed: &Claimed) -> Verdict
    requires places { length timetable.now.places ≡ length matrix.now.walks }
    requires blocks { AreBlockRows timetable.now claimed.now.blocks }
    requires prices { ArePriceRows timetable.now claimed.now.prices }
    ensures verdict { result ≡ verdict_of timetable.now matrix.now claimed.now }
    // No blocking has fewer vehicles than the blocks of a yes, and none with as few fewer empty minutes.
    ensures least { OnYes result (IsLeast (network_of timetable.now matrix.now) (blocks_in claimed.now.blocks)) }
{
    // Their clauses say that the timetable is valid and that no pull is longer than a day.
    let _slots = timetable.slots();
    let _places = matrix.places();
    match judge(timetable, matrix, claimed) {
        Ok(()) => accepted(timetable, matrix, claimed.blocks()),
        Err(reason) => Verdict::No(reason),
    }
}
