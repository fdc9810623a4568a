ghost use Rattle.std.specs.Prelude.{IfOk};
ghost use Rattle.gtfs_tables.specs.Papers.{IsWithinLimit};
ghost use Rattle.price_check.specs.Claim.{AreBlockRows, ArePriceRows};
ghost use Rattle.claim_files.specs.Claims.{GivesClaim, claimed_of};

use crate::blocks::blocks_of;
use crate::fault::{ClaimFault, claim_fault};
use crate::prices::prices_of;
use desk_io::Found;
use gtfs_tables::Paper;
use price_check::Claimed;
use std::alloc::Global;
use trip_model::Timetable;

/// What `blocks.csv` and `prices.csv` claim of a timetable, record by record. Blocks are numbered from 0, and a trip that runs
/// is found by its name. `blocks.csv` is judged before `prices.csv`.
pub fn read_claimed(
    alloc: Global,
    timetable: &Timetable,
    blocks: &Found,
    prices: &Found,
) -> Result<Claimed, ClaimFault>
    requires blocks { IsWithinLimit blocks.now }
    requires prices { IsWithinLimit prices.now }
    ensures gives { GivesClaim result (claimed_of timetable.now blocks.now prices.now) }
    ensures blocks { IfOk result (λ claimed. AreBlockRows timetable.now claimed.blocks) }
    ensures prices { IfOk result (λ claimed. ArePriceRows timetable.now claimed.prices) }
{
    let blocks = match blocks_of(alloc, timetable, blocks) {
        Ok(rows) => rows,
        Err(refused) => return Err(claim_fault(Paper::Blocks, &refused)),
    };
    let prices = match prices_of(alloc, timetable, prices) {
        Ok(rows) => rows,
        Err(refused) => return Err(claim_fault(Paper::Prices, &refused)),
    };
    Ok(Claimed::of(blocks, prices))
}
